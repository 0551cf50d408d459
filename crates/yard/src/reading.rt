// The text of a script, and its entries with the lines that they stand in.

use bench::{Rig, Wrong, take_line};
use script::{Entry, words_of};
use std::alloc::{AllocError, Global};
use std::io::Read;
use std::{env, fmt, fs, io};

// An entry and the line that it stands in.
#[derive(Drop)]
pub(crate) struct Step<'a> {
    pub entry: Entry,
    pub line: LineWords<'a>,
}

// A line's words up to its comment, with single blanks between.
#[derive(Clone, Copy)]
pub(crate) struct LineWords<'a>(&'a str);

impl fmt::Display for LineWords<'_> {
    fn fmt<W: fmt::Write>(&self, f: &mut fmt::Formatter<W>) -> fmt::Result {
        f.write_joined(words_of(self.0), " ")
    }
}

fn read_step<'a>(rig: &mut Rig, line: &'a str) -> Result<Option<Step<'a>>, Wrong> {
    let entry = take_line(rig, line)?;
    Ok(entry.map(|entry| Step {
        entry,
        line: LineWords(line),
    }))
}

// Takes the lines of a script into the rig and collects the entries; each bad line is told.
pub(crate) fn read_steps<'a>(
    heap: Global,
    rig: &mut Rig,
    wrongs: &mut String,
    text: &'a str,
) -> Result<Vec<Step<'a>>, AllocError> {
    let mut steps = Vec::new(heap);
    for (place, line) in text.lines().enumerate() {
        match read_step(rig, line) {
            Ok(step) => steps.extend(step)?,
            Err(wrong) => writeln!(wrongs, "line {}: {wrong}", place.saturating_add(1))?,
        }
    }
    Ok(steps)
}

// The text of the file named as the argument, or of standard input.
pub(crate) fn read_text(rt: &HostRuntime) -> io::Result<String> {
    let mut bytes = Vec::new(rt.alloc());
    match env::args(rt)?.nth(1) {
        Some(path) => fs::open(rt, path.as_str())?.read_to_end(&mut bytes)?,
        None => rt.stdin().read_to_end(&mut bytes)?,
    };
    match String::from_utf8(bytes) {
        Ok(text) => Ok(text),
        Err(error) => Ok(String::from_utf8_lossy(rt.alloc(), error.into_bytes().as_slice())?),
    }
}
