#![tactic(auto)]

ghost use Rattle.std.specs.Prelude.{◌≡◌, IfOk, Some};
ghost use Rattle.script.specs.Entries.{reading, WithinLine, is_rig_entry, told};

use names::Name;
use std::error::Error;
use std::fmt;

mod build;
mod names;
mod number;
mod operands;
mod words;

pub use number::{Base, read_number};
pub use words::{Words, words_of};

// A part of the board that is laid out before the first call.
#[derive(Clone, Copy)]
pub enum Part {
    Memory(u32),
    // from the first address up to but not the second
    Protect(u32, u32),
    Scale(u8),
    Printer(u8),
    Journal(u32),
}

// An entry of a script.
#[derive(Clone, Copy)]
pub enum Entry {
    Part(Part),
    In(u16),
    Out(u16, u8),
    Tick(u32),
    Acknowledge,
    // a level and a unit
    Arrive(u8, u16),
    Load(u32),
    Store(u32, u8),
    Reset,
    Grant,
    Find(u32),
    State,
    Level(u8),
    Lines,
}

// Why a line is no entry.
#[derive(Clone, Copy, Debug)]
pub enum Misread {
    UnknownEntry,
    TooFewWords,
    TooManyWords,
    BadNumber,
}

impl Misread {
    pub fn text(self) -> &'static str
        ensures { result.now ≡ told self }
    {
        match self {
            Misread::UnknownEntry => "unknown entry",
            Misread::TooFewWords => "too few words",
            Misread::TooManyWords => "too many words",
            Misread::BadNumber => "a number that does not fit",
        }
    }
}

impl fmt::Display for Misread {
    ghost output = { λ misread. Some (told misread) };

    fn fmt<W: fmt::Write>(&self, f: &mut fmt::Formatter<W>) -> fmt::Result {
        f.write_str(self.text())
    }
}

impl Error for Misread {}

// The entry of a line, if it has one.
pub fn read_entry(line: &str) -> Result<Option<Entry>, Misread>
    ensures answer { result ≡ reading line.now }
    ensures within { IfOk result WithinLine }
{
    let mut words = words_of(line);
    let Some(name) = words.next() else {
        return Ok(None);
    };
    let name = name.parse::<Name>()?;
    let (first, second, more) = (words.next(), words.next(), words.next());
    name.read(first, second, more).map(Some)
}

// Whether the entry lays out the board before the first call.
pub fn is_rig(entry: Entry) -> bool
    ensures { result ≡ is_rig_entry entry }
{
    matches!(entry, Entry::Part(_))
}
