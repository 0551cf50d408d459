ghost use Rattle.std.specs.Prelude.{◌≡◌, Some};
ghost use Rattle.script.specs.Entries.{reading};
ghost use Rattle.bench.specs.declared.lines.Wrong.TheVariants.{Misread as WrongMisread, Misplaced as WrongMisplaced};
ghost use Rattle.bench.specs.Lines.{line_answer, line_after, told};

use crate::rig::{Misplaced, Rig};
use script::{Entry, Misread, read_entry};
use std::error::Error;
use std::fmt;

// What is wrong with a line.
#[derive(Clone, Copy, Debug)]
pub enum Wrong {
    Misread(Misread),
    Misplaced(Misplaced),
}

impl From<Misread> for Wrong {
    ghost from_gives = { λ misread wrong. wrong ≡ WrongMisread misread };

    fn from(misread: Misread) -> Wrong {
        Wrong::Misread(misread)
    }
}

impl From<Misplaced> for Wrong {
    ghost from_gives = { λ misplaced wrong. wrong ≡ WrongMisplaced misplaced };

    fn from(misplaced: Misplaced) -> Wrong {
        Wrong::Misplaced(misplaced)
    }
}

impl Wrong {
    pub fn text(self) -> &'static str
        ensures { result.now ≡ told self }
    {
        match self {
            Wrong::Misread(misread) => misread.text(),
            Wrong::Misplaced(misplaced) => misplaced.text(),
        }
    }
}

impl fmt::Display for Wrong {
    ghost output = { λ wrong. Some (told wrong) };

    fn fmt<W: fmt::Write>(&self, f: &mut fmt::Formatter<W>) -> fmt::Result {
        f.write_str(self.text())
    }
}

impl Error for Wrong {}

// Takes a line of a script into the rig and gives the entry that it has.
pub fn take_line(rig: &mut Rig, line: &str) -> Result<Option<Entry>, Wrong>
    ensures answer { result ≡ line_answer rig.old (reading line.now) }
    ensures after { rig.new ≡ line_after rig.old (reading line.now) }
{
    let found = read_entry(line)?;
    if let Some(entry) = found {
        rig.take(entry)?;
    }
    Ok(found)
}
