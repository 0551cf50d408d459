ghost use Rattle.std.specs.Prelude.{◌≡◌, Some};
ghost use Rattle.bench.specs.Rig.{bare, part_of, is_given, with_part, placed, after, told};

use script::{Entry, Part};
use std::error::Error;
use std::fmt;

// What a script lays out before its first call.
#[derive(Clone, Copy, Default)]
pub struct Rig {
    pub memory: Option<u32>,
    // from the first address up to but not the second
    pub protect: Option<(u32, u32)>,
    pub first_scale: Option<u8>,
    pub second_scale: Option<u8>,
    pub printer: Option<u8>,
    pub journal: Option<u32>,
    // a call or a view has come
    // kept: with an open and a closed rig as two types, each reader of a part would match on them first
    pub closed: bool,
}

// Why an entry may not stand where it stands.
#[derive(Clone, Copy, Debug)]
pub enum Misplaced {
    GivenTwice,
    AfterCall,
}

impl Misplaced {
    pub fn text(self) -> &'static str
        ensures { result.now ≡ told self }
    {
        match self {
            Misplaced::GivenTwice => "entry given twice",
            Misplaced::AfterCall => "rig entry after the first call",
        }
    }
}

impl fmt::Display for Misplaced {
    ghost output = { λ misplaced. Some (told misplaced) };

    fn fmt<W: fmt::Write>(&self, f: &mut fmt::Formatter<W>) -> fmt::Result {
        f.write_str(self.text())
    }
}

impl Error for Misplaced {}

impl Rig {
    // With nothing given.
    pub fn new() -> Rig
        ensures { result ≡ bare }
    {
        Rig::default()
    }

    // Whether the part has been given as often as it may.
    fn is_given(&self, part: Part) -> bool
        ensures { result ≡ is_given self.now part }
    {
        match part {
            Part::Memory(_) => self.memory.is_some(),
            Part::Protect(_, _) => self.protect.is_some(),
            Part::Scale(_) => self.second_scale.is_some(),
            Part::Printer(_) => self.printer.is_some(),
            Part::Journal(_) => self.journal.is_some(),
        }
    }

    fn set(&mut self, part: Part)
        ensures { self.new ≡ with_part self.old part }
    {
        match part {
            Part::Memory(length) => self.memory = Some(length),
            Part::Protect(lo, hi) => self.protect = Some((lo, hi)),
            Part::Scale(level) if self.first_scale.is_none() => self.first_scale = Some(level),
            Part::Scale(level) => self.second_scale = Some(level),
            Part::Printer(level) => self.printer = Some(level),
            Part::Journal(length) => self.journal = Some(length),
        }
    }

    // Takes the next entry of a script.
    pub fn take(&mut self, entry: Entry) -> Result<(), Misplaced>
        ensures answer { result ≡ placed self.old (part_of entry) }
        ensures after { self.new ≡ after self.old (part_of entry) }
    {
        let Entry::Part(part) = entry else {
            self.closed = true;
            return Ok(());
        };
        if self.closed {
            return Err(Misplaced::AfterCall);
        }
        if self.is_given(part) {
            return Err(Misplaced::GivenTwice);
        }
        self.set(part);
        Ok(())
    }
}
