#![tactic(auto)]

ghost use Rattle.std.specs.Prelude.{◌≡◌, Some};
ghost use Rattle.fault.specs.Numbers.{number, own};
ghost use Rattle.fault.specs.Text.{fault_text};

use std::error::Error;
use std::fmt;

// Why a call is refused.
#[derive(Clone, Copy, Debug, PartialEq, Eq)]
pub enum Refusal {
    // no such port that way
    NoSuchPort,
    // a function, mode, level or control byte that is not listed
    NotListed,
    // port 001A against the command's way, or a count port before set-up
    WrongWay,
    // a whole count of 1 in mode 2 or 3
    CountOfOne,
    MemoryAbsent,
    MemoryProtected,
    JournalFull,
    // the card cannot serve
    CannotServe,
    ArrivalNotTaken,
    // an address above 24 bits or a level above 14
    TooLarge,
    // no line wrote the address
    NoWriter,
    // the fields or the word are no journal line
    NotALine,
}

// The number by which a refusal is told.
impl From<Refusal> for u8 {
    ghost from_gives = { λ refusal n. n ≡ number refusal };

    fn from(refusal: Refusal) -> u8 {
        match refusal {
            Refusal::NoSuchPort => 1,
            Refusal::NotListed => 2,
            Refusal::WrongWay => 3,
            Refusal::CountOfOne => 4,
            Refusal::MemoryAbsent => 5,
            Refusal::MemoryProtected => 6,
            Refusal::JournalFull => 7,
            Refusal::CannotServe => 8,
            Refusal::ArrivalNotTaken => 9,
            Refusal::TooLarge => 10,
            Refusal::NoWriter => 11,
            Refusal::NotALine => 12,
        }
    }
}

// A refusal, where it was, and how deep: 0 for the board, 1 for its memory, one more for each memory within.
#[derive(Clone, Copy, Debug, PartialEq, Eq)]
pub struct Fault {
    pub refusal: Refusal,
    pub place: u32,
    pub layer: u8,
}

impl Fault {
    // A fault of the board itself.
    pub fn own(refusal: Refusal, place: u32) -> Fault
        ensures { result ≡ own refusal place }
    {
        Fault {
            refusal,
            place,
            layer: 0,
        }
    }
}

impl fmt::Display for Fault {
    ghost output = { λ fault. Some (fault_text fault) };

    fn fmt<W: fmt::Write>(&self, f: &mut fmt::Formatter<W>) -> fmt::Result {
        let number = u8::from(self.refusal);
        write!(
            f,
            "refused {number} place {:08X} layer {}",
            self.place, self.layer
        )
    }
}

impl Error for Fault {}
