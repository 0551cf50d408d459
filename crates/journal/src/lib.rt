#![tactic(auto)]

ghost use Rattle.std.specs.Prelude.{◌≡◌, ◌<◌, true, false, IfOk, Ok, Some};
ghost use Rattle.fault.specs.declared.Refusal.TheVariants.{NotALine};
ghost use Rattle.fault.specs.Numbers.{own};
ghost use Rattle.journal.specs.Layout.{number_of_kind, kind_read, suits, listed, word as layout, packed, fields, unpacked};
ghost use Rattle.journal.specs.Room.{full};
ghost use Rattle.journal.specs.Text.{line_text};

use fault::{Fault, Refusal};
use std::fmt;

mod lookup;

pub use lookup::{check_address, find_writer};

// What a line tells of.
#[derive(Clone, Copy, Debug, PartialEq, Eq)]
pub enum Kind {
    CardToMemory,
    MemoryToCard,
    // a transfer that moves no unit
    Verify,
    // a store by the processor
    Store,
}

impl From<Kind> for u8 {
    ghost from_gives = { λ kind n. n ≡ number_of_kind kind };

    fn from(kind: Kind) -> u8 {
        match kind {
            Kind::CardToMemory => 1,
            Kind::MemoryToCard => 2,
            Kind::Verify => 3,
            Kind::Store => 4,
        }
    }
}

impl TryFrom<u8> for Kind {
    type Error = Fault;

    ghost try_from_gives = { λ n kind. kind ≡ kind_read n };

    fn try_from(n: u8) -> Result<Kind, Fault> {
        match n {
            1 => Ok(Kind::CardToMemory),
            2 => Ok(Kind::MemoryToCard),
            3 => Ok(Kind::Verify),
            4 => Ok(Kind::Store),
            _ => Err(not_a_line(n)),
        }
    }
}

// One line of the journal.
#[derive(Clone, Copy, Debug, PartialEq, Eq)]
pub struct Line {
    pub kind: Kind,
    pub channel: u8,
    // the unit has 16 bits, not 8
    pub wide: bool,
    // the channel's count ran out with this line
    pub last: bool,
    pub level: u8,
    pub address: u32,
    pub unit: u16,
}

impl Line {
    // Whether the fields suit the kind.
    fn suits_kind(&self) -> bool
        ensures { result ≡ suits self.now.kind self.now }
    {
        match self.kind {
            Kind::CardToMemory | Kind::MemoryToCard => self.level <= 14,
            Kind::Verify => self.level <= 14 && self.unit == 0,
            Kind::Store => self.channel == 0 && !self.wide && !self.last && self.level == 15,
        }
    }

    // Whether there is such a line.
    pub fn is_listed(&self) -> bool
        ensures { result ≡ listed self.now }
    {
        let limit = if self.wide { 0x1_0000 } else { 0x100 };
        self.channel <= 7
            && self.address < 0x100_0000
            && u32::from(self.unit) < limit
            && self.suits_kind()
    }

    // The fields in their places.
    fn to_word(&self) -> u64
        requires { listed self.now ≡ true }
        ensures { result ≡ layout self.now }
    {
        let head = (u64::from(u8::from(self.kind)) << 60) + (u64::from(self.channel) << 57);
        let marks = (u64::from(self.wide) << 56)
            + (u64::from(self.last) << 55)
            + (u64::from(self.level) << 51);
        head + marks + (u64::from(self.address) << 16) + u64::from(self.unit)
    }

    // The line as a word.
    // kept: as conversions pack and unpack would state their laws in one ghost member, without their names
    #[tactic(auto, using(crate::proofs::Codec::reads_back))]
    pub fn pack(&self) -> Result<u64, Fault>
        ensures answer { result ≡ packed self.now }
        ensures reads_back { IfOk result (λ w. unpacked w ≡ Ok self.now) }
    {
        if self.is_listed() {
            Ok(self.to_word())
        } else {
            Err(not_a_line(self.kind.into()))
        }
    }

    // The fields of a word beneath its kind.
    fn from_fields(kind: Kind, word: u64) -> Line
        ensures { result ≡ fields kind word }
    {
        Line {
            kind,
            channel: ((word >> 57) % 8) as u8,
            wide: (word >> 56) % 2 == 1,
            last: (word >> 55) % 2 == 1,
            level: ((word >> 51) % 16) as u8,
            address: ((word >> 16) % 0x100_0000) as u32,
            unit: (word % 0x1_0000) as u16,
        }
    }

    // The line that packs to the word.
    pub fn unpack(word: u64) -> Result<Line, Fault>
        ensures answer { result ≡ unpacked word }
        ensures packs_back { IfOk result (λ l. packed l ≡ Ok word) }
        ensures accepted { (l : Line) → packed l ≡ Ok word → result ≡ Ok l }
    {
        let number = (word >> 60) as u8;
        let line = Line::from_fields(Kind::try_from(number)?, word);
        if (word >> 40) % 0x800 == 0 && line.is_listed() {
            Ok(line)
        } else {
            Err(not_a_line(number))
        }
    }
}

// The fields by name: numbers decimal, address and unit hexadecimal.
impl fmt::Display for Line {
    ghost output = { λ line. Some (line_text line) };

    fn fmt<W: fmt::Write>(&self, f: &mut fmt::Formatter<W>) -> fmt::Result {
        let kind = u8::from(self.kind);
        let wide = u8::from(self.wide);
        let last = u8::from(self.last);
        write!(
            f,
            "kind {kind} channel {} wide {wide} last {last} level {} address {:06X} unit {:04X}",
            self.channel, self.level, self.address, self.unit
        )
    }
}

fn not_a_line(kind: u8) -> Fault
    ensures { result ≡ own NotALine kind }
{
    Fault::own(Refusal::NotALine, u32::from(kind))
}

// Whether a journal of this length, with so many lines put down, has no room for one more.
pub fn is_full(lines: u32, length: usize) -> bool
    ensures answer { result ≡ full lines length }
    ensures room { result ≡ false → (lines < length) × (lines < 65536) }
{
    length.min(65536) <= lines as usize
}
