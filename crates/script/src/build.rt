ghost use Rattle.std.specs.Prelude.{◌≡◌, ◌≤◌, IfOk};
ghost use Rattle.std.specs.Option.{option_copied};
ghost use Rattle.script.specs.Entries.{first_of, second_of, limit_of, built, entry_of, Within};

use super::names::Name;
use super::operands::{is_lacking, is_surplus, read_operand};
use super::{Entry, Misread, Part};

impl Name {
    // The entry with its operands, which are within their limits.
    fn build(self, first: u32, second: u32) -> Entry
        requires first_bound { first ≤ limit_of (first_of self) }
        requires second_bound { second ≤ limit_of (second_of self) }
        ensures entry { result ≡ built self first second }
        ensures within { Within result }
    {
        match self {
            Name::Memory => Entry::Part(Part::Memory(first)),
            Name::Protect => Entry::Part(Part::Protect(first, second)),
            Name::Scale => Entry::Part(Part::Scale(first as u8)),
            Name::Printer => Entry::Part(Part::Printer(first as u8)),
            Name::Journal => Entry::Part(Part::Journal(first)),
            Name::In => Entry::In(first as u16),
            Name::Out => Entry::Out(first as u16, second as u8),
            Name::Tick => Entry::Tick(first),
            Name::Acknowledge => Entry::Acknowledge,
            Name::Arrive => Entry::Arrive(first as u8, second as u16),
            Name::Load => Entry::Load(first),
            Name::Store => Entry::Store(first, second as u8),
            Name::Reset => Entry::Reset,
            Name::Grant => Entry::Grant,
            Name::Find => Entry::Find(first),
            Name::State => Entry::State,
            Name::Level => Entry::Level(first as u8),
            Name::Lines => Entry::Lines,
        }
    }

    // The entry of the words that follow the name.
    pub(crate) fn read(
        self,
        first: Option<&str>,
        second: Option<&str>,
        more: Option<&str>,
    ) -> Result<Entry, Misread>
        ensures answer { result ≡ entry_of self (option_copied first.entry) (option_copied second.entry) (option_copied more.entry) }
        ensures within { IfOk result Within }
    {
        let (one, two) = (self.first_operand(), self.second_operand());
        if is_lacking(one, first) || is_lacking(two, second) {
            return Err(Misread::TooFewWords);
        }
        if is_surplus(one, first) || is_surplus(two, second) || more.is_some() {
            return Err(Misread::TooManyWords);
        }
        let first = read_operand(one, first).ok_or(Misread::BadNumber)?;
        let second = read_operand(two, second).ok_or(Misread::BadNumber)?;
        Ok(self.build(first, second))
    }
}
