ghost use Rattle.std.specs.Prelude.{◌≡◌, ◌≤◌, IfSome};
ghost use Rattle.std.specs.Option.{option_copied};
ghost use Rattle.script.specs.Entries.{required as needed, first_of, second_of, lacks, exceeds, operand_value, limit_of, AbsentWithin};

use super::names::Name;
use super::number::{Base, read_number};

// How an operand is written.
#[derive(Clone, Copy)]
pub(crate) struct Operand {
    pub base: Base,
    pub limit: u32,
    // what it is where its word is left out, if it may be
    // kept: that this keeps the limit, as a ghost field, would put a proof into each operand of specs/
    pub absent: Option<u32>,
}

impl Name {
    pub(crate) fn first_operand(self) -> Option<Operand>
        ensures operand { result ≡ first_of self }
        ensures absent { AbsentWithin result }
    {
        match self {
            Name::Memory => required(Base::Decimal, 0x100_0000),
            Name::Journal => required(Base::Decimal, 0x1_0000),
            Name::Scale | Name::Printer | Name::Arrive | Name::Level => required(
                Base::Decimal,
                0xff,
            ),
            Name::In | Name::Out => required(Base::Hexadecimal, 0xffff),
            Name::Protect | Name::Load | Name::Store | Name::Find => required(
                Base::Hexadecimal,
                0xffff_ffff,
            ),
            Name::Tick => Some(Operand {
                base: Base::Decimal,
                limit: 0xff_ffff,
                absent: Some(1),
            }),
            Name::Acknowledge | Name::Reset | Name::Grant | Name::State | Name::Lines => None,
        }
    }

    pub(crate) fn second_operand(self) -> Option<Operand>
        ensures operand { result ≡ second_of self }
        ensures absent { AbsentWithin result }
    {
        match self {
            Name::Protect => required(Base::Hexadecimal, 0xffff_ffff),
            Name::Out | Name::Store => required(Base::Hexadecimal, 0xff),
            Name::Arrive => required(Base::Hexadecimal, 0xffff),
            _ => None,
        }
    }
}

// An operand that has to be there.
fn required(base: Base, limit: u32) -> Option<Operand>
    ensures { result ≡ needed base limit }
{
    Some(Operand {
        base,
        limit,
        absent: None,
    })
}

// Whether the operand's word has to be there and is not.
pub(crate) fn is_lacking(operand: Option<Operand>, word: Option<&str>) -> bool
    ensures { result ≡ lacks operand (option_copied word.entry) }
{
    operand.is_some_and(|taken| taken.absent.is_none()) && word.is_none()
}

// Whether there is a word and no operand to take it.
pub(crate) fn is_surplus(operand: Option<Operand>, word: Option<&str>) -> bool
    ensures { result ≡ exceeds operand (option_copied word.entry) }
{
    operand.is_none() && word.is_some()
}

// The number that the word gives for the operand.
pub(crate) fn read_operand(operand: Option<Operand>, word: Option<&str>) -> Option<u32>
    ensures value { result ≡ operand_value operand (option_copied word.entry) }
    ensures within { AbsentWithin operand → IfSome result (λ n. n ≤ limit_of operand) }
{
    match (operand, word) {
        (Some(taken), Some(word)) => read_number(word, taken.base, taken.limit),
        (Some(taken), None) => taken.absent,
        // kept: too few and too many words come before a bad number, so operands are read before the entry is built
        (None, _) => Some(0),
    }
}
