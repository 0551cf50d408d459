// The control bytes of port 0043: which counter, which bytes of its count, which mode.
ghost use Rattle.std.specs.Prelude.{◌≡◌};
ghost use Rattle.timer.specs.Sheet.{entry_of, control_of, counter_from};

use crate::table::SHEET;
use crate::{Access, Mode};
use fault::Refusal;

// kept: a control byte cannot name counter 3, so this has a case fewer than CountPort
#[derive(Clone, Copy)]
pub enum CounterName {
    // counter 0
    System,
    // counter 2
    Speaker,
}

// Bits 7-6 of the control byte.
impl TryFrom<u8> for CounterName {
    type Error = Refusal;

    ghost try_from_gives = { λ n name. name ≡ counter_from n };

    fn try_from(n: u8) -> Result<CounterName, Refusal> {
        match n {
            0 => Ok(CounterName::System),
            2 => Ok(CounterName::Speaker),
            _ => Err(Refusal::NotListed),
        }
    }
}

#[derive(Clone, Copy)]
pub struct Control {
    pub counter: CounterName,
    pub access: Access,
    pub mode: Mode,
}

// The sheet's number for a byte at port 0043.
#[tactic(auto, using(crate::proofs::Entries::entry_is))]
pub fn sheet_entry(byte: u8) -> u8
    ensures { result ≡ entry_of byte }
{
    SHEET[usize::from(byte)]
}

// What a byte at port 0043 asks for, if it is listed.
pub fn decode_control(byte: u8) -> Option<Control>
    ensures { result ≡ control_of byte }
{
    let fields = sheet_entry(byte).checked_sub(1)?;
    Some(Control {
        counter: CounterName::try_from(fields / 32).ok()?,
        access: Access::try_from(fields / 8 % 4).ok()?,
        mode: Mode::try_from(fields % 8).ok()?,
    })
}
