ghost use Rattle.std.specs.Prelude.{◌≡◌};
ghost use Rattle.journal.specs.Lookup.{writes, reaches, wrote, address_answer, Found};

use super::{Kind, Line};
use fault::{Fault, Refusal};

impl Kind {
    fn writes_memory(self) -> bool
        ensures { result ≡ writes self }
    {
        matches!(self, Kind::CardToMemory | Kind::Store)
    }
}

impl Line {
    // Whether the line's unit lies at the address, in part or whole.
    fn reaches_address(&self, address: u32) -> bool
        ensures { result ≡ reaches self.now address }
    {
        self.address == address || self.wide && self.address.wrapping_add(1) % 0x100_0000 == address
    }
}

// Most words lie elsewhere, as their address field tells before they are read as lines.
fn wrote(word: u64, address: u32) -> bool
    ensures { result ≡ wrote word address }
{
    let field = ((word >> 16) % 0x100_0000) as u32;
    if field != address && (field + 1) % 0x100_0000 != address {
        return false;
    }
    Line::unpack(word).is_ok_and(|line| line.kind.writes_memory() && line.reaches_address(address))
}

// An address of more than 24 bits is too large.
pub fn check_address(address: u32) -> Result<(), Fault>
    ensures { result ≡ address_answer address }
{
    if address >= 0x100_0000 {
        return Err(Fault::own(Refusal::TooLarge, address));
    }
    Ok(())
}

// The place of a word that wrote the address.
pub fn find_writer(words: &[u64], address: u32) -> Result<usize, Fault>
    ensures { Found words.now address result }
{
    check_address(address)?;
    words
        .iter()
        .position(|word| wrote(*word, address))
        .ok_or(Fault::own(Refusal::NoWriter, address))
}
