ghost use Rattle.std.specs.Prelude.{◌≡◌};
ghost use Rattle.memory.specs.Makes.{flat, flat_meaning};
ghost use Rattle.std.proofs.Common.{rules};

use crate::{Memory, MemoryFault, Reason};

// Memory from address 0 up to the number of its bytes.
#[derive(Drop)]
pub struct FlatMemory {
    bytes: Vec<u8>,
}

impl FlatMemory {
    pub fn new(bytes: Vec<u8>) -> FlatMemory
        ensures { flat_meaning result ≡ flat bytes.items }
    {
        FlatMemory { bytes }
    }
}

impl Memory for FlatMemory {
    ghost meaning = { flat_meaning };

    ghost bytes = { Prim.search rules };

    // What is present may be read and written.
    fn may_read(&self, at: u32) -> Result<(), MemoryFault> {
        self.read(at)?;
        Ok(())
    }

    fn may_write(&self, at: u32) -> Result<(), MemoryFault> {
        self.may_read(at)
    }

    fn read(&self, at: u32) -> Result<u8, MemoryFault> {
        self.bytes
            .get(at as usize)
            .copied()
            .ok_or(MemoryFault::own(Reason::Absent, at))
    }

    fn write(&mut self, at: u32, byte: u8) -> Result<(), MemoryFault> {
        let place = self
            .bytes
            .get_mut(at as usize)
            .ok_or(MemoryFault::own(Reason::Absent, at))?;
        *place = byte;
        Ok(())
    }
}
