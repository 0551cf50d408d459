ghost use Rattle.std.specs.Prelude.{◌≡◌};
ghost use Rattle.memory.specs.Makes.{Shields, guarded, protected_meaning};
ghost use Rattle.std.proofs.Common.{rules};

use crate::{Beneath, Memory, MemoryFault, Reason};
use std::ops::Range;

// Any memory, with a range of addresses that may not be written.
#[derive(Drop)]
pub struct Protected<M: Memory> {
    inner: M,
    range: Range<u32>,
}

impl<M: Memory> Protected<M> {
    pub fn new(inner: M, range: Range<u32>) -> Protected<M>
        ensures meaning { protected_meaning M.Memory.meaning result ≡ guarded (M.Memory.meaning inner) range.start range.end }
        ensures law { Shields (M.Memory.meaning inner) range.start range.end (protected_meaning M.Memory.meaning result) }
    {
        Protected { inner, range }
    }
}

impl<M: Memory> Memory for Protected<M> {
    ghost meaning = { protected_meaning M.Memory.meaning };

    ghost bytes = { Prim.search rules };

    fn may_read(&self, at: u32) -> Result<(), MemoryFault> {
        Ok(self.inner.may_read(at).map_err(Beneath)?)
    }

    fn may_write(&self, at: u32) -> Result<(), MemoryFault> {
        if self.range.contains(&at) {
            return Err(MemoryFault::own(Reason::Protected, at));
        }
        Ok(self.inner.may_write(at).map_err(Beneath)?)
    }

    fn read(&self, at: u32) -> Result<u8, MemoryFault> {
        Ok(self.inner.read(at).map_err(Beneath)?)
    }

    fn write(&mut self, at: u32, byte: u8) -> Result<(), MemoryFault> {
        if self.range.contains(&at) {
            return Err(MemoryFault::own(Reason::Protected, at));
        }
        Ok(self.inner.write(at, byte).map_err(Beneath)?)
    }
}
