#![tactic(auto)]

ghost use Rattle.std.specs.Prelude.{◌≡◌, ℕ, ◌<◌, Ok};
ghost use Rattle.memory.specs.Meaning.{Contents, refusal_of, read_answer, wrote, own_fault, risen, from_memory};

use fault::{Fault, Refusal};

mod flat;
mod protected;

pub use flat::FlatMemory;
pub use protected::Protected;

// Why a memory refuses.
#[derive(Clone, Copy, Debug, PartialEq, Eq)]
pub enum Reason {
    Absent,
    Protected,
}

impl From<Reason> for Refusal {
    ghost from_gives = { λ reason refusal. refusal ≡ refusal_of reason };

    fn from(reason: Reason) -> Refusal {
        match reason {
            Reason::Absent => Refusal::MemoryAbsent,
            Reason::Protected => Refusal::MemoryProtected,
        }
    }
}

// A memory's refusal: the address that the memory was asked about, and how deep that memory is.
// The memory that is asked is layer 1, each beneath it one more, 255 at most.
// kept: a rule of the project: a memory's fault rises by From, which of Fault<Reason> into Fault<Refusal> could not stand in this crate
#[derive(Clone, Copy, Debug, PartialEq, Eq)]
pub struct MemoryFault {
    pub reason: Reason,
    pub place: u32,
    pub layer: u8,
}

impl MemoryFault {
    // A fault of the memory that is asked.
    pub fn own(reason: Reason, place: u32) -> MemoryFault
        ensures { result ≡ own_fault reason place }
    {
        MemoryFault {
            reason,
            place,
            layer: 1,
        }
    }
}

// A fault of the memory beneath.
pub struct Beneath(pub MemoryFault);

impl From<Beneath> for MemoryFault {
    ghost from_gives = { λ b f. f ≡ risen b.0 };

    fn from(Beneath(fault): Beneath) -> MemoryFault {
        MemoryFault {
            reason: fault.reason,
            place: fault.place,
            layer: fault.layer.saturating_add(1),
        }
    }
}

impl From<MemoryFault> for Fault {
    ghost from_gives = { λ f r. r ≡ from_memory f };

    fn from(fault: MemoryFault) -> Fault {
        Fault {
            refusal: fault.reason.into(),
            place: fault.place,
            layer: fault.layer,
        }
    }
}

pub trait Memory {
    ghost meaning: { Self → Contents };

    fn may_read(&self, at: u32) -> Result<(), MemoryFault>
        ensures { result ≡ (meaning self.now).reads at };

    // What may be written may be read.
    fn may_write(&self, at: u32) -> Result<(), MemoryFault>
        ensures answer { result ≡ (meaning self.now).writes at }
        ensures readable { (meaning self.now).writes at ≡ Ok tt → (meaning self.now).reads at ≡ Ok tt };

    fn read(&self, at: u32) -> Result<u8, MemoryFault>
        ensures { result ≡ read_answer (meaning self.now) at };

    fn write(&mut self, at: u32, byte: u8) -> Result<(), MemoryFault>
        ensures answer { result ≡ (meaning self.old).writes at }
        ensures after { meaning self.new ≡ wrote (meaning self.old) at byte };

    ghost bytes: { (x : Self) (a : ℕ) → (meaning x).byte a < 256 };
}
