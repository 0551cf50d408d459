ghost use Rattle.std.specs.Prelude.{◌≡◌, IfOk};
ghost use Rattle.memory.specs.Makes.{flat_meaning, protected_meaning};
ghost use Rattle.runs.specs.World.{opening};
ghost use Rattle.bench.specs.Machine.{world_of};
ghost use Rattle.bench.specs.Layout.{memory_of, rack_of, rack_meaning, laid_out, yard_world};

use crate::machine::Machine;
use crate::rig::Rig;
use board::Bus;
use memory::{FlatMemory, Memory, Protected};
use rack::{Pair, Rack, TicketPrinter, WeighingCard};
use runs::Performed;
use std::alloc::{AllocError, Global};

pub type YardMemory = Protected<FlatMemory>;

// Both scales, then the printer.
pub type YardRack = Pair<WeighingCard, Pair<WeighingCard, TicketPrinter>>;

// A card of this level stands nowhere.
// kept: a script may name a level above 14, at which a card stands nowhere: an Option would say the same a second way
const NO_LEVEL: u8 = 255;

// An unused board with its memory, rack and journal: no call is performed yet.
fn start<M: Memory + Drop, R: Rack + Drop>(
    heap: Global,
    mut memory: M,
    mut rack: R,
    mut journal: Vec<u64>,
) -> Result<(Machine<M, R>, Bus), AllocError>
    ensures { IfOk result (λ made. world_of M.Memory.meaning R.Rack.meaning made.0 ≡ opening (M.Memory.meaning memory) (R.Rack.meaning rack) journal.items) }
{
    let performed = runs::perform(heap, &mut memory, &mut rack, journal.as_mut_slice(), &[])?;
    let Performed {
        board,
        bus,
        answers: _,
    } = performed;
    Ok((
        Machine {
            board,
            memory,
            rack,
            journal,
        },
        bus,
    ))
}

impl Rig {
    fn make_memory(&self, heap: Global) -> Result<YardMemory, AllocError>
        ensures { IfOk result (λ m. protected_meaning flat_meaning m ≡ memory_of self.now) }
    {
        let length = self.memory.unwrap_or(65536) as usize;
        let bytes = vec![in heap; 0u8; length]?;
        let (lo, hi) = self.protect.unwrap_or((0, 0));
        Ok(Protected::new(FlatMemory::new(bytes), lo..hi))
    }

    fn make_rack(&self, heap: Global) -> Result<YardRack, AllocError>
        ensures { IfOk result (λ k. rack_meaning k ≡ rack_of self.now) }
    {
        let first = WeighingCard::new(heap, self.first_scale.unwrap_or(NO_LEVEL))?;
        let second = WeighingCard::new(heap, self.second_scale.unwrap_or(NO_LEVEL))?;
        let printer = TicketPrinter::new(heap, self.printer.unwrap_or(NO_LEVEL))?;
        Ok(Pair::new(first, Pair::new(second, printer)))
    }

    // The machine before its first call, and its bus.
    pub fn lay_out(&self, heap: Global) -> Result<(Machine<YardMemory, YardRack>, Bus), AllocError>
        ensures { IfOk result (λ made. yard_world made.0 ≡ laid_out self.now) }
    {
        let memory = self.make_memory(heap)?;
        let rack = self.make_rack(heap)?;
        let journal = vec![in heap; 0u64; self.journal.unwrap_or(4096) as usize]?;
        start(heap, memory, rack, journal)
    }
}
