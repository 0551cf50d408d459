#![tactic(auto)]

ghost use Rattle.std.specs.Prelude.{◌≡◌, ℕ, List, [], ◌∷◌, ◌++◌, IfOk, OnErr, OnOk};
ghost use Rattle.memory.specs.Meaning.{Contents};
ghost use Rattle.rack.specs.Meaning.{Levels};
ghost use Rattle.runs.specs.World.{World, world, opening, after, answer, run};
ghost use Rattle.runs.specs.Examples.{CountMet, StopMet, start, programmed, three_grants};
ghost use Rattle.runs.specs.Law.{Answered, GoesOn, RunLaw};

use board::{Board, Bus, cycle, power_on};
use fault::Fault;
use memory::Memory;
use rack::Rack;
use std::alloc::{AllocError, Global};

// A call of the bus; a grant goes with its carry.
#[derive(Clone, Copy)]
pub enum Call {
    ReadPort(u16),
    WritePort(u16, u8),
    Tick,
    Acknowledge,
    // a level and a unit
    Arrive(u8, u16),
    Load(u32),
    Store(u32, u8),
    Reset,
    Grant,
}

// What a call brings if it is accepted.
#[derive(Clone, Copy, Debug, PartialEq, Eq)]
pub enum Reply {
    Done,
    Byte(u8),
    // whether a line was put down
    Carried(bool),
}

// What a call is answered.
pub type Answer = Result<Reply, Fault>;

// A board after its first calls, its bus, and what the calls were answered.
#[derive(Drop)]
pub struct Performed {
    pub board: Board,
    pub bus: Bus,
    pub answers: Vec<Answer>,
}

// One call.
// kept: a struct of the four references would owe in each contract that each field still holds the same reference
// kept: tried perform_one in its place: the law stayed open at each of nine returns
#[tactic(auto, using(crate::proofs::Answering::byte_stays), unfolding(crate::specs::World::after, crate::specs::World::answer))]
fn act<M: Memory, R: Rack>(
    bus: Bus,
    board: &mut Board,
    memory: &mut M,
    rack: &mut R,
    journal: &mut [u64],
    call: Call,
) -> (Bus, Answer)
    ensures answered { result.1 ≡ answer (world board.old (M.Memory.meaning memory.old) (R.Rack.meaning rack.old) journal.old) call }
    ensures left { world board.new (M.Memory.meaning memory.new) (R.Rack.meaning rack.new) journal.new ≡ after (world board.old (M.Memory.meaning memory.old) (R.Rack.meaning rack.old) journal.old) call }
{
    let answer = match call {
        Call::ReadPort(port) => bus.read_port(board, port).map(Reply::Byte),
        Call::WritePort(port, byte) => bus.write_port(board, port, byte).map(|()| Reply::Done),
        Call::Tick => {
            bus.tick(board);
            Ok(Reply::Done)
        }
        Call::Acknowledge => {
            bus.acknowledge(board);
            Ok(Reply::Done)
        }
        Call::Arrive(level, unit) => bus.arrive(rack, level, unit).map(|()| Reply::Done),
        Call::Load(address) => bus.load(memory, address).map(Reply::Byte),
        Call::Store(address, byte) => bus
            .store(board, memory, journal, address, byte)
            .map(|()| Reply::Done),
        Call::Reset => {
            bus.reset(board);
            Ok(Reply::Done)
        }
        Call::Grant => {
            let (bus, result) = cycle(bus, board, memory, rack, journal);
            return (bus, result.map(Reply::Carried));
        }
    };
    (bus, answer)
}

// Performs one call on a board in use. Whatever list of calls has led to its board, memory, rack and journal from an
// unused board, the law over runs holds of that list followed by this call.
// kept: the references, as at act
pub fn perform_one<M: Memory, R: Rack>(
    bus: Bus,
    board: &mut Board,
    memory: &mut M,
    rack: &mut R,
    journal: &mut [u64],
    call: Call,
) -> (Bus, Answer)
    ensures answered { result.1 ≡ answer (world board.old (M.Memory.meaning memory.old) (R.Rack.meaning rack.old) journal.old) call }
    ensures left { world board.new (M.Memory.meaning memory.new) (R.Rack.meaning rack.new) journal.new ≡ after (world board.old (M.Memory.meaning memory.old) (R.Rack.meaning rack.old) journal.old) call }
    ensures law { GoesOn (world board.old (M.Memory.meaning memory.old) (R.Rack.meaning rack.old) journal.old) (call ∷ []) (world board.new (M.Memory.meaning memory.new) (R.Rack.meaning rack.new) journal.new) }
{
    act(bus, board, memory, rack, journal, call)
}

// Performs the calls in turn on a board in use. Whatever list of calls has led to its board, memory, rack and journal
// from an unused board, the law over runs holds of that list followed by this one. Without memory for the answers
// nothing is performed.
// kept: as at act; a struct that owned the four would ask the caller for an owned journal
pub fn go_on<M: Memory, R: Rack>(
    heap: Global,
    mut bus: Bus,
    board: &mut Board,
    memory: &mut M,
    rack: &mut R,
    journal: &mut [u64],
    calls: &[Call],
) -> (Bus, Result<Vec<Answer>, AllocError>)
    ensures reached { OnOk result.1 (world board.new (M.Memory.meaning memory.new) (R.Rack.meaning rack.new) journal.new ≡ run (world board.old (M.Memory.meaning memory.old) (R.Rack.meaning rack.old) journal.old) calls.now) }
    ensures answered { IfOk result.1 (λ v. Answered (world board.old (M.Memory.meaning memory.old) (R.Rack.meaning rack.old) journal.old) calls.now v.items) }
    ensures law { OnOk result.1 (GoesOn (world board.old (M.Memory.meaning memory.old) (R.Rack.meaning rack.old) journal.old) calls.now (world board.new (M.Memory.meaning memory.new) (R.Rack.meaning rack.new) journal.new)) }
    ensures unaltered { OnErr result.1 (world board.new (M.Memory.meaning memory.new) (R.Rack.meaning rack.new) journal.new ≡ world board.old (M.Memory.meaning memory.old) (R.Rack.meaning rack.old) journal.old) }
{
    // kept: `?` would not hand the bus back
    let mut answers = match Vec::with_capacity(heap, calls.len()) {
        Ok(answers) => answers,
        Err(error) => return (bus, Err(error)),
    };
    for call in calls {
        let (next, answer) = act(bus, board, memory, rack, journal, *call);
        bus = next;
        answers.push_reserved(answer);
    }
    (bus, Ok(answers))
}

// Performs the calls in turn from an unused board. The law over runs holds of every list of calls, over every memory,
// rack and journal: posting, counts and stop.
// kept: the references, as at go_on
pub fn perform<M: Memory, R: Rack>(
    heap: Global,
    memory: &mut M,
    rack: &mut R,
    journal: &mut [u64],
    calls: &[Call],
) -> Result<Performed, AllocError>
    ensures reached { IfOk result (λ p. world p.board (M.Memory.meaning memory.new) (R.Rack.meaning rack.new) journal.new ≡ run (opening (M.Memory.meaning memory.old) (R.Rack.meaning rack.old) journal.old) calls.now) }
    ensures answered { IfOk result (λ p. Answered (opening (M.Memory.meaning memory.old) (R.Rack.meaning rack.old) journal.old) calls.now p.answers.items) }
    ensures law { IfOk result (λ p. RunLaw (opening (M.Memory.meaning memory.old) (R.Rack.meaning rack.old) journal.old) calls.now (world p.board (M.Memory.meaning memory.new) (R.Rack.meaning rack.new) journal.new)) }
    ensures unaltered { OnErr result (opening (M.Memory.meaning memory.new) (R.Rack.meaning rack.new) journal.new ≡ opening (M.Memory.meaning memory.old) (R.Rack.meaning rack.old) journal.old) }
{
    let (mut board, bus) = power_on();
    let (bus, result) = go_on(heap, bus, &mut board, memory, rack, journal, calls);
    Ok(Performed {
        board,
        bus,
        answers: result?,
    })
}

// The law's premises can be met: small runs, computed. The answer is the number of lines that the first of them puts down.
#[tactic(auto, using(crate::proofs::Computed::small_runs))]
pub fn examples_stand() -> u32
    ensures count { CountMet }
    ensures stop { StopMet }
    ensures lines { (run start (programmed ++ three_grants)).board.lines ≡ result }
{
    2
}
