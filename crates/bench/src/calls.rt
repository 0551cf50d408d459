ghost use Rattle.std.specs.Prelude.{◌≡◌};
ghost use Rattle.runs.specs.World.{after, answer};
ghost use Rattle.bench.specs.Machine.{world_of};
ghost use Rattle.bench.specs.Calls.{call_of, shown_of, ticks, FoundLine, left_by, Answers};

use crate::machine::{Answer, Machine, Outcome};
use board::Bus;
use memory::Memory;
use rack::Rack;
use runs::{Call, perform_one};
use script::Entry;

// The answer of an entry that brings nothing.
const DONE: Answer = Answer {
    winner: None,
    outcome: Ok(Outcome::Done),
};

// The call that an entry is, but for ticks and the look-up.
// kept: neither Entry nor Call is of this crate, so From or TryFrom cannot stand here
fn call_of(entry: Entry) -> Option<Call>
    ensures { result ≡ call_of entry }
{
    match entry {
        Entry::In(port) => Some(Call::ReadPort(port)),
        Entry::Out(port, byte) => Some(Call::WritePort(port, byte)),
        Entry::Acknowledge => Some(Call::Acknowledge),
        Entry::Arrive(level, unit) => Some(Call::Arrive(level, unit)),
        Entry::Load(address) => Some(Call::Load(address)),
        Entry::Store(address, byte) => Some(Call::Store(address, byte)),
        Entry::Reset => Some(Call::Reset),
        Entry::Grant => Some(Call::Grant),
        _ => None,
    }
}

impl<M: Memory, R: Rack> Machine<M, R> {
    // One call of the bus.
    fn call(&mut self, bus: Bus, call: Call) -> (Bus, runs::Answer)
        ensures answer { result.1 ≡ answer (world_of M.Memory.meaning R.Rack.meaning self.old) call }
        ensures after { world_of M.Memory.meaning R.Rack.meaning self.new ≡ after (world_of M.Memory.meaning R.Rack.meaning self.old) call }
    {
        let journal = self.journal.as_mut_slice();
        perform_one(
            bus,
            &mut self.board,
            &mut self.memory,
            &mut self.rack,
            journal,
            call,
        )
    }

    fn tick(&mut self, mut bus: Bus, count: u32) -> Bus
        ensures { world_of M.Memory.meaning R.Rack.meaning self.new ≡ ticks count (world_of M.Memory.meaning R.Rack.meaning self.old) }
    {
        for _ in 0..count {
            let (next, _) = self.call(bus, Call::Tick);
            bus = next;
        }
        bus
    }

    // A call, and its answer as it is printed.
    fn call_shown(&mut self, bus: Bus, call: Call) -> (Bus, Answer)
        ensures answer { result.1 ≡ shown_of (world_of M.Memory.meaning R.Rack.meaning self.old) call }
        ensures after { world_of M.Memory.meaning R.Rack.meaning self.new ≡ after (world_of M.Memory.meaning R.Rack.meaning self.old) call }
    {
        let (bus, answer) = self.call(bus, call);
        let winner = match call {
            Call::Grant => Some(self.board.arbitration().winner),
            _ => None,
        };
        let word = self.words().last().copied();
        (bus, Answer::shown(answer, winner, word))
    }

    // Not inlined: within yard's loop it took twice the time.
    #[inline(never)]
    fn find(&self, address: u32) -> Answer
        ensures { FoundLine (world_of M.Memory.meaning R.Rack.meaning self.now) address result }
    {
        Answer::line(journal::find_writer(self.words(), address))
    }

    // Performs one entry of a script.
    pub fn perform(&mut self, bus: Bus, entry: Entry) -> (Bus, Answer)
        ensures answer { Answers (world_of M.Memory.meaning R.Rack.meaning self.old) entry result.1 }
        ensures after { world_of M.Memory.meaning R.Rack.meaning self.new ≡ left_by entry (world_of M.Memory.meaning R.Rack.meaning self.old) }
    {
        if let Some(call) = call_of(entry) {
            return self.call_shown(bus, call);
        }
        match entry {
            Entry::Tick(count) => (self.tick(bus, count), DONE),
            Entry::Find(address) => (bus, self.find(address)),
            _ => (bus, DONE),
        }
    }
}
