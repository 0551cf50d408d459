// The entries of a script, performed on a machine and printed.

use crate::reading::Step;
use crate::sums::write_accounts;
use crate::views::{write_level, write_lines, write_state};
use bench::{Counts, Machine};
use board::Bus;
use memory::Memory;
use rack::Rack;
use script::Entry;
use std::io;
use std::io::Write;

// A machine that plays a script, and where it prints.
#[derive(Drop)]
struct Player<W: Write + Drop, M: Memory + Drop, R: Rack + Drop> {
    out: W,
    machine: Machine<M, R>,
    counts: Counts,
}

impl<W: Write + Drop, M: Memory + Drop, R: Rack + Drop> Player<W, M, R> {
    // Performs a call and prints it.
    fn call(&mut self, bus: Bus, step: &Step) -> io::Result<Bus> {
        let (bus, answer) = self.machine.perform(bus, step.entry);
        self.counts.count(step.entry, answer);
        writeln!(self.out, "{}: {answer}", step.line)?;
        Ok(bus)
    }

    // Plays one entry: a view or a call. What lays out the rig was taken before.
    fn play_step(&mut self, bus: Bus, step: &Step) -> io::Result<Bus> {
        if script::is_rig(step.entry) {
            return Ok(bus);
        }
        match step.entry {
            Entry::State => write_state(&mut self.out, &self.machine.board.registers())?,
            Entry::Level(level) => write_level(&mut self.out, &self.machine.rack, level)?,
            Entry::Lines => write_lines(&mut self.out, self.machine.words())?,
            _ => return self.call(bus, step),
        }
        Ok(bus)
    }
}

// Plays the entries on a machine before its first call, and closes with the accounts.
pub(crate) fn play<W: Write + Drop, M: Memory + Drop, R: Rack + Drop>(
    out: W,
    steps: &[Step],
    machine: Machine<M, R>,
    mut bus: Bus,
) -> io::Result<()> {
    let mut player = Player {
        out,
        machine,
        counts: Counts::new(),
    };
    for step in steps {
        bus = player.play_step(bus, step)?;
    }
    write_accounts(&mut player.out, &player.counts, &player.machine)?;
    player.out.flush()
}
