ghost use Rattle.std.specs.Prelude.{◌≡◌, ℕ, ◌+◌, ◌%◌, ◌^◌, ◌<◌, true, false, cond};
ghost use Rattle.board.specs.Calls.{arrival_answer, arrival_after, loaded, stored, these_stored, cycled};
ghost use Rattle.board.specs.Carry.{these, carried};
ghost use Rattle.board.specs.Grant.{Arbitrated, Wins, Won, granted, requested, winner_of, serving};
ghost use Rattle.board.specs.Ports.{port_written, port_read, tick_after, acknowledge_after};
ghost use Rattle.board.specs.State.{unused, was_reset, with_dma};
ghost use Rattle.dma.specs.Registers.{with_status};

use crate::{Board, GrantedBus, Winner, put_down};
use dma::Mark;
use fault::{Fault, Refusal};
use journal::{Kind as LineKind, Line};
use memory::Memory;
use rack::Rack;

// The bus at rest, with the number of grants that it has seen, modulo 2^32.
pub struct Bus {
    pub(crate) grants: u32,
}

impl Drop for Bus {
    fn drop(self) {
        let Bus { grants: _ } = self;
    }
}

// A board that has had no call, and its bus. Nothing else makes a bus.
pub fn power_on() -> (Board, Bus)
    ensures board { result.0 ≡ unused }
    ensures bus { result.1.grants ≡ 0 }
{
    (Board::started(0), Bus { grants: 0 })
}

impl Board {
    // Sets the request bit of each channel whose level's line is up.
    #[tactic(auto, unfolding(crate::specs::Grant::requested))]
    fn request<R: Rack>(&mut self, rack: &R)
        ensures { self.new ≡ with_dma self.old (with_status self.old.dma (requested self.old (R.Rack.meaning rack.now) 8)) }
    {
        let Board { channels, dma, .. } = self;
        for (channel, registers) in channels.iter().enumerate() {
            if rack.summary(registers.level).line {
                dma.mark(channel as u8, Mark::Request);
            }
        }
    }

    // The lowest level whose line is up and that has an open channel, with its lowest open channel.
    // kept: a rule of the project: arbitration breaks out of labelled loops over the levels and, within, the channels
    #[tactic(auto, using(crate::proofs::Arbitrating::wins, crate::proofs::Searched::passed, crate::proofs::Searched::none_won))]
    fn arbitrate<R: Rack>(&self, rack: &R) -> Option<Winner>
        ensures winner { Won self.now (R.Rack.meaning rack.now) result }
        ensures wins { Wins self.now (R.Rack.meaning rack.now) (winner_of self.now (R.Rack.meaning rack.now)) (serving self.now (winner_of self.now (R.Rack.meaning rack.now))) }
    {
        'won: {
            for level in 0u8..15 {
                if rack.summary(level).line {
                    for (channel, registers) in self.channels.iter().enumerate() {
                        if !registers.masked && registers.level == level {
                            let channel = channel as u8;
                            break 'won Some(Winner { level, channel });
                        }
                    }
                }
            }
            None
        }
    }
}

impl Bus {
    // The number of grants so far, modulo 2^32.
    pub fn grants(&self) -> u32
        ensures { result ≡ self.now.grants }
    {
        self.grants
    }

    pub fn read_port(&self, board: &mut Board, port: u16) -> Result<u8, Fault>
        ensures answer { result ≡ (port_read board.old port).answer }
        ensures after { board.new ≡ (port_read board.old port).board }
    {
        board
            .read(port)
            .map_err(|refusal| Fault::own(refusal, u32::from(port)))
    }

    pub fn write_port(&self, board: &mut Board, port: u16, byte: u8) -> Result<(), Fault>
        ensures answer { result ≡ (port_written board.old port byte).answer }
        ensures after { board.new ≡ (port_written board.old port byte).board }
    {
        board
            .write(port, byte)
            .map_err(|refusal| Fault::own(refusal, u32::from(port)))
    }

    // One tick of the timers' clock.
    pub fn tick(&self, board: &mut Board)
        ensures { board.new ≡ tick_after board.old }
    {
        board.tick();
    }

    // Interrupt 0 is acknowledged.
    pub fn acknowledge(&self, board: &mut Board)
        ensures { board.new ≡ acknowledge_after board.old }
    {
        board.timers.acknowledge();
    }

    // A unit comes to a card from outside.
    pub fn arrive<R: Rack>(&self, rack: &mut R, level: u8, unit: u16) -> Result<(), Fault>
        ensures answer { result ≡ arrival_answer (R.Rack.meaning rack.old) level unit }
        ensures after { R.Rack.meaning rack.new ≡ arrival_after (R.Rack.meaning rack.old) level unit }
    {
        if level > 14 {
            return Err(Fault::own(Refusal::TooLarge, u32::from(level)));
        }
        rack.arrive(level, unit)
    }

    // The processor loads a byte.
    pub fn load<M: Memory>(&self, memory: &M, address: u32) -> Result<u8, Fault>
        ensures { result ≡ loaded (M.Memory.meaning memory.now) address }
    {
        journal::check_address(address)?;
        Ok(memory.read(address)?)
    }

    // The processor stores a byte, and a line of it is put down.
    // kept: the references, as at carry
    pub fn store<M: Memory>(
        &self,
        board: &mut Board,
        memory: &mut M,
        journal: &mut [u64],
        address: u32,
        byte: u8,
    ) -> Result<(), Fault>
        ensures { these_stored board.new (M.Memory.meaning memory.new) journal.new result ≡ stored board.old (M.Memory.meaning memory.old) journal.old address byte }
    {
        journal::check_address(address)?;
        if journal::is_full(board.lines, journal.len()) {
            return Err(Fault::own(Refusal::JournalFull, address));
        }
        memory.write(address, byte)?;
        let line = Line {
            kind: LineKind::Store,
            channel: 0,
            wide: false,
            last: false,
            level: 15,
            address,
            unit: u16::from(byte),
        };
        put_down(journal, board.lines, line);
        board.lines += 1;
        Ok(())
    }

    // The power-on state again; the line count stays.
    pub fn reset(&self, board: &mut Board)
        ensures { board.new ≡ was_reset board.old }
    {
        *board = Board::started(board.lines);
    }

    // The processor or the winning level takes the bus.
    pub fn grant<R: Rack>(self, board: &mut Board, rack: &R) -> GrantedBus
        ensures board { board.new ≡ (granted board.old (R.Rack.meaning rack.now)).board }
        ensures level { result.level ≡ (granted board.old (R.Rack.meaning rack.now)).level }
        ensures channel { result.channel ≡ (granted board.old (R.Rack.meaning rack.now)).channel }
        ensures bus { (result.grants ≡ (self.grants + 1) % 2 ^ 32) × (result.spent ≡ false) }
        ensures law { Arbitrated board.old (R.Rack.meaning rack.now) (granted board.old (R.Rack.meaning rack.now)) }
    {
        let Bus { grants } = self;
        let winner = if board.arbitration.mask {
            None
        } else {
            let winner = board.arbitrate(rack);
            board.request(rack);
            winner
        };
        // kept: a rule of the project: a granted bus has plain numbers, 15 for the processor
        let (level, channel) = winner.map_or((15, 0), |winner| (winner.level, winner.channel));
        board.arbitration.winner = level;
        GrantedBus {
            grants: grants.wrapping_add(1),
            level,
            channel,
            spent: false,
        }
    }
}

// Grants the bus and carries at once.
// kept: the four references, as at carry
pub fn cycle<M: Memory, R: Rack>(
    bus: Bus,
    board: &mut Board,
    memory: &mut M,
    rack: &mut R,
    journal: &mut [u64],
) -> (Bus, Result<bool, Fault>)
    ensures outcome { these board.new (M.Memory.meaning memory.new) (R.Rack.meaning rack.new) journal.new result.1 ≡ cycled board.old (M.Memory.meaning memory.old) (R.Rack.meaning rack.old) journal.old }
    ensures bus { result.0.grants ≡ (bus.grants + 1) % 2 ^ 32 }
{
    let granted = bus.grant(board, rack);
    granted.carry(board, memory, rack, journal)
}
