ghost use Rattle.std.specs.Prelude.{◌≡◌};
ghost use Rattle.dma.specs.Channels.{stepped, with_mask};
ghost use Rattle.board.specs.State.{shown, started, was_reset, with_arbitration};

use dma::{Channel, Controller};
use timer::Timers;

// Port 0090: bits 7 to 5, and the level that won the bus last.
#[derive(Clone, Copy, Debug, PartialEq, Eq)]
pub struct Arbitration {
    // kept as written
    pub bit7: bool,
    // bit 6: the processor wins every grant
    pub mask: bool,
    // bit 5: a carry failed
    pub timeout: bool,
    // 15 for the processor
    pub winner: u8,
}

// The board's registers, and how many journal lines were put down.
#[derive(Drop)]
pub struct Board {
    pub(crate) channels: [Channel; 8],
    pub(crate) dma: Controller,
    pub(crate) arbitration: Arbitration,
    pub(crate) timers: Timers,
    // bits 3-0 of port 0061
    pub(crate) port61: u8,
    // kept: a rule of the project: the journal is a slice of the caller's, and its line count the board's, which a reset keeps
    pub(crate) lines: u32,
}

// All that a board holds, to be looked at.
// kept: a rule of the project: the channel records stand as a table in the plain Board; this is its copy to look at
#[derive(Clone, Copy, Debug, PartialEq, Eq)]
pub struct Registers {
    pub channels: [Channel; 8],
    pub dma: Controller,
    pub arbitration: Arbitration,
    pub timers: Timers,
    // bits 3-0 of port 0061
    pub port61: u8,
    pub lines: u32,
}

impl Board {
    // The power-on state, with that many lines put down.
    pub(crate) fn started(lines: u32) -> Board
        ensures { result ≡ started lines }
    {
        let channels = [0, 1, 2, 3, 4, 5, 6, 7].map(Channel::fresh);
        let arbitration = Arbitration {
            bit7: false,
            mask: false,
            timeout: false,
            winner: 15,
        };
        Board {
            channels,
            dma: Controller::cleared(),
            arbitration,
            timers: Timers::power_on(),
            port61: 0,
            lines,
        }
    }

    // kept: each of the six looks is public and stays beside the look at all
    pub fn channels(&self) -> [Channel; 8]
        ensures { result ≡ self.now.channels }
    {
        self.channels
    }

    pub fn dma(&self) -> Controller
        ensures { result ≡ self.now.dma }
    {
        self.dma
    }

    pub fn arbitration(&self) -> Arbitration
        ensures { result ≡ self.now.arbitration }
    {
        self.arbitration
    }

    pub fn timers(&self) -> Timers
        ensures { result ≡ self.now.timers }
    {
        self.timers
    }

    // Bits 3-0 of port 0061.
    pub fn port61(&self) -> u8
        ensures { result ≡ self.now.port61 }
    {
        self.port61
    }

    // The number of journal lines put down.
    pub fn lines(&self) -> u32
        ensures { result ≡ self.now.lines }
    {
        self.lines
    }

    // All registers together.
    pub fn registers(&self) -> Registers
        ensures { result ≡ shown self.now }
    {
        Registers {
            channels: self.channels,
            dma: self.dma,
            arbitration: self.arbitration,
            timers: self.timers,
            port61: self.port61,
            lines: self.lines,
        }
    }
}
