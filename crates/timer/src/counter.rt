// One counter of the timer, in its modes 0, 2 and 3.
ghost use Rattle.std.specs.Prelude.{◌≡◌, ◌≤◌, OnErr};
ghost use Rattle.timer.specs.Counting.{mode_number, access_bits, start, loaded, terminal, rate, square, counted, whole, falls_short, after_whole, out_at_byte, written, taken, took, stepped, answered, unset, start_out, set_up, reads_high, turned, read_answer, after_read, is_set_up, setting};
ghost use Rattle.timer.specs.Periods.{count_of};
ghost use Rattle.timer.specs.Sheet.{mode_from, access_from};

use fault::Refusal;

#[derive(Clone, Copy, Debug, PartialEq, Eq)]
pub enum Mode {
    // mode 0: OUT goes high at zero and stays
    TerminalCount,
    // mode 2: OUT goes low for one clock of each count
    RateGenerator,
    // mode 3: OUT is high for half of each count
    SquareWave,
}

// Which bytes of the count are written and read.
#[derive(Clone, Copy, Debug, PartialEq, Eq)]
pub enum Access {
    Low,
    High,
    LowThenHigh,
}

#[derive(Clone, Copy, Debug, PartialEq, Eq)]
pub enum Phase {
    // no control byte yet
    Unset,
    // no whole count yet
    Empty,
    // the next clock loads, whatever the gate
    First,
    // the gate rose: the next clock with the gate high loads
    Again,
    Running,
}

// kept: a rule of the project: a counter matches its mode and phase together with the event
#[derive(Clone, Copy)]
pub enum Event {
    // a clock, with the level of the gate
    Clock(bool),
    GateRise,
    GateFall,
    // a byte at the count port
    Byte(u8),
}

#[derive(Clone, Copy, Debug, PartialEq, Eq)]
pub struct Counter {
    // what a written 0 means, and what counting goes on modulo
    pub full: u32,
    pub mode: Mode,
    pub access: Access,
    pub phase: Phase,
    // the newest whole count
    pub newest: u32,
    pub standing: u32,
    // the load was odd
    pub odd: bool,
    pub out: bool,
    // the low byte of a half-done write
    pub half: Option<u8>,
    // the high byte is read next
    pub read_high: bool,
}

// What a look at a counter shows.
#[derive(Clone, Copy)]
pub struct Setting {
    pub mode: Mode,
    pub access: Access,
    pub standing: u32,
}

// The number of the mode in a control byte.
impl From<Mode> for u8 {
    ghost from_gives = { λ mode n. n ≡ mode_number mode };

    fn from(mode: Mode) -> u8 {
        match mode {
            Mode::TerminalCount => 0,
            Mode::RateGenerator => 2,
            Mode::SquareWave => 3,
        }
    }
}

impl TryFrom<u8> for Mode {
    type Error = Refusal;

    ghost try_from_gives = { λ n mode. mode ≡ mode_from n };

    fn try_from(n: u8) -> Result<Mode, Refusal> {
        match n {
            0 => Ok(Mode::TerminalCount),
            2 => Ok(Mode::RateGenerator),
            3 => Ok(Mode::SquareWave),
            _ => Err(Refusal::NotListed),
        }
    }
}

// Bits 5-4 of the control byte.
impl From<Access> for u8 {
    ghost from_gives = { λ access n. n ≡ access_bits access };

    fn from(access: Access) -> u8 {
        match access {
            Access::Low => 1,
            Access::High => 2,
            Access::LowThenHigh => 3,
        }
    }
}

impl TryFrom<u8> for Access {
    type Error = Refusal;

    ghost try_from_gives = { λ n access. access ≡ access_from n };

    fn try_from(n: u8) -> Result<Access, Refusal> {
        match n {
            1 => Ok(Access::Low),
            2 => Ok(Access::High),
            3 => Ok(Access::LowThenHigh),
            _ => Err(Refusal::NotListed),
        }
    }
}

impl Mode {
    // OUT as a control byte leaves it.
    pub(crate) fn start_out(self) -> bool
        ensures { result ≡ start_out self }
    {
        self != Mode::TerminalCount
    }

    // Where a load of the count starts: mode 3 counts even numbers only.
    fn start(self, count: u32) -> u32
        ensures { result ≡ start self count }
    {
        match self {
            Mode::TerminalCount | Mode::RateGenerator => count,
            Mode::SquareWave => count - count % 2,
        }
    }

    pub(crate) fn falls_short(self, count: u32) -> bool
        ensures { result ≡ falls_short self count }
    {
        self != Mode::TerminalCount && count == 1
    }

    // The phase after a whole count.
    fn after_whole(self, phase: Phase) -> Phase
        ensures { result ≡ after_whole self phase }
    {
        match (self, phase) {
            (Mode::TerminalCount, _) | (_, Phase::Empty) => Phase::First,
            _ => phase,
        }
    }

    // OUT after a count byte.
    fn out_at_byte(self, out: bool) -> bool
        ensures { result ≡ out_at_byte self out }
    {
        self != Mode::TerminalCount && out
    }
}

impl Access {
    // The count that its bytes make; a byte that is not written is 0.
    pub(crate) fn count(self, low: u8, high: u8) -> u32
        ensures value { result ≡ count_of self low high }
        ensures bound { result ≤ 65535 }
    {
        let bytes = match self {
            Access::Low => [low, 0],
            Access::High => [0, high],
            Access::LowThenHigh => [low, high],
        };
        u32::from(u16::from_le_bytes(bytes))
    }

    // The count that a byte makes whole, if it does.
    fn whole(self, half: Option<u8>, byte: u8) -> Option<u32>
        ensures { result ≡ whole self half byte }
    {
        match self {
            Access::Low | Access::High => Some(self.count(byte, byte)),
            Access::LowThenHigh => half.map(|low| self.count(low, byte)),
        }
    }
}

// What a written count means at a counter with that full count.
pub(crate) fn written(full: u32, count: u32) -> u32
    ensures { result ≡ written full count }
{
    if count == 0 { full } else { count }
}

impl Counter {
    // A counter at power-on.
    pub fn unset(full: u32, out: bool) -> Counter
        ensures { result ≡ unset full out }
    {
        Counter {
            full,
            mode: Mode::TerminalCount,
            access: Access::Low,
            phase: Phase::Unset,
            newest: 0,
            standing: 0,
            odd: false,
            out,
            half: None,
            read_high: false,
        }
    }

    // A control byte: what was counted, written or read by halves before is dropped.
    pub fn set_up(&mut self, mode: Mode, access: Access)
        ensures { self.new ≡ set_up self.old.full mode access }
    {
        *self = Counter {
            mode,
            access,
            phase: Phase::Empty,
            ..Counter::unset(self.full, mode.start_out())
        };
    }

    pub fn is_set_up(&self) -> bool
        ensures { result ≡ is_set_up self.now.phase }
    {
        self.phase != Phase::Unset
    }

    // None before a control byte.
    pub fn setting(&self) -> Option<Setting>
        ensures { result ≡ setting self.now }
    {
        self.is_set_up().then_some(Setting {
            mode: self.mode,
            access: self.access,
            standing: self.standing,
        })
    }

    fn load(&mut self)
        ensures { self.new ≡ loaded self.old self.old.out }
    {
        self.odd = self.newest % 2 == 1;
        self.standing = self.mode.start(self.newest);
        self.phase = Phase::Running;
    }

    // Mode 0.
    fn count_down(&mut self)
        ensures { self.new ≡ terminal self.old self.old.half }
    {
        if self.half.is_some() {
            return;
        }
        if self.standing == 1 {
            self.out = true;
        }
        self.standing = if self.standing == 0 {
            self.full.saturating_sub(1)
        } else {
            self.standing - 1
        };
    }

    // Mode 2.
    fn divide(&mut self)
        ensures { self.new ≡ rate self.old }
    {
        if self.standing <= 1 {
            self.out = true;
            self.load();
        } else {
            if self.standing == 2 {
                self.out = false;
            }
            self.standing -= 1;
        }
    }

    // Mode 3.
    fn halve(&mut self)
        ensures { self.new ≡ square self.old }
    {
        if self.standing > 2 {
            self.standing -= 2;
        } else if self.odd && self.out && self.standing > 0 {
            self.standing = 0;
        } else {
            self.out = !self.out;
            self.load();
        }
    }

    fn take(&mut self, byte: u8) -> Result<(), Refusal>
        ensures unaltered { OnErr result (self.new ≡ self.old) }
        ensures answer { result ≡ took self.old (whole self.old.access self.old.half byte) }
        ensures after { self.new ≡ taken self.old byte (whole self.old.access self.old.half byte) }
    {
        let Some(count) = self.access.whole(self.half, byte) else {
            self.half = Some(byte);
            self.out = self.mode.out_at_byte(self.out);
            return Ok(());
        };
        if self.mode.falls_short(count) {
            return Err(Refusal::CountOfOne);
        }
        self.phase = self.mode.after_whole(self.phase);
        self.out = self.mode.out_at_byte(self.out);
        self.newest = written(self.full, count);
        self.half = None;
        Ok(())
    }

    // One event. Only a byte can be refused, and then nothing changes.
    pub fn step(&mut self, event: Event) -> Result<(), Refusal>
        ensures answer { result ≡ answered self.old event }
        ensures after { self.new ≡ stepped self.old event }
        ensures unaltered { OnErr result (self.new ≡ self.old) }
    {
        match (self.mode, self.phase, event) {
            (_, Phase::Unset, Event::Byte(_)) => return Err(Refusal::WrongWay),
            (_, _, Event::Byte(byte)) => return self.take(byte),
            (_, Phase::Unset, _) | (_, Phase::Empty, Event::Clock(_)) => {}
            (_, Phase::First, Event::Clock(_)) | (_, Phase::Again, Event::Clock(true)) =>
                self.load(),
            (Mode::TerminalCount, Phase::Running, Event::Clock(true)) => self.count_down(),
            (Mode::RateGenerator, Phase::Running, Event::Clock(true)) => self.divide(),
            (Mode::SquareWave, Phase::Running, Event::Clock(true)) => self.halve(),
            (_, Phase::Again | Phase::Running, Event::Clock(false)) => {}
            (Mode::RateGenerator | Mode::SquareWave, Phase::Running, Event::GateRise) =>
                self.phase = Phase::Again,
            (Mode::RateGenerator | Mode::SquareWave, _, Event::GateFall) => self.out = true,
            (_, _, Event::GateRise | Event::GateFall) => {}
        }
        Ok(())
    }

    // A byte of the standing count.
    pub fn read(&mut self) -> Result<u8, Refusal>
        ensures answer { result ≡ read_answer self.old }
        ensures after { self.new ≡ after_read self.old }
    {
        if !self.is_set_up() {
            return Err(Refusal::WrongWay);
        }
        let [low, high, ..] = self.standing.to_le_bytes();
        let byte = match self.access {
            Access::Low => low,
            Access::High => high,
            Access::LowThenHigh => {
                self.read_high = !self.read_high;
                if self.read_high { low } else { high }
            }
        };
        Ok(byte)
    }
}
