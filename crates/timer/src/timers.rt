// The three counters together: counter 0 (system), counter 2 (speaker) and counter 3 (watchdog), with the latch of
// interrupt 0 and the gate of counter 2.
ghost use Rattle.std.specs.Borrow.{sem};
ghost use Rattle.std.specs.Prelude.{◌≡◌, false, OnErr};
ghost use Rattle.timer.specs.Lending.{LendsCounter};
ghost use Rattle.timer.specs.Timing.{Apart, at_power_on, rises, out3_rises, followed, ticked, acknowledged, controlled, control_answer, watchdog_controlled, watchdog_answer, port_of, counter_at, count_written, write_answer, count_read, read_from, gated};

use crate::{Access, Counter, CounterName, Event, Mode, decode_control};
use fault::Refusal;

#[derive(Clone, Copy, Debug, PartialEq, Eq)]
pub struct Timers {
    pub system: Counter,
    pub speaker: Counter,
    pub watchdog: Counter,
    // interrupt 0, the gate of the watchdog
    pub latch: bool,
    // the gate of the speaker's counter
    pub gate: bool,
}

// The counter behind a count port.
#[derive(Clone, Copy)]
pub enum CountPort {
    // 0040
    System,
    // 0042
    Speaker,
    // 0044
    Watchdog,
}

impl From<CounterName> for CountPort {
    ghost from_gives = { λ name port. port ≡ port_of name };

    fn from(name: CounterName) -> CountPort {
        match name {
            CounterName::System => CountPort::System,
            CounterName::Speaker => CountPort::Speaker,
        }
    }
}

impl Timers {
    pub fn power_on() -> Timers
        ensures { result ≡ at_power_on }
    {
        Timers {
            system: Counter::unset(65536, true),
            speaker: Counter::unset(65536, true),
            watchdog: Counter::unset(256, false),
            latch: false,
            gate: false,
        }
    }

    // The counter behind that port.
    fn counter(&mut self, port: CountPort) -> &mut Counter
        ensures* lends { sem 𝓛 (LendsCounter self.entry port result) }
        ensures value { result.now ≡ counter_at self.old port }
    {
        match port {
            CountPort::System => &mut self.system,
            CountPort::Speaker => &mut self.speaker,
            CountPort::Watchdog => &mut self.watchdog,
        }
    }

    // Where OUT 0 has risen, clocks the watchdog under the latch and then sets the latch. True where OUT 3 rises.
    fn follow(&mut self, was: bool) -> bool
        ensures after { self.new ≡ followed was self.old }
        ensures answer { result ≡ out3_rises self.old self.new }
    {
        if was || !self.system.out {
            return false;
        }
        let before = self.watchdog.out;
        self.watchdog.step(Event::Clock(self.latch)).unwrap();
        self.latch = true;
        !before && self.watchdog.out
    }

    // Clocks counters 0 and 2. True where OUT 3 rises. Counter 3 hears of the others only by a rise of OUT 0.
    pub fn tick(&mut self) -> bool
        ensures after { self.new ≡ ticked self.old }
        ensures answer { result ≡ out3_rises self.old self.new }
        ensures apart { Apart self.old self.new }
    {
        let was = self.system.out;
        self.system.step(Event::Clock(true)).unwrap();
        self.speaker.step(Event::Clock(self.gate)).unwrap();
        self.follow(was)
    }

    pub fn acknowledge(&mut self)
        ensures { self.new ≡ acknowledged self.old }
    {
        self.latch = false;
    }

    // A byte to port 0043. Ok(true) where OUT 3 rises.
    pub fn control(&mut self, byte: u8) -> Result<bool, Refusal>
        ensures after { self.new ≡ controlled self.old byte }
        ensures answer { result ≡ control_answer self.old byte }
    {
        let control = decode_control(byte).ok_or(Refusal::NotListed)?;
        let was = self.system.out;
        self.counter(CountPort::from(control.counter))
            .set_up(control.mode, control.access);
        Ok(self.follow(was))
    }

    // A byte to port 0047, which takes 10 alone.
    pub fn control_watchdog(&mut self, byte: u8) -> Result<(), Refusal>
        ensures after { self.new ≡ watchdog_controlled self.old byte }
        ensures answer { result ≡ watchdog_answer byte }
    {
        if byte != 0x10 {
            return Err(Refusal::NotListed);
        }
        self.watchdog.set_up(Mode::TerminalCount, Access::Low);
        Ok(())
    }

    // A refused byte changes no counter.
    pub fn write_count(&mut self, port: CountPort, byte: u8) -> Result<(), Refusal>
        ensures after { self.new ≡ count_written self.old port byte }
        ensures answer { result ≡ write_answer self.old port byte }
        ensures unaltered { OnErr result (self.new ≡ self.old) }
    {
        self.counter(port).step(Event::Byte(byte))
    }

    pub fn read_count(&mut self, port: CountPort) -> Result<u8, Refusal>
        ensures after { self.new ≡ count_read self.old port }
        ensures answer { result ≡ read_from self.old port }
    {
        self.counter(port).read()
    }

    // Puts the gate of counter 2.
    pub fn set_gate(&mut self, gate: bool)
        ensures { self.new ≡ gated self.old gate }
    {
        match (self.gate, gate) {
            (false, true) => self.speaker.step(Event::GateRise).unwrap(),
            (true, false) => self.speaker.step(Event::GateFall).unwrap(),
            _ => {}
        }
        self.gate = gate;
    }
}
