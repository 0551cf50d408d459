ghost use Rattle.std.specs.Prelude.{◌≡◌};
ghost use Rattle.std.specs.Option.{ok_or};
ghost use Rattle.fault.specs.declared.Refusal.TheVariants.{NoSuchPort};
ghost use Rattle.timer.specs.Timing.{control_answer, controlled};
ghost use Rattle.board.specs.Ports.{port_of, arbitration_byte, arbitration_written, masked_if, timed, tick_after, acknowledge_after, port61_written, at_port, done, port_written, port_read};
ghost use Rattle.board.specs.State.{with_arbitration};

use crate::{Arbitration, Board};
use fault::{Fault, Refusal};
use timer::CountPort;

// The ports that there are.
#[derive(Clone, Copy)]
pub enum Port {
    // 0018: function bytes for the DMA controller
    Function,
    // 001A: the bytes of the register that the function byte names
    Data,
    // 0040, 0042, 0044
    Count(CountPort),
    // 0043
    Control,
    // 0047
    WatchdogControl,
    // 0061
    SystemControlB,
    // 0090
    Arbiter,
    // 0092
    SystemControlA,
}

impl TryFrom<u16> for Port {
    type Error = Refusal;

    ghost try_from_gives = { λ port answer. answer ≡ ok_or (port_of port) NoSuchPort };

    fn try_from(port: u16) -> Result<Port, Refusal> {
        match port {
            0x18 => Ok(Port::Function),
            0x1A => Ok(Port::Data),
            0x40 => Ok(Port::Count(CountPort::System)),
            0x42 => Ok(Port::Count(CountPort::Speaker)),
            0x43 => Ok(Port::Control),
            0x44 => Ok(Port::Count(CountPort::Watchdog)),
            0x47 => Ok(Port::WatchdogControl),
            0x61 => Ok(Port::SystemControlB),
            0x90 => Ok(Port::Arbiter),
            0x92 => Ok(Port::SystemControlA),
            _ => Err(Refusal::NoSuchPort),
        }
    }
}

// What port 0090 reads.
impl From<Arbitration> for u8 {
    ghost from_gives = { λ arbitration byte. byte ≡ arbitration_byte arbitration };

    fn from(arbitration: Arbitration) -> u8 {
        128 * u8::from(arbitration.bit7)
            + 64 * u8::from(arbitration.mask)
            + 32 * u8::from(arbitration.timeout)
            + arbitration.winner % 16
    }
}

impl Arbitration {
    fn write(&mut self, byte: u8)
        ensures { self.new ≡ arbitration_written self.old byte }
    {
        self.bit7 = byte & 0x80 != 0;
        self.mask = byte & 0x40 != 0;
        self.timeout = byte & 0x40 != 0 && self.timeout;
    }
}

impl Board {
    // A rise of OUT 3 sets bit 6 of port 0090.
    fn note_rise(&mut self, rose: bool)
        ensures { self.new ≡ with_arbitration self.old (masked_if rose self.old.arbitration) }
    {
        self.arbitration.mask |= rose;
    }

    pub(crate) fn tick(&mut self)
        ensures { self.new ≡ tick_after self.old }
    {
        let rose = self.timers.tick();
        self.note_rise(rose);
    }

    // A byte to port 0043.
    fn write_control(&mut self, byte: u8) -> Result<(), Refusal>
        ensures answer { result ≡ done (control_answer self.old.timers byte) }
        ensures after { self.new ≡ timed self.old (controlled self.old.timers byte) }
    {
        let rose = self.timers.control(byte)?;
        self.note_rise(rose);
        Ok(())
    }

    // A byte to port 0061.
    fn write_system_control(&mut self, byte: u8)
        ensures { self.new ≡ port61_written self.old byte }
    {
        self.timers.set_gate(byte & 1 != 0);
        if byte & 0x80 != 0 {
            self.timers.acknowledge();
        }
        self.port61 = byte % 16;
    }

    // A byte to a port, or a refusal at it.
    pub(crate) fn write(&mut self, port: u16, byte: u8) -> Result<(), Refusal>
        ensures answer { at_port result port ≡ (port_written self.old port byte).answer }
        ensures after { self.new ≡ (port_written self.old port byte).board }
    {
        match Port::try_from(port)? {
            Port::Function => self.dma.write_function(&mut self.channels, byte),
            Port::Data => self.dma.write_data(&mut self.channels, byte),
            Port::Count(counter) => self.timers.write_count(counter, byte),
            Port::Control => self.write_control(byte),
            Port::WatchdogControl => self.timers.control_watchdog(byte),
            Port::SystemControlB => {
                self.write_system_control(byte);
                Ok(())
            }
            Port::Arbiter => {
                self.arbitration.write(byte);
                Ok(())
            }
            Port::SystemControlA => Err(Refusal::NoSuchPort),
        }
    }

    // What a port reads, or a refusal at it.
    pub(crate) fn read(&mut self, port: u16) -> Result<u8, Refusal>
        ensures answer { at_port result port ≡ (port_read self.old port).answer }
        ensures after { self.new ≡ (port_read self.old port).board }
    {
        match Port::try_from(port)? {
            Port::Data => self.dma.read_data(&self.channels),
            Port::Count(counter) => self.timers.read_count(counter),
            Port::SystemControlB => {
                Ok(32 * u8::from(self.timers.speaker.out) + self.port61 % 16)
            }
            Port::Arbiter => Ok(u8::from(self.arbitration)),
            Port::SystemControlA => Ok(16 * u8::from(self.timers.watchdog.out)),
            Port::Function | Port::Control | Port::WatchdogControl => Err(Refusal::NoSuchPort),
        }
    }
}
