ghost use Rattle.std.specs.Prelude.{◌≡◌, true};
ghost use Rattle.dma.specs.Readback.{ReadsBack};
ghost use Rattle.dma.specs.Registers.{part_of, with_part, takes_byte, next_pointer, cleared, selected, marked, with_status, all_masked, function_written, part_written, data_written, data_read};

use crate::command::channel_of;
use crate::{Action, Channel, Direction, Part, decide};
use fault::Refusal;
use std::mem;

// What the DMA controller keeps besides its channels.
#[derive(Clone, Copy, Debug, Default, PartialEq, Eq)]
pub struct Controller {
    pub function: u8,
    pub pointer: u8,
    // the last units and requests of channels 0-3, and of 4-7
    pub status: [u8; 2],
}

// What a status bit says of a channel.
#[derive(Clone, Copy)]
pub enum Mark {
    Last,
    Request,
}

impl Part {
    // Whether the byte is listed for that register.
    fn takes(self, byte: u8) -> bool
        ensures { result ≡ takes_byte self byte }
    {
        match self {
            Part::Mode => byte & 0xB3 == 0,
            Part::Level => byte <= 14,
            _ => true,
        }
    }

    fn next_pointer(self) -> u8
        ensures { result ≡ next_pointer self }
    {
        match self {
            Part::IoLow | Part::AddressLow | Part::CountLow => 1,
            Part::AddressMiddle => 2,
            _ => 0,
        }
    }
}

impl Channel {
    // One byte of the registers.
    pub fn read_part(&self, part: Part) -> u8
        ensures { result ≡ part_of part self.now }
    {
        match part {
            Part::IoLow => self.io.to_le_bytes()[0],
            Part::IoHigh => self.io.to_le_bytes()[1],
            Part::AddressLow => self.address.to_le_bytes()[0],
            Part::AddressMiddle => self.address.to_le_bytes()[1],
            Part::AddressHigh => self.address.to_le_bytes()[2],
            Part::CountLow => self.count.to_le_bytes()[0],
            Part::CountHigh => self.count.to_le_bytes()[1],
            Part::Mode => self.mode,
            Part::Level => self.level,
        }
    }

    // Puts one byte in, and leaves the register's others. With an address's high byte what lies above it goes.
    pub fn write_part(&mut self, part: Part, byte: u8)
        ensures { self.new ≡ with_part part self.old byte }
    {
        let Channel {
            address,
            count,
            io,
            ..
        } = *self;
        let [io_low, io_high] = io.to_le_bytes();
        let [low, middle, high, above] = address.to_le_bytes();
        let [count_low, count_high] = count.to_le_bytes();
        match part {
            Part::IoLow => self.io = u16::from_le_bytes([byte, io_high]),
            Part::IoHigh => self.io = u16::from_le_bytes([io_low, byte]),
            Part::AddressLow => self.address = u32::from_le_bytes([byte, middle, high, above]),
            Part::AddressMiddle => self.address = u32::from_le_bytes([low, byte, high, above]),
            Part::AddressHigh => self.address = u32::from_le_bytes([low, middle, byte, 0]),
            Part::CountLow => self.count = u16::from_le_bytes([byte, count_high]),
            Part::CountHigh => self.count = u16::from_le_bytes([count_low, byte]),
            Part::Mode => self.mode = byte,
            Part::Level => self.level = byte,
        }
    }
}

fn mask_all(channels: &mut [Channel; 8])
    ensures { channels.new ≡ all_masked channels.old }
{
    for channel in channels.iter_mut() {
        channel.set_mask(true);
    }
}

impl Controller {
    // The controller at power-on.
    pub fn cleared() -> Controller
        ensures { result ≡ cleared }
    {
        Controller::default()
    }

    fn select(&mut self, function: u8)
        ensures { self.new ≡ selected self.old function }
    {
        self.function = function;
        self.pointer = 0;
    }

    // A function byte to port 0018.
    pub fn write_function(&mut self, channels: &mut [Channel; 8], byte: u8) -> Result<(), Refusal>
        ensures answer { result ≡ (function_written self.old channels.old byte).answer }
        ensures controller { self.new ≡ (function_written self.old channels.old byte).controller }
        ensures channels { channels.new ≡ (function_written self.old channels.old byte).channels }
    {
        let channel = channel_of(byte);
        match decide(byte, Direction::Function, self.pointer) {
            Some(Action::Select) => self.select(byte),
            Some(Action::SetMask) => {
                channels[channel].set_mask(true);
                self.select(byte);
            }
            Some(Action::ClearMask) => {
                channels[channel].set_mask(false);
                self.select(byte);
            }
            Some(Action::MasterClear) => {
                mask_all(channels);
                *self = Controller::cleared();
            }
            _ => return Err(Refusal::NotListed),
        }
        Ok(())
    }

    fn write_register(
        &mut self,
        channels: &mut [Channel; 8],
        part: Part,
        byte: u8,
    ) -> Result<(), Refusal>
        ensures answer { result ≡ (part_written part self.old channels.old byte).answer }
        ensures controller { self.new ≡ (part_written part self.old channels.old byte).controller }
        ensures channels { channels.new ≡ (part_written part self.old channels.old byte).channels }
    {
        if !part.takes(byte) {
            return Err(Refusal::NotListed);
        }
        channels[channel_of(self.function)].write_part(part, byte);
        self.pointer = part.next_pointer();
        Ok(())
    }

    // A byte to port 001A. The law says that what is written so reads back.
    #[tactic(auto, using(crate::proofs::Readback::reads_back))]
    pub fn write_data(&mut self, channels: &mut [Channel; 8], byte: u8) -> Result<(), Refusal>
        ensures answer { result ≡ (data_written self.old channels.old byte).answer }
        ensures controller { self.new ≡ (data_written self.old channels.old byte).controller }
        ensures channels { channels.new ≡ (data_written self.old channels.old byte).channels }
        ensures law { ReadsBack }
    {
        match decide(self.function, Direction::Write, self.pointer) {
            Some(Action::Register(part)) => self.write_register(channels, part, byte),
            _ => Err(Refusal::WrongWay),
        }
    }

    // A byte from port 001A.
    pub fn read_data(&mut self, channels: &[Channel; 8]) -> Result<u8, Refusal>
        ensures answer { result ≡ (data_read self.old channels.now).answer }
        ensures controller { self.new ≡ (data_read self.old channels.now).controller }
    {
        let channel = channel_of(self.function);
        match decide(self.function, Direction::Read, self.pointer) {
            Some(Action::Register(part)) => {
                self.pointer = part.next_pointer();
                Ok(channels[channel].read_part(part))
            }
            Some(Action::Status) => {
                let status = mem::take(&mut self.status[channel / 4]);
                self.pointer = 0;
                Ok(status)
            }
            _ => Err(Refusal::WrongWay),
        }
    }

    // Sets a channel's bit in the status of its group.
    pub fn mark(&mut self, channel: u8, mark: Mark)
        ensures { self.new ≡ with_status self.old (marked self.old.status channel mark) }
    {
        let first = match mark {
            Mark::Last => 0,
            Mark::Request => 4,
        };
        self.status[usize::from(channel % 8 / 4)] |= 1 << (first + channel % 4);
    }
}
