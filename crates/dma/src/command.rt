ghost use Rattle.std.specs.Prelude.{◌≡◌};
ghost use Rattle.dma.specs.Commands.{channel_of, decided};

// Which way a byte goes: a function byte to port 0018, or a register's byte to or from port 001A.
#[derive(Clone, Copy)]
pub enum Direction {
    Function,
    Write,
    Read,
}

// One byte of a channel's registers.
#[derive(Clone, Copy)]
pub enum Part {
    IoLow,
    IoHigh,
    AddressLow,
    AddressMiddle,
    AddressHigh,
    CountLow,
    CountHigh,
    Mode,
    Level,
}

// What a byte under a function byte asks for.
#[derive(Clone, Copy)]
pub enum Action {
    // the function byte names a register for port 001A
    Select,
    SetMask,
    ClearMask,
    MasterClear,
    // the status byte of the channel's group
    Status,
    Register(Part),
}

// The channel of a function byte.
pub(crate) fn channel_of(function: u8) -> usize
    ensures { result ≡ channel_of function }
{
    usize::from(function % 8)
}

// What the function byte (command in bits 7-4, 0 in bit 3, channel in bits 2-0) asks for, by the way and the byte pointer.
pub fn decide(function: u8, direction: Direction, pointer: u8) -> Option<Action>
    ensures { result ≡ decided function direction pointer }
{
    let channel = channel_of(function);
    match (function / 16, direction, pointer) {
        _ if function / 8 % 2 == 1 => None,
        (0x0 | 0x2..=0x7, Direction::Function, _) => Some(Action::Select),
        (0x9, Direction::Function, _) => Some(Action::SetMask),
        (0xA, Direction::Function, _) => Some(Action::ClearMask),
        (0xD, Direction::Function, _) => Some(Action::MasterClear),
        (0x8, Direction::Function, _) if channel % 4 == 0 => Some(Action::Select),
        (0x9..=0xF, _, _) | (_, Direction::Function, _) => None,
        (0x8, _, _) if channel % 4 == 0 => Some(Action::Register(Part::Level)),
        (0x7, _, _) => Some(Action::Register(Part::Mode)),
        (0x6, Direction::Read, _) => Some(Action::Status),
        (0x0, _, 0) => Some(Action::Register(Part::IoLow)),
        (0x0, _, _) => Some(Action::Register(Part::IoHigh)),
        (0x2, Direction::Write, 0) | (0x3, Direction::Read, 0) => Some(Action::Register(
            Part::AddressLow,
        )),
        (0x2, Direction::Write, 1) | (0x3, Direction::Read, 1) => Some(Action::Register(
            Part::AddressMiddle,
        )),
        (0x2, Direction::Write, _) | (0x3, Direction::Read, _) => Some(Action::Register(
            Part::AddressHigh,
        )),
        (0x4, Direction::Write, 0) | (0x5, Direction::Read, 0) => Some(Action::Register(
            Part::CountLow,
        )),
        (0x4, Direction::Write, _) | (0x5, Direction::Read, _) => Some(Action::Register(
            Part::CountHigh,
        )),
        _ => None,
    }
}
