use super::{DONE, LINE, Opened, Rig, Step, check_lines};
use runs::{Call, Reply};
use std::test::Fail;

// The scale's words go to FFFFFF.
static WHOLE: Rig = Rig {
    memory: 0x100_0000,
    journal: 2,
    scale: 5,
    printer: 3,
    opened: &[Opened {
        channel: 5,
        address: 0xFF_FFFF,
        count: 3,
        mode: 0x4C,
    }],
};

static AROUND: [Step; 11] = [
    (Call::Arrive(5, 0xABCD), DONE),
    (Call::Grant, LINE),
    (Call::Load(0xFF_FFFF), Ok(Reply::Byte(0xCD))),
    (Call::Load(0), Ok(Reply::Byte(0xAB))),
    (Call::Load(1), Ok(Reply::Byte(0))),
    (Call::WritePort(0x18, 0x35), DONE),
    (Call::ReadPort(0x1A), Ok(Reply::Byte(1))),
    (Call::ReadPort(0x1A), Ok(Reply::Byte(0))),
    (Call::ReadPort(0x1A), Ok(Reply::Byte(0))),
    (Call::Store(0xFF_FFFF, 9), DONE),
    (Call::Load(0xFF_FFFF), Ok(Reply::Byte(9))),
];

// The printer is sent what stands from 0 on.
static ONE_BYTE: Rig = Rig {
    memory: 1,
    journal: 4,
    scale: 5,
    printer: 3,
    opened: &[Opened {
        channel: 3,
        address: 0,
        count: 9,
        mode: 0x04,
    }],
};

static PAST_IT: [Step; 8] = [
    (Call::Store(0, 0x41), DONE),
    (Call::Load(0), Ok(Reply::Byte(0x41))),
    (Call::Load(1), Err((5, 1, 3))),
    (Call::Store(1, 0x41), Err((5, 1, 3))),
    (Call::Grant, LINE),
    (Call::Grant, Err((5, 1, 3))),
    (Call::ReadPort(0x90), Ok(Reply::Byte(0x63))),
    (Call::Load(0), Ok(Reply::Byte(0x41))),
];

#[test]
fn both_ends_of_memory(rt: HostRuntime) -> Result<(), Fail> {
    check_lines(&rt, rt.alloc(), &WHOLE, &AROUND, 2)?;
    check_lines(&rt, rt.alloc(), &ONE_BYTE, &PAST_IT, 2)
}
