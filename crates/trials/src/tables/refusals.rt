use super::{DONE, NO_LINE, Opened, Refused, Rig, Step, check_lines, numbers};
use fault::Fault;
use memory::{Beneath, FlatMemory, Memory, MemoryFault, Protected, Reason};
use runs::{Call, Reply};
use std::test::Fail;

// The scale's words at a channel for bytes.
static RIG: Rig = Rig {
    memory: 16,
    journal: 1,
    scale: 5,
    printer: 3,
    opened: &[Opened {
        channel: 5,
        address: 0,
        count: 0,
        mode: 0x0C,
    }],
};

static REFUSED: [Step; 42] = [
    (Call::ReadPort(0x18), Err((1, 0x18, 0))),
    (Call::WritePort(0x18, 0x18), Err((2, 0x18, 0))),
    (Call::ReadPort(0x40), Err((3, 0x40, 0))),
    (Call::ReadPort(0x1A), Err((3, 0x1A, 0))),
    (Call::WritePort(0x43, 0x14), DONE),
    (Call::WritePort(0x40, 1), Err((4, 0x40, 0))),
    (Call::Load(0x10), Err((5, 0x10, 3))),
    (Call::Store(0x10, 1), Err((5, 0x10, 3))),
    (Call::Store(4, 1), Err((6, 4, 2))),
    (Call::Store(9, 1), Err((6, 9, 1))),
    (Call::Load(9), Ok(Reply::Byte(0))),
    (Call::Arrive(3, 1), Err((9, 3, 0))),
    (Call::Arrive(15, 1), Err((10, 15, 0))),
    (Call::Arrive(255, 1), Err((10, 255, 0))),
    (Call::Load(0x100_0000), Err((10, 0x100_0000, 0))),
    (Call::Store(0x100_0000, 1), Err((10, 0x100_0000, 0))),
    (Call::Arrive(5, 0xABCD), DONE),
    (Call::Grant, Err((8, 5, 0))),
    (Call::ReadPort(0x90), Ok(Reply::Byte(0x65))),
    (Call::Grant, NO_LINE),
    // words, with the high byte at 10, at 4 and at 8
    (Call::WritePort(0x18, 0x75), DONE),
    (Call::WritePort(0x1A, 0x4C), DONE),
    (Call::WritePort(0x90, 0), DONE),
    (Call::WritePort(0x18, 0x25), DONE),
    (Call::WritePort(0x1A, 0x0F), DONE),
    (Call::Grant, Err((5, 0x10, 3))),
    (Call::ReadPort(0x90), Ok(Reply::Byte(0x65))),
    (Call::WritePort(0x90, 0), DONE),
    (Call::WritePort(0x18, 0x25), DONE),
    (Call::WritePort(0x1A, 3), DONE),
    (Call::Grant, Err((6, 4, 2))),
    (Call::WritePort(0x90, 0), DONE),
    (Call::WritePort(0x18, 0x25), DONE),
    (Call::WritePort(0x1A, 7), DONE),
    (Call::Grant, Err((6, 8, 1))),
    (Call::WritePort(0x90, 0), DONE),
    // no room, which comes before what memory says and after 10
    (Call::Store(0, 1), DONE),
    (Call::Store(1, 1), Err((7, 1, 0))),
    (Call::Store(4, 1), Err((7, 4, 0))),
    (Call::Store(0x100_0000, 1), Err((10, 0x100_0000, 0))),
    (Call::Grant, Err((7, 5, 0))),
    (Call::ReadPort(0x90), Ok(Reply::Byte(0x05))),
];

#[test]
fn refusals_1_to_10(rt: HostRuntime) -> Result<(), Fail> {
    check_lines(&rt, rt.alloc(), &RIG, &REFUSED, 1)
}

// What a write says.
fn write<M: Memory>(memory: &mut M, at: u32) -> Result<(), Refused> {
    memory
        .write(at, 1)
        .map_err(|fault| numbers(Fault::from(fault)))
}

// Past the end of the flat memory, and at 4 in the innermost protecting one.
fn layers(mut flat: FlatMemory) -> [Result<(), Refused>; 6] {
    let alone = write(&mut flat, 16);
    let mut one = Protected::new(flat, 4..5);
    let beneath_one = write(&mut one, 16);
    let outermost = write(&mut one, 4);
    let mut two = Protected::new(one, 6..7);
    let beneath_two = write(&mut two, 16);
    let second = write(&mut two, 4);
    let third = write(&mut Protected::new(two, 8..9), 4);
    [alone, beneath_one, beneath_two, outermost, second, third]
}

#[test]
fn layers_count_the_memories_above(rt: HostRuntime) -> Result<(), Fail> {
    let said = layers(FlatMemory::new(vec![in rt.alloc(); 0; 16]?));
    let wanted = [
        Err((5, 16, 1)),
        Err((5, 16, 2)),
        Err((5, 16, 3)),
        Err((6, 4, 1)),
        Err((6, 4, 2)),
        Err((6, 4, 3)),
    ];
    assert_eq!(rt; said, wanted);
    Ok(())
}

fn rise(above: u16) -> Refused {
    let mut fault = MemoryFault::own(Reason::Protected, 7);
    for _ in 0..above {
        fault = MemoryFault::from(Beneath(fault));
    }
    numbers(Fault::from(fault))
}

#[test]
fn layer_255_is_the_last(rt: HostRuntime) {
    for (above, layer) in [(0, 1), (1, 2), (253, 254), (254, 255), (300, 255)] {
        assert_eq!(rt; rise(above), (6, 7, layer));
    }
}
