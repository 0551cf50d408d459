use super::{DONE, NO_LINE, Rig, Step, check_lines, numbers};
use fault::Fault;
use journal::{Kind, Line, find_writer};
use runs::Call;
use std::alloc::{AllocError, Global};
use std::test::Fail;

// So many stores, one too many, and the processor's grant, which asks for no room.
fn stores(heap: Global, room: u32) -> Result<Vec<Step>, AllocError> {
    let mut steps = vec![in heap; (Call::Store(3, 7), DONE); room as usize]?;
    steps.push((Call::Store(3, 1), Err((7, 3, 0))))?;
    steps.push((Call::Grant, NO_LINE))?;
    Ok(steps)
}

#[test]
fn journals_fill_up(rt: HostRuntime) -> Result<(), Fail> {
    for (journal, room) in [(0, 0), (1, 1), (65_537, 65_536)] {
        let rig = Rig {
            memory: 4,
            journal,
            scale: 5,
            printer: 3,
            opened: &[],
        };
        let steps = stores(rt.alloc(), room)?;
        check_lines(&rt, rt.alloc(), &rig, &steps, room)?;
    }
    Ok(())
}

// A store at 0, a word of channel 5 at FFFFFF and 0, a last byte of channel 7, a verification.
static WORDS: [u64; 4] = [
    0x4078_0000_0000_0007,
    0x1B28_00FF_FFFF_1234,
    0x2EF0_00FF_FFFE_00FF,
    0x3000_0000_0009_0000,
];

// Words of kinds 0, 5 and 15; level 14 of a store and 15 of a unit; a byte of 256; a bit in the gap; a verification's unit.
static NO_LINES: [(u64, u32); 8] = [
    (0x0028_0000_0000_0000, 0),
    (0x5028_0000_0000_0000, 5),
    (0xFFFF_FFFF_FFFF_FFFF, 15),
    (0x4070_0000_0000_0007, 4),
    (0x2078_0000_0000_0007, 2),
    (0x1028_0000_0000_0100, 1),
    (0x1028_0100_0000_0000, 1),
    (0x3028_0000_0000_0001, 3),
];

fn repacked(word: u64) -> Result<u64, Fault> {
    Line::unpack(word)?.pack()
}

#[test]
fn words_are_lines_or_refused(rt: HostRuntime) {
    for word in WORDS {
        assert_eq!(rt; repacked(word), Ok(word));
    }
    for (word, kind) in NO_LINES {
        assert_eq!(rt; repacked(word).map_err(numbers), Err((12, kind, 0)));
    }
}

#[test]
fn spoiled_lines_do_not_pack(rt: HostRuntime) {
    let line = Line {
        kind: Kind::MemoryToCard,
        channel: 7,
        wide: false,
        last: true,
        level: 14,
        address: 0xFF_FFFE,
        unit: 0xFF,
    };
    assert_eq!(rt; line.pack(), Ok(WORDS[2]));
    assert_eq!(rt; Line::unpack(WORDS[2]), Ok(line));
    for spoiled in [
        Line { channel: 8, ..line },
        Line { level: 15, ..line },
        Line {
            address: 0x100_0000,
            ..line
        },
        Line {
            unit: 0x100,
            ..line
        },
    ] {
        assert_eq!(rt; spoiled.pack().map_err(numbers), Err((12, 2, 0)));
    }
}

#[test]
fn writers_are_found(rt: HostRuntime) {
    assert_eq!(rt; find_writer(&WORDS, 0xFF_FFFF), Ok(1));
    assert!(rt; find_writer(&WORDS, 0).is_ok());
    for (address, number) in [(0xFF_FFFE, 11), (9, 11), (1, 11), (0x100_0000, 10)] {
        let refused = find_writer(&WORDS, address).map_err(numbers);
        assert_eq!(rt; refused, Err((number, address, 0)));
    }
}
