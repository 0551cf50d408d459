use super::{DONE, LINE, Rig, check_lines, lay_rack, numbers};
use rack::{Kind, Rack, TicketPrinter, WeighingCard};
use runs::{Call, Reply};
use std::test::Fail;

// Whether a card shows at its own level alone or, if it does not stand, nowhere.
fn shows<R: Rack>(rack: &R, own: u8, stands: bool) -> bool {
    (0..=255u8).all(|level| {
        let shown = rack.summary(level).kind != Kind::Empty;
        shown == (stands && level == own)
    })
}

// A scale or a printer, the other being made for a level that there is not.
#[test]
fn cards_stand_at_levels_to_14(rt: HostRuntime) -> Result<(), Fail> {
    for (scale, printer, level) in [
        (0, 15, 0),
        (14, 15, 14),
        (15, 255, 15),
        (255, 15, 255),
        (255, 0, 0),
        (255, 14, 14),
    ] {
        let rack = lay_rack(rt.alloc(), scale, printer)?;
        assert!(rt; shows(&rack, level, level < 15), "{}", level);
    }
    Ok(())
}

// A channel whose level can be chosen carries its last unit from there.
#[test]
fn channels_0_and_4_serve_levels_0_and_14(rt: HostRuntime) -> Result<(), Fail> {
    for (channel, level) in [(0, 0), (0, 14), (4, 0), (4, 14)] {
        let rig = Rig {
            memory: 4,
            journal: 1,
            scale: level,
            printer: 15,
            opened: &[],
        };
        let steps = [
            (Call::WritePort(0x18, 0x80 | channel), DONE),
            (Call::WritePort(0x1A, level), DONE),
            (Call::ReadPort(0x1A), Ok(Reply::Byte(level))),
            (Call::WritePort(0x18, 0x70 | channel), DONE),
            (Call::WritePort(0x1A, 0x4C), DONE),
            (Call::WritePort(0x18, 0xA0 | channel), DONE),
            (Call::Arrive(level, 0x1234), DONE),
            (Call::Grant, LINE),
            (Call::ReadPort(0x90), Ok(Reply::Byte(level))),
            (Call::Load(0), Ok(Reply::Byte(0x34))),
            (Call::Load(1), Ok(Reply::Byte(0x12))),
            (Call::WritePort(0x18, 0x60 | channel), DONE),
            (Call::ReadPort(0x1A), Ok(Reply::Byte(0x11))),
            (Call::ReadPort(0x1A), Ok(Reply::Byte(0))),
        ];
        check_lines(&rt, rt.alloc(), &rig, &steps, 1)?;
    }
    Ok(())
}

// Of 600 units the first 512 are taken; after a give there is a place again.
#[test]
fn a_full_card_takes_again_after_a_give(rt: HostRuntime) -> Result<(), Fail> {
    let mut scale = WeighingCard::new(rt.alloc(), 5)?;
    for unit in 0..600u16 {
        let wanted = if unit < 512 { Ok(()) } else { Err((9, 5, 0)) };
        assert_eq!(rt; scale.arrive(5, unit).map_err(numbers), wanted);
    }
    assert_eq!(rt; scale.give(5), Ok(0));
    assert_eq!(rt; scale.arrive(5, 600), Ok(()));
    assert_eq!(rt; scale.waiting_unit(5, 511), Some(600));
    assert_eq!(rt; scale.summary(5).room, 0);
    Ok(())
}

// Of 2,100 bytes the first 2,048 are taken.
#[test]
fn printer_takes_2048(rt: HostRuntime) -> Result<(), Fail> {
    let mut printer = TicketPrinter::new(rt.alloc(), 3)?;
    assert_eq!(rt; printer.take(3, 256).map_err(numbers), Err((8, 3, 0)));
    for unit in 0..2100u16 {
        let wanted = if unit < 2048 { Ok(()) } else { Err((8, 3, 0)) };
        assert_eq!(rt; printer.take(3, unit % 256).map_err(numbers), wanted);
    }
    let full = printer.summary(3);
    assert_eq!(rt; printer.taken_unit(3, 2047), Some(255));
    assert_eq!(rt; (full.taken, full.room, full.line), (2048, 0, false));
    Ok(())
}
