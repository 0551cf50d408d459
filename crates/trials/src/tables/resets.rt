use super::{DONE, LINE, Opened, Rig, Step, run};
use board::{Arbitration, Registers, power_on};
use dma::{Channel, Controller};
use runs::{Call, Reply};
use std::test::Fail;
use timer::{Access, Counter, Mode, Phase, Timers};

// Channel 5 is open for the scale's last word; channel 3 is open at the printer, in the scale's mode.
static RIG: Rig = Rig {
    memory: 64,
    journal: 4,
    scale: 5,
    printer: 3,
    opened: &[
        Opened {
            channel: 5,
            address: 0x20,
            count: 0,
            mode: 0x4C,
        },
        Opened {
            channel: 3,
            address: 0,
            count: 0,
            mode: 0x4C,
        },
    ],
};

// A store, a last unit, a carry that fails, a watchdog one rise before its end, and an address, a count and a reading of a
// count left in the middle; then the reset.
static STEPS: [Step; 30] = [
    (Call::Store(0x10, 7), DONE),
    (Call::WritePort(0x18, 0x93), DONE),
    (Call::Arrive(5, 0x1234), DONE),
    (Call::Grant, LINE),
    (Call::WritePort(0x18, 0xA3), DONE),
    (Call::Grant, Err((8, 3, 0))),
    (Call::WritePort(0x90, 0xC0), DONE),
    (Call::ReadPort(0x90), Ok(Reply::Byte(0xE3))),
    (Call::WritePort(0x18, 0x80), DONE),
    (Call::WritePort(0x1A, 9), DONE),
    (Call::WritePort(0x18, 0x07), DONE),
    (Call::WritePort(0x1A, 0x55), DONE),
    (Call::WritePort(0x18, 0x22), DONE),
    (Call::WritePort(0x1A, 0x77), DONE),
    (Call::WritePort(0x47, 0x10), DONE),
    (Call::WritePort(0x44, 2), DONE),
    (Call::WritePort(0x43, 0x14), DONE),
    (Call::WritePort(0x40, 2), DONE),
    (Call::Tick, DONE),
    (Call::Tick, DONE),
    (Call::Tick, DONE),
    (Call::Tick, DONE),
    (Call::Tick, DONE),
    (Call::ReadPort(0x44), Ok(Reply::Byte(1))),
    (Call::ReadPort(0x92), Ok(Reply::Byte(0))),
    (Call::WritePort(0x43, 0xB6), DONE),
    (Call::WritePort(0x42, 0x34), DONE),
    (Call::ReadPort(0x42), Ok(Reply::Byte(0))),
    (Call::WritePort(0x61, 0x09), DONE),
    (Call::Reset, DONE),
];

// The timers before the reset.
fn timers_in_the_middle() -> Timers {
    let fresh = Timers::power_on();
    let system = Counter {
        mode: Mode::RateGenerator,
        phase: Phase::Running,
        newest: 2,
        standing: 2,
        ..fresh.system
    };
    let speaker = Counter {
        mode: Mode::SquareWave,
        access: Access::LowThenHigh,
        phase: Phase::Empty,
        half: Some(0x34),
        read_high: true,
        ..fresh.speaker
    };
    let watchdog = Counter {
        phase: Phase::Running,
        newest: 2,
        standing: 1,
        ..fresh.watchdog
    };
    Timers {
        system,
        speaker,
        watchdog,
        latch: true,
        gate: true,
    }
}

// The registers before the reset.
fn in_the_middle(unused: Registers) -> Registers {
    let mut channels = unused.channels;
    channels[0].level = 9;
    channels[2].address = 0x77;
    channels[3].mode = 0x4C;
    channels[3].masked = false;
    channels[5] = Channel {
        address: 0x22,
        count: 0xFFFF,
        mode: 0x4C,
        ..Channel::fresh(5)
    };
    channels[7].io = 0x55;
    Registers {
        channels,
        dma: Controller {
            function: 0x22,
            pointer: 1,
            status: [0x80, 0x22],
        },
        arbitration: Arbitration {
            bit7: true,
            mask: true,
            timeout: true,
            winner: 3,
        },
        timers: timers_in_the_middle(),
        port61: 9,
        lines: 2,
    }
}

#[test]
fn reset_clears_all_but_the_lines(rt: HostRuntime) -> Result<(), Fail> {
    let (board, _bus) = power_on();
    let unused = board.registers();
    let before = run(&rt, rt.alloc(), &RIG, &STEPS[0..29])?;
    assert_eq!(rt; before, in_the_middle(unused));
    let after = run(&rt, rt.alloc(), &RIG, &STEPS)?;
    assert_eq!(rt; after, Registers { lines: 2, ..unused });
    Ok(())
}
