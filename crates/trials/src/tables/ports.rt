use super::{Refused, numbers};
use board::power_on;
use std::process::Abort;

// An unused board reads a port.
fn read(port: u16) -> Result<u8, Refused> {
    let (mut board, bus) = power_on();
    bus.read_port(&mut board, port).map_err(numbers)
}

// An unused board takes a byte, after a function byte.
fn write(rt: &impl Abort, function: u8, port: u16, byte: u8) -> Result<(), Refused> {
    let (mut board, bus) = power_on();
    assert_eq!(rt; bus.write_port(&mut board, 0x18, function), Ok(()));
    bus.write_port(&mut board, port, byte).map_err(numbers)
}

// What reading a port answers, and what writing 10 to a control port or 00 to any other does.
fn expected(port: u16) -> (Result<u8, Refused>, Result<(), Refused>) {
    let absent = (1, u32::from(port), 0);
    let unset = (3, u32::from(port), 0);
    match port {
        0x18 | 0x43 | 0x47 => (Err(absent), Ok(())),
        0x1A => (Ok(0), Ok(())),
        0x40 | 0x42 | 0x44 => (Err(unset), Err(unset)),
        0x61 => (Ok(0x20), Ok(())),
        0x90 => (Ok(0x0F), Ok(())),
        0x92 => (Ok(0), Err(absent)),
        _ => (Err(absent), Err(absent)),
    }
}

#[test]
fn every_port_both_ways(rt: HostRuntime) {
    for port in 0..=0xFFFFu16 {
        let byte = match port {
            0x43 | 0x47 => 0x10,
            _ => 0,
        };
        let (reading, writing) = expected(port);
        assert_eq!(rt; read(port), reading, "reading port {port}");
        assert_eq!(rt; write(&rt, 0, port, byte), writing, "writing port {port}");
    }
}

// Whether a port takes a byte after a function byte.
fn lists(function: u8, port: u16, byte: u8) -> bool {
    matches!(
        (port, function, byte),
        (0x18, _, 0x00..=0x07 | 0x20..=0x27 | 0x30..=0x37 | 0x40..=0x47 | 0x50..=0x57)
            | (0x18, _, 0x60..=0x67 | 0x70..=0x77 | 0x80 | 0x84 | 0x90..=0x97)
            | (0x18, _, 0xA0..=0xA7 | 0xD0..=0xD7)
            | (0x43, _, 0x10 | 0x14 | 0x16 | 0x20 | 0x24 | 0x26 | 0x30 | 0x34 | 0x36)
            | (0x43, _, 0x90 | 0x94 | 0x96 | 0xA0 | 0xA4 | 0xA6 | 0xB0 | 0xB4 | 0xB6)
            | (0x47, _, 0x10)
            | (0x1A, 0x73, 0x00 | 0x04 | 0x08 | 0x0C | 0x40 | 0x44 | 0x48 | 0x4C)
            | (0x1A, 0x84, 0..=14)
    )
}

// Each byte that is not listed is refused with 2.
#[test]
fn only_listed_bytes_are_taken(rt: HostRuntime) {
    for (function, port, number) in [
        (0, 0x18, 82usize),
        (0, 0x43, 18),
        (0, 0x47, 1),
        (0x73, 0x1A, 8),
        (0x84, 0x1A, 15),
    ] {
        for byte in 0..=0xFFu8 {
            let wanted = if lists(function, port, byte) {
                Ok(())
            } else {
                Err((2, u32::from(port), 0))
            };
            assert_eq!(rt; write(&rt, function, port, byte), wanted);
        }
        let listed = (0..=0xFFu8).filter(|byte| lists(function, port, *byte));
        assert_eq!(rt; listed.count(), number);
    }
}
