// What calls answer, with their refusals in numbers, and boards on which steps are played.
use board::{Board, Bus, Registers, power_on};
use fault::Fault;
use memory::{FlatMemory, Memory, Protected};
use rack::{Pair, Rack, TicketPrinter, WeighingCard};
use runs::{Call, Reply, perform_one};
use std::alloc::{AllocError, Global};
use std::process::Abort;
use std::test::Fail;

mod addresses;
mod cards;
mod journals;
mod ports;
mod refusals;
mod resets;

// A refusal's number, its place and its layer.
// kept: the tables name a refusal by its number, as docs/MACHINE.md does, so that the numbers are tried too
type Refused = (u8, u32, u8);

// A call and the answer that it has to have.
type Step = (Call, Result<Reply, Refused>);

const DONE: Result<Reply, Refused> = Ok(Reply::Done);

// A carry that puts a line down.
const LINE: Result<Reply, Refused> = Ok(Reply::Carried(true));

const NO_LINE: Result<Reply, Refused> = Ok(Reply::Carried(false));

fn numbers(fault: Fault) -> Refused {
    (u8::from(fault.refusal), fault.place, fault.layer)
}

// Performs the steps in turn, up to the first that is answered otherwise; the registers after them.
fn play<M: Memory, R: Rack>(
    rt: &impl Abort,
    mut bus: Bus,
    mut board: Board,
    memory: &mut M,
    rack: &mut R,
    journal: &mut [u64],
    steps: &[Step],
) -> Registers {
    for (place, (call, wanted)) in steps.iter().enumerate() {
        let (next, answer) = perform_one(bus, &mut board, memory, rack, journal, *call);
        bus = next;
        assert_eq!(rt; answer.map_err(numbers), *wanted, "step {place}");
    }
    board.registers()
}

// A channel that is set up and opened at first.
#[derive(Clone, Copy)]
struct Opened {
    channel: u8,
    address: u32,
    count: u16,
    mode: u8,
}

// The lengths of memory and journal, the levels of a scale and a printer.
// The memory is flat; over it bytes 4 and 5 are protected, and over that 8 and 9.
#[derive(Clone, Copy)]
struct Rig {
    memory: usize,
    journal: usize,
    scale: u8,
    printer: u8,
    opened: &'static [Opened],
}

fn open_channel(rt: &impl Abort, bus: &Bus, board: &mut Board, opened: Opened) {
    let Opened {
        channel,
        address,
        count,
        mode,
    } = opened;
    let [low, middle, high, _] = address.to_le_bytes();
    let [count_low, count_high] = count.to_le_bytes();
    for (port, byte) in [
        (0x18, 0x20 | channel),
        (0x1A, low),
        (0x1A, middle),
        (0x1A, high),
        (0x18, 0x40 | channel),
        (0x1A, count_low),
        (0x1A, count_high),
        (0x18, 0x70 | channel),
        (0x1A, mode),
        (0x18, 0xA0 | channel),
    ] {
        assert_eq!(rt; bus.write_port(board, port, byte), Ok(()));
    }
}

fn lay_memory(heap: Global, length: usize) -> Result<Protected<Protected<FlatMemory>>, AllocError> {
    let flat = FlatMemory::new(vec![in heap; 0; length]?);
    Ok(Protected::new(Protected::new(flat, 4..6), 8..10))
}

fn lay_rack(
    heap: Global,
    scale: u8,
    printer: u8,
) -> Result<Pair<WeighingCard, TicketPrinter>, AllocError> {
    let scale = WeighingCard::new(heap, scale)?;
    Ok(Pair::new(scale, TicketPrinter::new(heap, printer)?))
}

// The registers after the steps.
fn run(rt: &impl Abort, heap: Global, rig: &Rig, steps: &[Step]) -> Result<Registers, Fail> {
    let mut memory = lay_memory(heap, rig.memory)?;
    let mut rack = lay_rack(heap, rig.scale, rig.printer)?;
    let mut journal = vec![in heap; 0; rig.journal]?;
    let (mut board, bus) = power_on();
    for opened in rig.opened {
        open_channel(rt, &bus, &mut board, *opened);
    }
    Ok(play(rt, bus, board, &mut memory, &mut rack, &mut journal, steps))
}

// Plays the steps, which put so many lines down.
fn check_lines(
    rt: &impl Abort,
    heap: Global,
    rig: &Rig,
    steps: &[Step],
    lines: u32,
) -> Result<(), Fail> {
    assert_eq!(rt; run(rt, heap, rig, steps)?.lines, lines);
    Ok(())
}
