// The accounts of all that was performed.

use accounts::{tally, tally_level};
use bench::{Counts, Machine};
use memory::Memory;
use rack::{Kind, Rack};
use std::io;
use std::io::Write;

// The lines of the journal by kind.
fn write_totals<W: Write>(out: &mut W, lines: u32, words: &[u64], length: usize) -> io::Result<()> {
    let totals = tally(words);
    writeln!(
        out,
        "lines {lines} of {length}: card to memory {}, memory to card {}, verify {}, stores {}",
        totals.to_memory, totals.to_card, totals.verify, totals.stores
    )
}

// What a card gave or took by the journal, beside what it holds.
fn write_level_account<W: Write, R: Rack>(
    out: &mut W,
    words: &[u64],
    rack: &R,
    level: u8,
    arrived: u64,
) -> io::Result<()> {
    let card = rack.summary(level);
    match card.kind {
        Kind::Empty => Ok(()),
        Kind::Giver => {
            let totals = tally_level(words, level);
            writeln!(
                out,
                "level {level}: arrived {arrived}, to memory {}, waiting {}, last marks {}, sum {}",
                totals.to_memory, card.waiting, totals.last_marks, totals.sum
            )
        }
        Kind::Taker => {
            let totals = tally_level(words, level);
            writeln!(
                out,
                "level {level}: from memory {}, taken {}, last marks {}",
                totals.to_card, card.taken, totals.last_marks
            )
        }
    }
}

pub(crate) fn write_accounts<W: Write, M: Memory, R: Rack>(
    out: &mut W,
    counts: &Counts,
    machine: &Machine<M, R>,
) -> io::Result<()> {
    writeln!(out, "calls {}, refused {}", counts.calls, counts.refused)?;
    let words = machine.words();
    write_totals(out, machine.board.lines(), words, machine.journal.len())?;
    for (level, arrived) in (0u8..15).zip(counts.arrived) {
        write_level_account(out, words, &machine.rack, level, arrived)?;
    }
    Ok(())
}
