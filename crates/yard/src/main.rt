#![tactic(auto)]

// Plays a script on one board: reading it, printing what its calls answer, the views and the accounts.

mod playing;
mod reading;
mod sums;
mod views;

use bench::Rig;
use reading::{read_steps, read_text};
use std::io;
use std::io::{BufWriter, Write};
use std::process::ExitCode;

// How much is printed before it is written out.
const BUFFER: usize = 32768;

// Plays the script; where a line of it is bad, nothing is performed.
fn run(rt: &HostRuntime, text: &str) -> io::Result<()> {
    let mut rig = Rig::new();
    let mut wrongs = String::new(rt.alloc());
    let steps = read_steps(rt.alloc(), &mut rig, &mut wrongs, text)?;
    if !wrongs.is_empty() {
        rt.stderr().write_all(wrongs.as_bytes())?;
        return Err(io::Error::from(io::ErrorKind::InvalidData));
    }
    let (machine, bus) = rig.lay_out(rt.alloc())?;
    let out = BufWriter::with_capacity(rt.alloc(), BUFFER, rt.stdout())?;
    playing::play(out, steps.as_slice(), machine, bus)
}

fn play_script(rt: &HostRuntime) -> io::Result<()> {
    match read_text(rt) {
        Ok(text) => run(rt, text.as_str()),
        Err(error) => {
            eprintln!(rt; "the script cannot be read: {error}")?;
            Err(error)
        }
    }
}

fn main(rt: HostRuntime) -> ExitCode {
    match play_script(&rt) {
        Ok(()) => ExitCode::SUCCESS,
        Err(_) => ExitCode::FAILURE,
    }
}
