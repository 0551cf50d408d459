// What the stepwise rules come to over whole runs.
ghost use Rattle.std.specs.Prelude.{◌≡◌, ◌<◌, ◌≤◌, true};
ghost use Rattle.timer.specs.Cases.{ticks, system_set, RateCase, SquareCase, TerminalCase, OneCase, WatchdogCase};
ghost use Rattle.timer.specs.Counting.{written};
ghost use Rattle.timer.specs.Periods.{ClosedForm, out_form, out_after};
ghost use Rattle.timer.specs.Watchdog.{WatchdogLaw};

use crate::counter::written;
use crate::{Access, Mode};

impl Mode {
    // OUT after so many clocks of a count, the first clock loading it.
    fn out_form(self, count: u32, clocks: u32) -> bool
        requires { (0 < count) × (count ≤ 65536) × (0 < clocks) }
        ensures { result ≡ out_form self count clocks }
    {
        match self {
            Mode::TerminalCount => count < clocks,
            Mode::RateGenerator => clocks % count != 0,
            Mode::SquareWave => (clocks - 1) % count < (count + 1) / 2,
        }
    }
}

// OUT after so many clocks with the gate high, of counter 0 or 2 freshly set up and given one whole count;
// None where the count is refused. The law says that the closed form is the stepwise rule for any number of clocks.
#[tactic(auto, using(crate::proofs::Periods::closed_form, crate::proofs::Periods::closed_start, crate::proofs::Periods::closed_at))]
pub fn predict_out(mode: Mode, access: Access, low: u8, high: u8, clocks: u32) -> Option<bool>
    ensures answer { result ≡ out_after 65536 mode access low high clocks }
    ensures law { ClosedForm }
{
    let count = access.count(low, high);
    if mode.falls_short(count) {
        return None;
    }
    if clocks == 0 {
        return Some(mode.start_out());
    }
    Some(mode.out_form(written(65536, count), clocks))
}

// How many unanswered rises of OUT 0, after the one that loads, raise OUT 3 where that count is written to port 0044.
#[tactic(auto, using(crate::proofs::Watching::watchdog_law))]
pub fn watchdog_limit(count: u8) -> u16
    ensures answer { result ≡ written 256 count }
    ensures law { WatchdogLaw }
{
    written(256, u32::from(count)) as u16
}

// The worked cases of the rules; the answer is the tick on which OUT 0 is high in mode 0 with a count of 2.
pub fn worked_cases_stand() -> u8
    ensures tick { (ticks result (system_set 0x30 2)).system.out ≡ true }
    ensures rate { RateCase }
    ensures square { SquareCase }
    ensures terminal { TerminalCase }
    ensures one { OneCase }
    ensures watchdog { WatchdogCase }
{
    3
}
