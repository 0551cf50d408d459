#![tactic(auto)]

ghost use Rattle.std.specs.Prelude.{◌≡◌, ◌<◌, true, length, slice_set};
ghost use Rattle.journal.specs.Layout.{listed, word as layout};

use journal::Line;
use winner::Winner;

mod bus;
mod carry;
mod cases;
mod ports;
mod state;
mod winner;

pub use bus::{Bus, cycle, power_on};
pub use carry::{GrantedBus, Motion, Transfer};
pub use cases::worked_cases_stand;
pub use ports::Port;
pub use state::{Arbitration, Board, Registers};

// Puts a line down at a place that the journal has.
fn put_down(journal: &mut [u64], place: u32, line: Line)
    requires { (place < length journal.old) × (listed line ≡ true) }
    ensures { journal.new ≡ slice_set journal.old place (layout line) }
{
    journal[place as usize] = line.pack().unwrap();
}
