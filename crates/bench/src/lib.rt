#![tactic(auto)]

mod calls;
mod counts;
mod layout;
mod lines;
mod machine;
mod rig;

pub use counts::Counts;
pub use layout::{YardMemory, YardRack};
pub use lines::{Wrong, take_line};
pub use machine::{Answer, Machine, Outcome};
pub use rig::{Misplaced, Rig};
