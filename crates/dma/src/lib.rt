#![tactic(auto)]

mod channel;
mod command;
mod controller;

pub use channel::{Channel, advance};
pub use command::{Action, Direction, Part, decide};
pub use controller::{Controller, Mark};
