#![tactic(auto)]

mod counter;
mod laws;
mod sheet;
mod table;
mod timers;

pub use counter::{Access, Counter, Event, Mode, Phase, Setting};
pub use laws::{predict_out, watchdog_limit, worked_cases_stand};
pub use sheet::{Control, CounterName, decode_control, sheet_entry};
pub use timers::{CountPort, Timers};
