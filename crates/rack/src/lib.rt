#![tactic(auto)]

ghost use Rattle.std.specs.Prelude.{◌≡◌, ℕ, true, IfOk};
ghost use Rattle.fault.specs.Numbers.{own};
ghost use Rattle.rack.specs.Meaning.{Levels, able, all_fit, fits, summary, unit_at, arrive_answer, arrived, give_answer, gave, take_answer, took, told};
ghost use Rattle.rack.specs.Makes.{nothing, stands_at};

use fault::{Fault, Refusal};

mod empty;
mod pair;
mod printer;
mod weighing;

pub use empty::EmptyRack;
pub use pair::Pair;
pub use printer::TicketPrinter;
pub use weighing::WeighingCard;

// What stands at a level.
#[derive(Clone, Copy, Debug, Default, PartialEq, Eq)]
pub enum Kind {
    #[default]
    Empty,
    // gives its waiting units
    Giver,
    // takes units
    Taker,
}

// A level as a caller sees it: the numbers of units that wait and that were taken, and the room that is left.
#[derive(Clone, Copy, Default)]
pub struct LevelSummary {
    pub kind: Kind,
    // units of 16 bits, else of 8
    pub wide: bool,
    // the request line is up
    pub line: bool,
    pub waiting: usize,
    pub taken: usize,
    pub room: usize,
}

impl LevelSummary {
    // A level with no card.
    pub fn nothing() -> LevelSummary
        ensures { result ≡ summary nothing }
    {
        LevelSummary::default()
    }
}

// Whether a card made for one level stands at another; above 14 it stands nowhere.
// kept: a card generic in its device needs six of these tests in place of seven, and a second trait that states Rack's contracts again
fn stands_at(own_level: u8, level: u8) -> bool
    ensures { result ≡ stands_at own_level level }
{
    level == own_level && own_level < 15
}

// The fault of a call that a level refuses.
fn refused(refusal: Refusal, level: u8) -> Fault
    ensures { result ≡ own refusal level }
{
    Fault::own(refusal, u32::from(level))
}

// Cards by level.
pub trait Rack {
    ghost meaning: { Self → Levels };

    fn summary(&self, level: u8) -> LevelSummary
        ensures { result ≡ summary ((meaning self.now).at level) };

    // The unit at a place among those that wait.
    fn waiting_unit(&self, level: u8, place: usize) -> Option<u16>
        ensures { result ≡ unit_at ((meaning self.now).at level).waiting place };

    // The unit at a place among those that were taken.
    fn taken_unit(&self, level: u8, place: usize) -> Option<u16>
        ensures { result ≡ unit_at ((meaning self.now).at level).taken place };

    // A unit comes from outside, to wait.
    fn arrive(&mut self, level: u8, unit: u16) -> Result<(), Fault>
        ensures answer { result ≡ arrive_answer ((meaning self.old).at level) level unit }
        ensures after { meaning self.new ≡ arrived (meaning self.old) level unit };

    // A unit that is handed out fits the level's width.
    fn give(&mut self, level: u8) -> Result<u16, Fault>
        ensures answer { result ≡ give_answer ((meaning self.old).at level) level }
        ensures fit { IfOk result (λ u. fits ((meaning self.old).at level).wide u ≡ true) }
        ensures after { meaning self.new ≡ gave (meaning self.old) level };

    fn take(&mut self, level: u8, unit: u16) -> Result<(), Fault>
        ensures answer { result ≡ take_answer ((meaning self.old).at level) level unit }
        ensures after { meaning self.new ≡ took (meaning self.old) level unit };

    // The transfer before was the last of its count.
    fn tell_last(&mut self, level: u8)
        ensures { meaning self.new ≡ told (meaning self.old) level };

    // A line is up only at a level that can serve.
    ghost up_able: { (x : Self) (l : ℕ) → ((meaning x).at l).line ≡ true → able ((meaning x).at l) ≡ true };

    ghost waiting_fit: { (x : Self) (l : ℕ) → all_fit ((meaning x).at l).wide ((meaning x).at l).waiting ≡ true };
}
