ghost use Rattle.std.specs.Prelude.{◌≡◌};
ghost use Rattle.rack.specs.Makes.{empty_rack};
ghost use Rattle.rack.specs.Racks.{empty_meaning};
ghost use Rattle.std.proofs.Common.{rules};

use crate::{LevelSummary, Rack, refused};
use fault::{Fault, Refusal};

// A rack with no card.
#[derive(Drop)]
pub struct EmptyRack {}

impl EmptyRack {
    pub fn new() -> EmptyRack
        ensures { empty_meaning result ≡ empty_rack }
    {
        EmptyRack {}
    }
}

// kept: a default answer in Rack would be proved of no meaning, so each rack refuses for itself
impl Rack for EmptyRack {
    ghost meaning = { empty_meaning };

    ghost up_able = { Prim.search rules };

    ghost waiting_fit = { Prim.search rules };

    fn summary(&self, _level: u8) -> LevelSummary {
        LevelSummary::nothing()
    }

    fn waiting_unit(&self, _level: u8, _place: usize) -> Option<u16> {
        None
    }

    fn taken_unit(&self, _level: u8, _place: usize) -> Option<u16> {
        None
    }

    fn arrive(&mut self, level: u8, _unit: u16) -> Result<(), Fault> {
        Err(refused(Refusal::ArrivalNotTaken, level))
    }

    fn give(&mut self, level: u8) -> Result<u16, Fault> {
        Err(refused(Refusal::CannotServe, level))
    }

    fn take(&mut self, level: u8, _unit: u16) -> Result<(), Fault> {
        Err(refused(Refusal::CannotServe, level))
    }

    fn tell_last(&mut self, _level: u8) {}
}
