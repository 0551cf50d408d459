ghost use Rattle.std.specs.Prelude.{◌≡◌};
ghost use Rattle.rack.specs.Meaning.{is_empty};
ghost use Rattle.rack.specs.Makes.{pair};
ghost use Rattle.rack.specs.Racks.{pair_meaning};
ghost use Rattle.std.proofs.Common.{rules};

use crate::{Kind, LevelSummary, Rack};
use fault::Fault;

// Two racks as one; the second has the levels at which the first holds no card.
#[derive(Drop)]
pub struct Pair<A: Rack, B: Rack> {
    first: A,
    second: B,
}

impl<A: Rack, B: Rack> Pair<A, B> {
    pub fn new(first: A, second: B) -> Pair<A, B>
        ensures { pair_meaning A.Rack.meaning B.Rack.meaning result ≡ pair (A.Rack.meaning first) (B.Rack.meaning second) }
    {
        Pair { first, second }
    }

    fn in_second(&self, level: u8) -> bool
        ensures { result ≡ is_empty ((A.Rack.meaning self.now.first).at level).kind }
    {
        self.first.summary(level).kind == Kind::Empty
    }
}

// kept: tried a method that picks the rack: a `&dyn Rack` of a type parameter gets no proof, and each call would pass a closure for either rack
impl<A: Rack, B: Rack> Rack for Pair<A, B> {
    ghost meaning = { pair_meaning A.Rack.meaning B.Rack.meaning };

    ghost up_able = { Prim.search rules };

    ghost waiting_fit = { Prim.search rules };

    fn summary(&self, level: u8) -> LevelSummary {
        if self.in_second(level) {
            self.second.summary(level)
        } else {
            self.first.summary(level)
        }
    }

    fn waiting_unit(&self, level: u8, place: usize) -> Option<u16> {
        if self.in_second(level) {
            self.second.waiting_unit(level, place)
        } else {
            self.first.waiting_unit(level, place)
        }
    }

    fn taken_unit(&self, level: u8, place: usize) -> Option<u16> {
        if self.in_second(level) {
            self.second.taken_unit(level, place)
        } else {
            self.first.taken_unit(level, place)
        }
    }

    fn arrive(&mut self, level: u8, unit: u16) -> Result<(), Fault> {
        if self.in_second(level) {
            self.second.arrive(level, unit)
        } else {
            self.first.arrive(level, unit)
        }
    }

    fn give(&mut self, level: u8) -> Result<u16, Fault> {
        if self.in_second(level) {
            self.second.give(level)
        } else {
            self.first.give(level)
        }
    }

    fn take(&mut self, level: u8, unit: u16) -> Result<(), Fault> {
        if self.in_second(level) {
            self.second.take(level, unit)
        } else {
            self.first.take(level, unit)
        }
    }

    fn tell_last(&mut self, level: u8) {
        if self.in_second(level) {
            self.second.tell_last(level);
        } else {
            self.first.tell_last(level);
        }
    }
}
