ghost use Rattle.std.specs.Prelude.{◌≡◌, ◌≤◌, true, [], IfOk};
ghost use Rattle.std.specs.VecDeque.{deque_len, deque_capacity};
ghost use Rattle.rack.specs.Meaning.{all_fit};
ghost use Rattle.rack.specs.Makes.{one_card, weighing, weighing_line, weighing_room};
ghost use Rattle.std.proofs.Common.{rules};

use crate::{Kind, LevelSummary, Rack, refused, stands_at};
use fault::{Fault, Refusal};
use std::alloc::{AllocError, Global};
use std::collections::VecDeque;

const ROOM: usize = 512;

// The weighing card: a giver of 16-bit units, whose line is up while a unit waits.
// It has room for 512 from the making on.
#[derive(Drop)]
pub struct WeighingCard {
    level: u8,
    units: VecDeque<u16>,
    ghost held: { (deque_len units ≤ weighing_room) × (weighing_room ≤ deque_capacity units) },
    ghost fit: { all_fit true units.items ≡ true },
}

impl WeighingCard {
    ghost use Rattle.rack.specs.Racks.{weighing_meaning};

    pub fn new(heap: Global, level: u8) -> Result<WeighingCard, AllocError>
        ensures { IfOk result (λ c. weighing_meaning c ≡ one_card level (weighing []) weighing_line) }
    {
        let units = VecDeque::with_capacity(heap, ROOM)?;
        Ok(WeighingCard { level, units })
    }
}

impl Rack for WeighingCard {
    ghost use Rattle.rack.specs.Racks.{weighing_meaning};

    ghost meaning = { weighing_meaning };

    ghost up_able = { Prim.search rules };

    ghost waiting_fit = { Prim.search rules };

    fn summary(&self, level: u8) -> LevelSummary {
        if !stands_at(self.level, level) {
            return LevelSummary::nothing();
        }
        let waiting = self.units.len();
        LevelSummary {
            kind: Kind::Giver,
            wide: true,
            line: waiting > 0,
            waiting,
            taken: 0,
            room: ROOM - waiting,
        }
    }

    fn waiting_unit(&self, level: u8, place: usize) -> Option<u16> {
        if stands_at(self.level, level) {
            self.units.get(place).copied()
        } else {
            None
        }
    }

    fn taken_unit(&self, _level: u8, _place: usize) -> Option<u16> {
        None
    }

    fn arrive(&mut self, level: u8, unit: u16) -> Result<(), Fault> {
        if !stands_at(self.level, level) || self.units.len() >= ROOM {
            return Err(refused(Refusal::ArrivalNotTaken, level));
        }
        self.units.push_back_reserved(unit);
        Ok(())
    }

    fn give(&mut self, level: u8) -> Result<u16, Fault> {
        if !stands_at(self.level, level) {
            return Err(refused(Refusal::CannotServe, level));
        }
        self.units
            .pop_front()
            .ok_or(refused(Refusal::CannotServe, level))
    }

    fn take(&mut self, level: u8, _unit: u16) -> Result<(), Fault> {
        Err(refused(Refusal::CannotServe, level))
    }

    fn tell_last(&mut self, _level: u8) {}
}
