ghost use Rattle.std.specs.Prelude.{◌≡◌, ◌≤◌, vec_len, vec_capacity, [], IfOk};
ghost use Rattle.rack.specs.Makes.{one_card, printing, printing_line, printing_room};
ghost use Rattle.std.proofs.Common.{rules};

use crate::{Kind, LevelSummary, Rack, refused, stands_at};
use fault::{Fault, Refusal};
use std::alloc::{AllocError, Global};

const ROOM: usize = 2048;

// The ticket printer: a taker of 8-bit units, whose line is up while room is left.
// It has room for 2,048 from the making on.
#[derive(Drop)]
pub struct TicketPrinter {
    level: u8,
    bytes: Vec<u8>,
    ghost held: { (vec_len bytes ≤ printing_room) × (printing_room ≤ vec_capacity bytes) },
}

impl TicketPrinter {
    ghost use Rattle.rack.specs.Racks.{printing_meaning};

    pub fn new(heap: Global, level: u8) -> Result<TicketPrinter, AllocError>
        ensures { IfOk result (λ p. printing_meaning p ≡ one_card level (printing []) printing_line) }
    {
        let bytes = Vec::with_capacity(heap, ROOM)?;
        Ok(TicketPrinter { level, bytes })
    }
}

impl Rack for TicketPrinter {
    ghost use Rattle.rack.specs.Racks.{printing_meaning};

    ghost meaning = { printing_meaning };

    ghost up_able = { Prim.search rules };

    ghost waiting_fit = { Prim.search rules };

    fn summary(&self, level: u8) -> LevelSummary {
        if !stands_at(self.level, level) {
            return LevelSummary::nothing();
        }
        let taken = self.bytes.len();
        LevelSummary {
            kind: Kind::Taker,
            wide: false,
            line: taken < ROOM,
            waiting: 0,
            taken,
            room: ROOM - taken,
        }
    }

    fn waiting_unit(&self, _level: u8, _place: usize) -> Option<u16> {
        None
    }

    fn taken_unit(&self, level: u8, place: usize) -> Option<u16> {
        if stands_at(self.level, level) {
            self.bytes.get(place).copied().map(u16::from)
        } else {
            None
        }
    }

    fn arrive(&mut self, level: u8, _unit: u16) -> Result<(), Fault> {
        Err(refused(Refusal::ArrivalNotTaken, level))
    }

    fn give(&mut self, level: u8) -> Result<u16, Fault> {
        Err(refused(Refusal::CannotServe, level))
    }

    fn take(&mut self, level: u8, unit: u16) -> Result<(), Fault> {
        if !stands_at(self.level, level) || self.bytes.len() >= ROOM {
            return Err(refused(Refusal::CannotServe, level));
        }
        let byte = u8::try_from(unit).map_err(|_| refused(Refusal::CannotServe, level))?;
        self.bytes.push_reserved(byte);
        Ok(())
    }

    fn tell_last(&mut self, _level: u8) {}
}
