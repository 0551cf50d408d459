ghost use Rattle.std.specs.Prelude.{◌≡◌};
ghost use Rattle.accounts.specs.Levels.{IsBelow, with_line, tallied_level};

use crate::{Count, count_lines};
use journal::{Kind, Line};

// The DMA lines of a journal at one level.
#[derive(Clone, Copy, Default)]
pub struct LevelTotals {
    pub to_memory: u32,
    pub to_card: u32,
    // of all kinds
    pub last_marks: u32,
    // of the units from the card to memory
    pub sum: u64,
}

impl Count for LevelTotals {
    // the level
    type Selection = u8;

    ghost with_line = { with_line };

    ghost Below = { IsBelow };

    fn count(&mut self, line: Line, level: u8) {
        if line.level != level {
            return;
        }
        match line.kind {
            Kind::CardToMemory => {
                self.to_memory += 1;
                self.sum += u64::from(line.unit);
                self.last_marks += u32::from(line.last);
            }
            Kind::MemoryToCard => {
                self.to_card += 1;
                self.last_marks += u32::from(line.last);
            }
            Kind::Verify => self.last_marks += u32::from(line.last),
            Kind::Store => {}
        }
    }
}

// The DMA lines of a level among the first 65,536 words.
pub fn tally_level(words: &[u64], level: u8) -> LevelTotals
    ensures { result ≡ tallied_level words.now level }
{
    count_lines(words, LevelTotals::default(), level)
}
