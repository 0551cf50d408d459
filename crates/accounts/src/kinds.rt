ghost use Rattle.std.specs.Prelude.{◌≡◌};
ghost use Rattle.accounts.specs.Kinds.{IsBelow, with_line, tallied};

use crate::{Count, count_lines};
use journal::{Kind, Line};

// The lines of a journal by kind.
#[derive(Clone, Copy, Default)]
pub struct Totals {
    pub to_memory: u32,
    pub to_card: u32,
    pub verify: u32,
    pub stores: u32,
}

impl Count for Totals {
    type Selection = ();

    ghost with_line = { λ _ t l. with_line t l };

    ghost Below = { IsBelow };

    fn count(&mut self, line: Line, _selection: ()) {
        match line.kind {
            Kind::CardToMemory => self.to_memory += 1,
            Kind::MemoryToCard => self.to_card += 1,
            Kind::Verify => self.verify += 1,
            Kind::Store => self.stores += 1,
        }
    }
}

// The lines of the first 65,536 words by kind.
pub fn tally(words: &[u64]) -> Totals
    ensures { result ≡ tallied words.now }
{
    count_lines(words, Totals::default(), ())
}
