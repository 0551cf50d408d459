#![tactic(auto)]

ghost use Rattle.std.specs.Prelude.{◌≡◌, ℕ, ◌+◌, ◌<◌, ◌≤◌, length, take};
ghost use Rattle.journal.specs.declared.Line.{Line};
ghost use Rattle.accounts.specs.Lines.{counted};

use journal::Line;

mod kinds;
mod levels;

pub use kinds::{Totals, tally};
pub use levels::{LevelTotals, tally_level};

// So many words from the front, or all of them where there are fewer.
pub fn first_words(words: &[u64], count: usize) -> &[u64]
    ensures words { result.now ≡ take count words.now }
    ensures length { length result.now ≤ count }
{
    words.get(..count).unwrap_or(words)
}

// How many words are counted; a journal has no more lines.
const LIMIT: usize = 65536;

// Totals of lines.
trait Count {
    // which lines are counted
    type Selection: Copy;

    // the totals with one line more
    ghost with_line: { Self.Selection → Self → Line → Self };

    // the totals are of fewer lines than a number
    ghost Below: { Self → ℕ → Type 0 };

    fn count(&mut self, line: Line, selection: Self::Selection)
        requires { Below self.old 65536 }
        ensures after { self.new ≡ with_line selection self.old line }
        ensures below { (n : ℕ) → Below self.old n → Below self.new (n + 1) };
}

// The totals with the lines of the first 65,536 words, passing over what is no line.
#[tactic(auto, unfolding(crate::specs::Lines::counted))]
fn count_lines<T: Count + Drop>(words: &[u64], none: T, selection: T::Selection) -> T
    requires { (n : ℕ) → 0 < n → T.Below none n }
    ensures { result ≡ counted (T.with_line selection) none words.now }
{
    let mut totals = none;
    for word in first_words(words, LIMIT) {
        if let Ok(line) = Line::unpack(*word) {
            totals.count(line, selection);
        }
    }
    totals
}
