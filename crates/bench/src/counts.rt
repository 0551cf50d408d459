ghost use Rattle.std.specs.Prelude.{◌≡◌};
ghost use Rattle.bench.specs.Counts.{at_first, share_of, with_arrival, counted};

use crate::machine::Answer;
use script::Entry;

// The calls so far, those refused, and the accepted arrivals at each level.
#[derive(Clone, Copy, Default)]
pub struct Counts {
    pub calls: u64,
    pub refused: u64,
    pub arrived: [u64; 15],
}

// As how many calls an entry counts, and the level that it brings a unit to.
#[derive(Clone, Copy)]
struct Share {
    calls: u32,
    arrival: Option<u8>,
}

impl From<Entry> for Share {
    ghost from_gives = { λ entry share. share ≡ share_of entry };

    fn from(entry: Entry) -> Share {
        let (calls, arrival) = match entry {
            Entry::Tick(count) => (count, None),
            Entry::Arrive(level, _) => (1, Some(level)),
            Entry::Part(_) | Entry::State | Entry::Level(_) | Entry::Lines => (0, None),
            _ => (1, None),
        };
        Share { calls, arrival }
    }
}

impl Counts {
    pub fn new() -> Counts
        ensures { result ≡ at_first }
    {
        Counts::default()
    }

    fn count_arrival(&mut self, level: u8)
        ensures { self.new ≡ with_arrival self.old level }
    {
        // kept: with get_mut it stayed open what the whole array is after the write
        if level < 15 {
            let place = usize::from(level);
            self.arrived[place] = self.arrived[place].saturating_add(1);
        }
    }

    // Counts an entry that was performed.
    pub fn count(&mut self, entry: Entry, answer: Answer)
        ensures { self.new ≡ counted self.old (share_of entry) answer }
    {
        let share = Share::from(entry);
        self.calls = self.calls.saturating_add(u64::from(share.calls));
        if answer.is_refused() {
            self.refused = self.refused.saturating_add(1);
            return;
        }
        if let Some(level) = share.arrival {
            self.count_arrival(level);
        }
    }
}
