ghost use Rattle.std.specs.Prelude.{◌≡◌, Some};
ghost use Rattle.runs.specs.Law.{words};
ghost use Rattle.bench.specs.Machine.{world_of};
ghost use Rattle.bench.specs.Calls.{refuses, line, shown};
ghost use Rattle.bench.specs.Text.{outcome_text, answer_text};

use board::Board;
use fault::Fault;
use memory::Memory;
use rack::Rack;
use runs::Reply;
use std::fmt;

// A board, and what its calls go to.
// kept: a Model cannot have World as its Value, for a memory's bytes are a function there; so contracts name world_of
#[derive(Drop)]
pub struct Machine<M: Memory, R: Rack> {
    pub board: Board,
    pub memory: M,
    pub rack: R,
    pub journal: Vec<u64>,
}

// What an entry brings if it is not refused.
#[derive(Clone, Copy)]
pub enum Outcome {
    Done,
    Byte(u8),
    // the place of the line that was looked for
    Place(usize),
    // the word of the line that a carry put down, if it put one down
    Carried(Option<u64>),
}

// What an entry answers.
#[derive(Clone, Copy)]
pub struct Answer {
    // for a grant the level that won the bus
    pub winner: Option<u8>,
    pub outcome: Result<Outcome, Fault>,
}

impl Answer {
    pub fn is_refused(self) -> bool
        ensures { result ≡ refuses self }
    {
        self.outcome.is_err()
    }

    pub(crate) fn line(found: Result<usize, Fault>) -> Answer
        ensures { result ≡ line found }
    {
        Answer {
            winner: None,
            outcome: found.map(Outcome::Place),
        }
    }

    // The answer of a call as it is printed.
    pub(crate) fn shown(answer: runs::Answer, winner: Option<u8>, word: Option<u64>) -> Answer
        ensures { result ≡ shown answer winner word }
    {
        let outcome = answer.map(|reply| match reply {
            Reply::Done => Outcome::Done,
            Reply::Byte(byte) => Outcome::Byte(byte),
            Reply::Carried(true) => Outcome::Carried(word),
            Reply::Carried(false) => Outcome::Carried(None),
        });
        Answer { winner, outcome }
    }
}

impl fmt::Display for Outcome {
    ghost output = { λ outcome. Some (outcome_text outcome) };

    fn fmt<W: fmt::Write>(&self, f: &mut fmt::Formatter<W>) -> fmt::Result {
        match self {
            Outcome::Done => f.write_str("ok"),
            Outcome::Byte(byte) => write!(f, "{byte:02X}"),
            Outcome::Place(place) => write!(f, "line {place}"),
            Outcome::Carried(Some(word)) => write!(f, "line {word:016X}"),
            Outcome::Carried(None) => write!(f, "no line"),
        }
    }
}

impl fmt::Display for Answer {
    ghost output = { λ answer. Some (answer_text answer) };

    fn fmt<W: fmt::Write>(&self, f: &mut fmt::Formatter<W>) -> fmt::Result {
        if let Some(level) = self.winner {
            write!(f, "level {level} ")?;
        }
        match self.outcome {
            Ok(outcome) => outcome.fmt(f),
            Err(fault) => fault.fmt(f),
        }
    }
}

impl<M: Memory, R: Rack> Machine<M, R> {
    // The words of the lines put down so far.
    pub fn words(&self) -> &[u64]
        ensures { result.now ≡ words (world_of M.Memory.meaning R.Rack.meaning self.now) }
    {
        accounts::first_words(self.journal.as_slice(), self.board.lines() as usize)
    }
}
