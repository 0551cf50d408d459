ghost use Rattle.std.specs.Prelude.{◌≡◌};
ghost use Rattle.script.specs.Entries.{named};

use super::Misread;
use std::str::FromStr;

// The word that an entry begins with.
#[derive(Clone, Copy)]
pub(crate) enum Name {
    Memory,
    Protect,
    Scale,
    Printer,
    Journal,
    In,
    Out,
    Tick,
    Acknowledge,
    Arrive,
    Load,
    Store,
    Reset,
    Grant,
    Find,
    State,
    Level,
    Lines,
}

impl FromStr for Name {
    type Err = Misread;

    ghost from_str_gives = { λ text name. name ≡ named text };

    fn from_str(text: &str) -> Result<Name, Misread> {
        match text {
            "memory" => Ok(Name::Memory),
            "protect" => Ok(Name::Protect),
            "scale" => Ok(Name::Scale),
            "printer" => Ok(Name::Printer),
            "journal" => Ok(Name::Journal),
            "in" => Ok(Name::In),
            "out" => Ok(Name::Out),
            "tick" => Ok(Name::Tick),
            "ack" => Ok(Name::Acknowledge),
            "arrive" => Ok(Name::Arrive),
            "load" => Ok(Name::Load),
            "store" => Ok(Name::Store),
            "reset" => Ok(Name::Reset),
            "grant" => Ok(Name::Grant),
            "find" => Ok(Name::Find),
            "state" => Ok(Name::State),
            "level" => Ok(Name::Level),
            "lines" => Ok(Name::Lines),
            _ => Err(Misread::UnknownEntry),
        }
    }
}
