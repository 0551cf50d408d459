ghost use Rattle.std.specs.Prelude.{◌<◌};

// A level that wins the bus, and the channel that serves it.
#[derive(Clone, Copy)]
pub(crate) struct Winner {
    pub(crate) level: u8,
    pub(crate) channel: u8,
    ghost in_range: { (level < 15) × (channel < 8) },
}
