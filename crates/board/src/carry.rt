ghost use Rattle.std.specs.Prelude.{◌≡◌, ℕ, ◌+◌, ◌*◌, ◌/◌, ◌%◌, ◌<◌, true, cond, length, IfOk, Ok};
ghost use Rattle.dma.specs.Channels.{after};
ghost use Rattle.journal.specs.Layout.{listed};
ghost use Rattle.memory.specs.Meaning.{Answer, Contents};
ghost use Rattle.rack.specs.Meaning.{Levels, fits, told};
ghost use Rattle.board.specs.Carry.{wide_mode, motion_of, asked, serves, card_able_for, span, AnswersBy, memory_answer, checked, Ready, fetched, landed, unit_of, memory_moved, rack_moved, line_kind, line_of, stepped_or_ended, these, performed, failing, carried};
ghost use Rattle.board.specs.State.{channel_at};

use crate::{Board, Bus, Winner, put_down};
use dma::{Channel, Mark, advance};
use fault::{Fault, Refusal};
use journal::{Kind as LineKind, Line};
use memory::{Memory, MemoryFault};
use rack::{Kind, Rack};

// Which way a unit goes.
#[derive(Clone, Copy)]
pub enum Motion {
    ToMemory,
    ToCard,
    Verify,
}

// One unit that has passed every check and is to be moved.
// kept: with its bounds as a ghost field, each transfer that specs/ makes would owe their proof
#[derive(Clone, Copy)]
pub struct Transfer {
    pub motion: Motion,
    pub channel: u8,
    pub level: u8,
    pub wide: bool,
    pub last: bool,
    pub address: u32,
}

// The way that a channel's mode bits 3 and 2 tell.
impl From<Channel> for Motion {
    ghost from_gives = { λ channel motion. motion ≡ motion_of channel.mode };

    fn from(channel: Channel) -> Motion {
        if !channel.transfers() {
            Motion::Verify
        } else if channel.writes_memory() {
            Motion::ToMemory
        } else {
            Motion::ToCard
        }
    }
}

// Whether the channel is open at the level and the level's line is up.
fn asks<R: Rack>(channel: Channel, rack: &R, level: u8) -> bool
    ensures { result ≡ asked channel ((R.Rack.meaning rack.now).at level) level }
{
    !channel.masked && channel.level == level && rack.summary(level).line
}

// Whether the card at the level can serve the channel.
fn serves<R: Rack>(channel: Channel, rack: &R, level: u8) -> bool
    ensures answer { result ≡ serves channel.mode ((R.Rack.meaning rack.now).at level) }
    ensures able { result ≡ true → (((R.Rack.meaning rack.now).at level).wide ≡ wide_mode channel.mode) × (card_able_for (motion_of channel.mode) ((R.Rack.meaning rack.now).at level) ≡ true) }
{
    let card = rack.summary(level);
    let verifies = !channel.transfers();
    let able = match card.kind {
        Kind::Empty => false,
        Kind::Giver => channel.writes_memory() && (verifies || card.waiting > 0),
        Kind::Taker => !channel.writes_memory() && (verifies || card.room > 0),
    };
    card.wide == channel.is_wide() && able
}

// What asking answers at the address and, of a wide unit, at the next.
fn ask_each<F: Fn(u32) -> Result<(), MemoryFault>>(
    ask: F,
    wide: bool,
    at: u32,
) -> Result<(), MemoryFault>
    requires { F.IsAlwaysCallable ask }
    ensures { (answers : ℕ → Answer) → AnswersBy (F.post ask) answers → result ≡ span answers wide at }
{
    ask(at)?;
    if wide { ask(advance(at, 1)) } else { Ok(()) }
}

// What the memory answers to a unit at the address, its low byte first.
fn ask<M: Memory>(memory: &M, motion: Motion, wide: bool, at: u32) -> Result<(), MemoryFault>
    ensures { result ≡ memory_answer (M.Memory.meaning memory.now) motion wide at }
{
    match motion {
        Motion::ToMemory => ask_each(|byte_at| memory.may_write(byte_at), wide, at),
        Motion::ToCard | Motion::Verify => ask_each(|byte_at| memory.may_read(byte_at), wide, at),
    }
}

impl Board {
    // The checks of carry, in order.
    fn check<M: Memory, R: Rack>(
        &self,
        winner: Winner,
        memory: &M,
        rack: &R,
        length: usize,
    ) -> Result<Transfer, Fault>
        ensures answer { result ≡ checked self.now (M.Memory.meaning memory.now) (R.Rack.meaning rack.now) length winner.level winner.channel }
        ensures room { IfOk result (λ t. (self.now.lines < length) × (self.now.lines < 65536)) }
        ensures ready { IfOk result (λ t. Ready t (M.Memory.meaning memory.now) (R.Rack.meaning rack.now)) }
    {
        let Winner { level, channel } = winner;
        if journal::is_full(self.lines, length) {
            return Err(Fault::own(Refusal::JournalFull, u32::from(level)));
        }
        let registers = self.channels[usize::from(channel)];
        if !asks(registers, rack, level) || !serves(registers, rack, level) {
            return Err(Fault::own(Refusal::CannotServe, u32::from(level)));
        }
        let motion = Motion::from(registers);
        let wide = registers.is_wide();
        let address = registers.memory_address();
        ask(memory, motion, wide, address)?;
        Ok(Transfer {
            motion,
            channel,
            level,
            wide,
            last: registers.count == 0,
            address,
        })
    }
}

// Puts a unit into a memory that has answered yes to it.
fn store_unit<M: Memory>(memory: &mut M, wide: bool, at: u32, unit: u16)
    requires { span (M.Memory.meaning memory.old).writes wide at ≡ Ok tt }
    ensures { M.Memory.meaning memory.new ≡ landed (M.Memory.meaning memory.old) wide at unit }
{
    let [low, high] = unit.to_le_bytes();
    memory.write(at, low).unwrap();
    if wide {
        memory.write(advance(at, 1), high).unwrap();
    }
}

// The unit at an address that the memory has answered yes to.
fn load_unit<M: Memory>(memory: &M, wide: bool, at: u32) -> u16
    requires { span (M.Memory.meaning memory.now).reads wide at ≡ Ok tt }
    ensures unit { result ≡ fetched (M.Memory.meaning memory.now) wide at }
    ensures fit { fits wide result ≡ true }
{
    let low = memory.read(at).unwrap();
    let high = if wide {
        memory.read(advance(at, 1)).unwrap()
    } else {
        0
    };
    u16::from_le_bytes([low, high])
}

// Moves one unit that has passed the checks.
fn move_unit<M: Memory, R: Rack>(transfer: Transfer, memory: &mut M, rack: &mut R) -> u16
    requires { Ready transfer (M.Memory.meaning memory.old) (R.Rack.meaning rack.old) }
    ensures unit { result ≡ unit_of transfer.motion (M.Memory.meaning memory.old) (R.Rack.meaning rack.old) transfer }
    ensures memory { M.Memory.meaning memory.new ≡ memory_moved transfer.motion (M.Memory.meaning memory.old) transfer result }
    ensures rack { R.Rack.meaning rack.new ≡ rack_moved transfer.motion (R.Rack.meaning rack.old) transfer result }
    ensures line { listed (line_of transfer result) ≡ true }
{
    match transfer.motion {
        Motion::ToMemory => {
            let unit = rack.give(transfer.level).unwrap();
            store_unit(memory, transfer.wide, transfer.address, unit);
            unit
        }
        Motion::ToCard => {
            let unit = load_unit(memory, transfer.wide, transfer.address);
            rack.take(transfer.level, unit).unwrap();
            unit
        }
        Motion::Verify => 0,
    }
}

// The kind of line that tells of a unit that went so.
impl From<Motion> for LineKind {
    ghost from_gives = { λ motion kind. kind ≡ line_kind motion };

    fn from(motion: Motion) -> LineKind {
        match motion {
            Motion::ToMemory => LineKind::CardToMemory,
            Motion::ToCard => LineKind::MemoryToCard,
            Motion::Verify => LineKind::Verify,
        }
    }
}

impl Transfer {
    fn line(self, unit: u16) -> Line
        ensures { result ≡ line_of self unit }
    {
        Line {
            kind: LineKind::from(self.motion),
            channel: self.channel,
            wide: self.wide,
            last: self.last,
            level: self.level,
            address: self.address,
            unit,
        }
    }
}

impl Board {
    // Steps the unit's channel, and closes it after the last unit.
    fn step_channel(&mut self, transfer: Transfer)
        requires { transfer.channel < 8 }
        ensures { self.new ≡ stepped_or_ended self.old transfer }
    {
        let channel = usize::from(transfer.channel);
        self.channels[channel].step(transfer.wide);
        if transfer.last {
            self.channels[channel].set_mask(true);
            self.dma.mark(transfer.channel, Mark::Last);
        }
    }

    // Moves one unit that has passed the checks, and puts its line down.
    // kept: the references, as at carry
    // kept: the bound of the lines goes from is_full by check to here: in a Transfer, each that specs/ makes would owe it
    fn perform<M: Memory, R: Rack>(
        &mut self,
        transfer: Transfer,
        memory: &mut M,
        rack: &mut R,
        journal: &mut [u64],
    )
        requires { ((self.old.lines < length journal.old) × (self.old.lines < 65536)) × (Ready transfer (M.Memory.meaning memory.old) (R.Rack.meaning rack.old)) }
        ensures { these self.new (M.Memory.meaning memory.new) (R.Rack.meaning rack.new) journal.new (Ok true) ≡ performed self.old (M.Memory.meaning memory.old) (R.Rack.meaning rack.old) journal.old transfer (unit_of transfer.motion (M.Memory.meaning memory.old) (R.Rack.meaning rack.old) transfer) }
    {
        let unit = move_unit(transfer, memory, rack);
        if transfer.last {
            rack.tell_last(transfer.level);
        }
        put_down(journal, self.lines, transfer.line(unit));
        self.step_channel(transfer);
        self.lines += 1;
    }

    // A failed check shows at port 0090, but for a full journal.
    fn fail(&mut self, refusal: Refusal)
        ensures { self.new ≡ failing refusal self.old }
    {
        if refusal != Refusal::JournalFull {
            self.arbitration.mask = true;
            self.arbitration.timeout = true;
        }
    }
}

// The bus granted to a level and a channel; 15 is the processor's level.
// kept: a rule of the project: a granted bus is a moved type of plain numbers
pub struct GrantedBus {
    pub(crate) grants: u32,
    pub(crate) level: u8,
    pub(crate) channel: u8,
    pub(crate) spent: bool,
    ghost served: { (channel < 8) × (level < 16) },
}

// A grant may be let fall only once carry has spent it.
impl Drop for GrantedBus {
    fn drop(self)
        requires { self.spent ≡ true }
    {
        let GrantedBus {
            grants: _,
            level: _,
            channel: _,
            spent: _,
        } = self;
    }
}

impl GrantedBus {
    // Moves the unit of the grant, if its checks pass; whatever the answer, the bus is at rest again.
    // kept: a struct of the four references would owe in each contract that each field still holds the same reference
    pub fn carry<M: Memory, R: Rack>(
        mut self,
        board: &mut Board,
        memory: &mut M,
        rack: &mut R,
        journal: &mut [u64],
    ) -> (Bus, Result<bool, Fault>)
        ensures outcome { these board.new (M.Memory.meaning memory.new) (R.Rack.meaning rack.new) journal.new result.1 ≡ carried board.old (M.Memory.meaning memory.old) (R.Rack.meaning rack.old) journal.old self.level self.channel }
        ensures bus { result.0.grants ≡ self.grants }
    {
        self.spent = true;
        let bus = Bus {
            grants: self.grants,
        };
        if self.level == 15 {
            return (bus, Ok(false));
        }
        let winner = Winner {
            level: self.level,
            channel: self.channel,
        };
        match board.check(winner, memory, rack, journal.len()) {
            Ok(transfer) => {
                board.perform(transfer, memory, rack, journal);
                (bus, Ok(true))
            }
            Err(fault) => {
                board.fail(fault.refusal);
                (bus, Err(fault))
            }
        }
    }
}
