// What is printed of the board, a level of the rack and the lines of the journal.
ghost use Rattle.std.specs.Prelude.{◌≡◌, ◌+◌, ◌/◌, ◌%◌, ◌<◌, ◌∷◌, ◌++◌, true, Some, codes, length, slice_set};
ghost use Rattle.fault.specs.Text.{hexadecimal};
ghost use Rattle.journal.specs.Layout.{listed};
ghost use Rattle.journal.specs.Text.{marks_text, line_text};
ghost use Rattle.std.specs.Fmt.{digit_glyph, WritesOnOk};
ghost use Rattle.std.specs.Str.{IsAscii};
ghost use Rattle.yard.specs.Views.{high_bits, registers_text, channel_text, controller_text, counter_text, ports_text, word_text};

use board::{Arbitration, Registers};
use dma::{Channel, Controller};
use fault::{Fault, Refusal};
use journal::Line;
use rack::{Kind, LevelSummary, Rack};
use std::fmt::Display;
use std::io::Write;
use std::{fmt, io, str};
use timer::Setting;

// The digit of a number below 16.
fn digit(n: u8) -> u8
    requires { n < 16 }
    ensures { result ≡ digit_glyph true n }
{
    if n < 10 { b'0' + n } else { b'7' + n }
}

// Puts the two digits of a byte at a place of a text.
// kept: by `{:04X}` and `{:06X}` the views of channels, cards and lines took two to five times the time
fn put_byte(text: &mut [u8], at: usize, byte: u8)
    requires { at + 1 < length text.old }
    ensures { text.new ≡ slice_set (slice_set text.old at (digit_glyph true (byte / 16))) (at + 1) (digit_glyph true (byte % 16)) }
{
    text[at] = digit(byte / 16);
    text[at + 1] = digit(byte % 16);
}

// A unit in four digits behind a blank.
#[tactic(auto, using(crate::proofs::Digits::two_bytes))]
fn unit_text(unit: u16) -> [u8; 5]
    ensures { result ≡ 32 ∷ hexadecimal 4 unit }
{
    let [low, high] = unit.to_le_bytes();
    let mut text = *b" 0000";
    put_byte(&mut text, 1, high);
    put_byte(&mut text, 3, low);
    text
}

// Writes a text of ASCII bytes in one piece.
fn write_ascii<W: fmt::Write>(f: &mut fmt::Formatter<W>, bytes: &[u8]) -> fmt::Result
    requires { IsAscii bytes.now }
    ensures { WritesOnOk W.write_str_gives f.old result bytes.now f.new }
{
    f.write_str(str::from_utf8(bytes).unwrap())
}

// Bits 7 to 5 of port 0090.
fn high_bits(arbitration: Arbitration) -> u8
    ensures { result ≡ high_bits arbitration }
{
    u8::from(arbitration) / 32 * 32
}

// The registers of a channel up to the mask.
fn registers_text(channel: &Channel) -> [u8; 44]
    ensures text { result ≡ registers_text channel.now }
    ensures ascii { IsAscii result }
{
    let Channel {
        count,
        io,
        mode,
        ..
    } = *channel;
    let mut text = *b": address 000000 count 0000 io 0000 mode 00 ";
    let [low, middle, high, ..] = channel.memory_address().to_le_bytes();
    put_byte(&mut text, 10, high);
    put_byte(&mut text, 12, middle);
    put_byte(&mut text, 14, low);
    let [low, high] = count.to_le_bytes();
    put_byte(&mut text, 23, high);
    put_byte(&mut text, 25, low);
    let [low, high] = io.to_le_bytes();
    put_byte(&mut text, 31, high);
    put_byte(&mut text, 33, low);
    put_byte(&mut text, 41, mode);
    text
}

#[derive(Drop)]
struct ChannelView<'a> {
    number: usize,
    channel: &'a Channel,
}

impl fmt::Display for ChannelView<'_> {
    ghost output = { λ v. Some (channel_text v.number v.channel.now) };

    fn fmt<W: fmt::Write>(&self, f: &mut fmt::Formatter<W>) -> fmt::Result {
        let channel = self.channel;
        f.write_str("channel ")?;
        self.number.fmt(f)?;
        write_ascii(f, &registers_text(channel))?;
        f.write_str(if channel.masked { "masked" } else { "open" })?;
        f.write_str(" level ")?;
        channel.level.fmt(f)
    }
}

#[derive(Drop)]
struct ControllerView<'a>(&'a Controller);

impl fmt::Display for ControllerView<'_> {
    ghost output = { λ v. Some (controller_text v.0.now) };

    fn fmt<W: fmt::Write>(&self, f: &mut fmt::Formatter<W>) -> fmt::Result {
        let controller = self.0;
        write!(
            f,
            "dma: function {:02X} pointer {} status {:02X} {:02X}",
            controller.function, controller.pointer, controller.status[0], controller.status[1]
        )
    }
}

#[derive(Clone, Copy)]
struct CounterView {
    number: u8,
    out: bool,
    setting: Option<Setting>,
}

impl fmt::Display for CounterView {
    ghost output = { λ v. Some (counter_text v.number v.out v.setting) };

    fn fmt<W: fmt::Write>(&self, f: &mut fmt::Formatter<W>) -> fmt::Result {
        let CounterView {
            number,
            out,
            setting,
        } = *self;
        let out = u8::from(out);
        match setting {
            Some(setting) => write!(
                f,
                "counter {number}: out {out} mode {} bytes {} standing {}",
                u8::from(setting.mode),
                u8::from(setting.access),
                setting.standing
            ),
            None => write!(f, "counter {number}: out {out} not set up"),
        }
    }
}

#[derive(Drop)]
struct PortsView<'a>(&'a Registers);

impl fmt::Display for PortsView<'_> {
    ghost output = { λ v. Some (ports_text v.0.now) };

    fn fmt<W: fmt::Write>(&self, f: &mut fmt::Formatter<W>) -> fmt::Result {
        let Registers {
            port61,
            arbitration,
            lines,
            ..
        } = *self.0;
        write!(
            f,
            "ports: 0061 {port61:02X} 0090 {:02X} winner {} latch {} lines {lines}",
            high_bits(arbitration),
            arbitration.winner,
            u8::from(self.0.timers.latch),
        )
    }
}

// The channels, the DMA controller, the counters and the ports.
pub(crate) fn write_state<W: Write>(out: &mut W, registers: &Registers) -> io::Result<()> {
    for (number, channel) in registers.channels.iter().enumerate() {
        writeln!(out, "{}", ChannelView { number, channel })?;
    }
    writeln!(out, "{}", ControllerView(&registers.dma))?;
    let timers = &registers.timers;
    for (number, counter) in [
        (0, &timers.system),
        (2, &timers.speaker),
        (3, &timers.watchdog),
    ] {
        let view = CounterView {
            number,
            out: counter.out,
            setting: counter.setting(),
        };
        writeln!(out, "{view}")?;
    }
    writeln!(out, "{}", PortsView(registers))
}

// Units by their places.
// kept: a `filter_map` over the places is compiled into a scan of sixteen places at a time
fn write_units<W: Write, F: Fn(usize) -> Option<u16>>(
    out: &mut W,
    count: usize,
    unit_at: F,
) -> io::Result<()>
    requires { F.IsAlwaysCallable unit_at }
{
    for place in 0..count {
        if let Some(unit) = unit_at(place) {
            out.write_all(&unit_text(unit))?;
        }
    }
    Ok(())
}

// A number, most often of one digit: with `write!` for each the view of a card takes a quarter more time.
fn write_number<W: Write>(out: &mut W, n: usize) -> io::Result<()> {
    if n > 9 {
        return write!(out, "{n}");
    }
    out.write_all(&[b'0' + n as u8])
}

// A card, with the units that wait and those that it has taken.
fn write_card<W: Write, R: Rack>(
    out: &mut W,
    rack: &R,
    level: u8,
    name: &str,
    card: LevelSummary,
) -> io::Result<()> {
    let width = if card.wide { " 16 line " } else { " 8 line " };
    let line = if card.line { "up" } else { "down" };
    for text in [name, width, line, " waiting "] {
        out.write_all(text.as_bytes())?;
    }
    write_number(out, card.waiting)?;
    write_units(out, card.waiting, |place| rack.waiting_unit(level, place))?;
    out.write_all(b" taken ")?;
    write_number(out, card.taken)?;
    write_units(out, card.taken, |place| rack.taken_unit(level, place))?;
    writeln!(out, " room {}", card.room)
}

// What stands at a level.
pub(crate) fn write_level<W: Write, R: Rack>(out: &mut W, rack: &R, level: u8) -> io::Result<()> {
    out.write_all(b"level ")?;
    write_number(out, usize::from(level))?;
    out.write_all(b": ")?;
    if level > 14 {
        return writeln!(out, "{}", Fault::own(Refusal::TooLarge, u32::from(level)));
    }
    let card = rack.summary(level);
    match card.kind {
        Kind::Empty => out.write_all(b"none\n"),
        Kind::Giver => write_card(out, rack, level, "giver", card),
        Kind::Taker => write_card(out, rack, level, "taker", card),
    }
}

// A word in sixteen digits.
fn word_digits(word: u64) -> [u8; 16]
    ensures text { result ≡ hexadecimal 16 word }
    ensures ascii { IsAscii result }
{
    let mut text = *b"0000000000000000";
    let [first, second, third, fourth, fifth, sixth, seventh, eighth] = word.to_le_bytes();
    put_byte(&mut text, 0, eighth);
    put_byte(&mut text, 2, seventh);
    put_byte(&mut text, 4, sixth);
    put_byte(&mut text, 6, fifth);
    put_byte(&mut text, 8, fourth);
    put_byte(&mut text, 10, third);
    put_byte(&mut text, 12, second);
    put_byte(&mut text, 14, first);
    text
}

// The kind, the channel and the marks of a listed line.
fn head_text(line: Line) -> [u8; 38]
    requires { listed line ≡ true }
    ensures ascii { IsAscii result }
    ensures text { result ≡ codes " " ++ (marks_text line ++ codes " level ") }
{
    let mut text = *b" kind 0 channel 0 wide 0 last 0 level ";
    text[6] = digit(u8::from(line.kind));
    text[16] = digit(line.channel);
    text[23] = digit(u8::from(line.wide));
    text[30] = digit(u8::from(line.last));
    text
}

// The address and the unit of a listed line.
fn tail_text(line: Line) -> [u8; 25]
    requires { listed line ≡ true }
    ensures ascii { IsAscii result }
    ensures text { result ≡ codes " address " ++ (hexadecimal 6 line.address ++ (codes " unit " ++ hexadecimal 4 line.unit)) }
{
    let mut text = *b" address 000000 unit 0000";
    let [low, middle, high, ..] = line.address.to_le_bytes();
    put_byte(&mut text, 9, high);
    put_byte(&mut text, 11, middle);
    put_byte(&mut text, 13, low);
    let [low, high] = line.unit.to_le_bytes();
    put_byte(&mut text, 21, high);
    put_byte(&mut text, 23, low);
    text
}

// The fields of a listed line, behind a blank.
fn write_line<W: fmt::Write>(f: &mut fmt::Formatter<W>, line: Line) -> fmt::Result
    requires { listed line ≡ true }
    ensures { WritesOnOk W.write_str_gives f.old result (codes " " ++ line_text line) f.new }
{
    write_ascii(f, &head_text(line))?;
    line.level.fmt(f)?;
    write_ascii(f, &tail_text(line))
}

// A word of the journal by its place, with the line that it holds.
#[derive(Clone, Copy)]
struct WordView {
    place: usize,
    word: u64,
}

impl fmt::Display for WordView {
    ghost output = { λ v. Some (word_text v.place v.word) };

    #[tactic(auto, using(crate::proofs::Digits::is_listed))]
    fn fmt<W: fmt::Write>(&self, f: &mut fmt::Formatter<W>) -> fmt::Result {
        let WordView { place, word } = *self;
        f.write_str("line ")?;
        place.fmt(f)?;
        f.write_str(": ")?;
        write_ascii(f, &word_digits(word))?;
        match Line::unpack(word) {
            Ok(line) => write_line(f, line),
            Err(_) => f.write_str(" no line"),
        }
    }
}

// The lines put down so far.
pub(crate) fn write_lines<W: Write>(out: &mut W, words: &[u64]) -> io::Result<()> {
    for (place, word) in words.iter().enumerate() {
        writeln!(out, "{}", WordView { place, word: *word })?;
    }
    Ok(())
}
