//! An event, as a script spells it.

ghost use Rattle.std.specs.Prelude.{◌≡◌, [], ◌∷◌, ◌+◌, ◌++◌, ◌/◌, ◌%◌, ◌<◌, ◌≤◌, length, if◌then◌else◌, codes, decimal};
ghost use Rattle.board_prelude.specs.{space, hex_long, size_text, kind_text, written_text, smm_text, memory_text};
ghost use Rattle.board_prelude.specs.{access_text, wide_text, port_text, level_text, two_digits, moment_text};
ghost use Rattle.board_prelude.specs.{event_text, option_map_or, stimulus_form, applied_text};
ghost use Rattle.logs.specs.Tails.{HasRoom, GrowsBy, HasShortValue};

use crate::hex::{put_hex, put_hex_long, put_hex_word};
use crate::tail::Tail;
use crate::words::put_two_digits;
use board_base::{Access, Kind, Moment, PortAccess, WideAccess};
use board_spec::{Applied, Event, Stimulus};

/// The letter of a width in bytes.
#[inline(always)]
fn size_letter(bytes: u32) -> u8
    ensures letter { result ∷ [] ≡ size_text bytes }
    ensures ascii { result < 128 }
{
    match bytes {
        1 => b'b',
        2 => b'w',
        4 => b'd',
        _ => b'q',
    }
}

/// The letter of a kind of access.
#[inline(always)]
fn kind_letter(kind: Kind) -> u8
    ensures letter { result ∷ [] ≡ kind_text kind }
    ensures ascii { result < 128 }
{
    match kind {
        Kind::Fetch => b'f',
        Kind::Read => b'r',
        Kind::Write => b'w',
    }
}

/// Puts the value of an access that writes, after a space, and nothing for one that reads.
#[inline(always)]
fn put_written(line: &mut Tail, write: bool, bytes: u32, value: u64)
    requires few { bytes ≤ 8 }
    requires room { HasRoom line.old 17 }
    ensures words { line.new ≡ written_text write bytes value ++ line.old }
    ensures length { GrowsBy line.old line.new 17 }
{
    if write {
        put_hex(line, bytes, value);
        line.put(b" ");
    }
}

/// Puts the mark of system management mode.
#[inline(always)]
fn put_smm(line: &mut Tail, smm: bool)
    requires room { HasRoom line.old 4 }
    ensures words { line.new ≡ smm_text smm ++ line.old }
    ensures length { GrowsBy line.old line.new 4 }
{
    if smm {
        line.put(b" smm");
    }
}

/// Puts the kind, the size and the address of an access to memory, like `w b 000CC000`.
#[inline(always)]
pub(crate) fn put_access_place(line: &mut Tail, kind: Kind, bytes: u32, addr: u32)
    requires room { HasRoom line.old 12 }
    ensures words { line.new ≡ kind_text kind ++ space ∷ size_text bytes ++ space ∷ hex_long addr ++ line.old }
    ensures length { GrowsBy line.old line.new 12 }
{
    put_hex_long(line, addr);
    line.put(&[kind_letter(kind), b' ', size_letter(bytes), b' ']);
}

/// Puts an access to memory of `bytes` bytes, like `w b 000CC000 02`.
#[inline(always)]
fn put_memory(line: &mut Tail, kind: Kind, bytes: u32, addr: u32, value: u64, smm: bool)
    requires few { bytes ≤ 8 }
    requires room { HasRoom line.old 33 }
    ensures words { line.new ≡ memory_text kind bytes addr value smm ++ line.old }
    ensures length { GrowsBy line.old line.new 33 }
{
    put_smm(line, smm);
    put_written(line, kind.is_write(), bytes, value);
    put_access_place(line, kind, bytes, addr);
}

/// Puts an access to memory that one bus cycle moves.
#[inline(always)]
fn put_access(line: &mut Tail, access: &Access)
    requires room { HasRoom line.old 33 }
    ensures words { line.new ≡ access_text access.now ++ line.old }
    ensures length { GrowsBy line.old line.new 33 }
{
    put_memory(
        line,
        access.kind,
        access.width.bytes(),
        access.addr,
        u64::from(access.value),
        access.smm,
    );
}

/// Puts an access to memory that takes several bus cycles.
fn put_wide(line: &mut Tail, access: &WideAccess)
    requires few { access.now.bytes ≤ 8 }
    requires room { HasRoom line.old 33 }
    ensures words { line.new ≡ wide_text access.now ++ line.old }
    ensures length { GrowsBy line.old line.new 33 }
{
    put_memory(
        line,
        access.kind,
        u32::from(access.bytes),
        access.addr,
        access.value,
        access.smm,
    );
}

/// Puts the verb of an access to a port.
#[inline(always)]
fn put_verb(line: &mut Tail, write: bool)
    requires room { HasRoom line.old 3 }
    ensures words { line.new ≡ (if write then codes "out" else codes "in") ++ line.old }
    ensures length { GrowsBy line.old line.new 3 }
{
    if write {
        line.put(b"out");
    } else {
        line.put(b"in");
    }
}

/// Puts an access to a port, like `out d 0CF8 80000058`.
#[inline(always)]
fn put_port(line: &mut Tail, access: &PortAccess)
    requires room { HasRoom line.old 27 }
    ensures words { line.new ≡ port_text access.now ++ line.old }
    ensures length { GrowsBy line.old line.new 27 }
{
    let bytes = access.width.bytes();
    put_written(line, access.write, bytes, u64::from(access.value));
    put_hex_word(line, access.port);
    line.put(&[b' ', size_letter(bytes), b' ']);
    put_verb(line, access.write);
}

/// Puts a look at the address map, like `look r 000F0000`.
#[inline(always)]
fn put_look_at(line: &mut Tail, kind: Kind, addr: u32, smm: bool)
    requires room { HasRoom line.old 19 }
    ensures words { line.new ≡ codes "look " ++ kind_text kind ++ space ∷ hex_long addr ++ smm_text smm ++ line.old }
    ensures length { GrowsBy line.old line.new 19 }
{
    put_smm(line, smm);
    put_hex_long(line, addr);
    line.put(&[kind_letter(kind), b' ']);
    line.put(b"look ");
}

/// Puts a mark and two digits, like `-07`.
fn put_moment_part(line: &mut Tail, mark: u8, number: u8)
    requires ascii { mark < 128 }
    requires room { HasRoom line.old 3 }
    ensures words { line.new ≡ mark ∷ two_digits number ++ line.old }
    ensures length { GrowsBy line.old line.new 3 }
{
    put_two_digits(line, u16::from(number));
    line.put(&[mark]);
}

/// Puts a day of the calendar, like `2024-02-29`.
fn put_day(line: &mut Tail, moment: Moment)
    requires room { HasRoom line.old 10 }
    ensures words { line.new ≡ two_digits (moment.year / 100) ++ two_digits (moment.year % 100)
        ++ codes "-" ++ two_digits moment.month ++ codes "-" ++ two_digits moment.day ++ line.old }
    ensures length { GrowsBy line.old line.new 10 }
{
    put_moment_part(line, b'-', moment.day);
    put_moment_part(line, b'-', moment.month);
    put_two_digits(line, moment.year % 100);
    put_two_digits(line, moment.year / 100);
}

/// Puts a time of day after its mark, like `T23:59:58`.
fn put_time_of_day(line: &mut Tail, moment: Moment)
    requires room { HasRoom line.old 9 }
    ensures words { line.new ≡ codes "T" ++ two_digits moment.hour ++ codes ":" ++ two_digits moment.minute
        ++ codes ":" ++ two_digits moment.second ++ line.old }
    ensures length { GrowsBy line.old line.new 9 }
{
    put_moment_part(line, b':', moment.second);
    put_moment_part(line, b':', moment.minute);
    put_moment_part(line, b'T', moment.hour);
}

/// Puts the statement that gives the clock a moment, like `moment 2024-02-29T23:59:58`.
fn put_time(line: &mut Tail, moment: Moment)
    requires room { HasRoom line.old 26 }
    ensures words { line.new ≡ codes "moment " ++ moment_text moment ++ line.old }
    ensures length { GrowsBy line.old line.new 26 }
{
    put_time_of_day(line, moment);
    put_day(line, moment);
    line.put(b"moment ");
}

/// Puts a level, which is one digit.
fn put_level(line: &mut Tail, on: bool)
    requires room { HasRoom line.old 1 }
    ensures words { line.new ≡ level_text on ++ line.old }
    ensures length { GrowsBy line.old line.new 1 }
{
    if on {
        line.put(b"1");
    } else {
        line.put(b"0");
    }
}

/// Puts the number of a stimulus, and its level where it has one.
fn put_given(line: &mut Tail, has_level: bool, number: u32, on: bool)
    requires room { HasRoom line.old 22 }
    ensures words { line.new
        ≡ (if has_level then decimal number ++ space ∷ level_text on else decimal number) ++ line.old }
    ensures length { GrowsBy line.old line.new 22 }
{
    if has_level {
        put_level(line, on);
        line.put(b" ");
    }
    line.put_decimal(u64::from(number));
}

/// Puts the word of a stimulus.
#[tactic(auto, using(crate::proofs::StimulusWords::ascii_word, crate::proofs::StimulusWords::short_word))]
fn put_word(line: &mut Tail, stimulus: Stimulus)
    requires room { HasRoom line.old 6 }
    ensures words { line.new ≡ (stimulus_form stimulus).word ++ line.old }
    ensures length { GrowsBy line.old line.new 6 }
{
    line.put(stimulus.word().as_bytes());
}

/// Puts a stimulus, like `irq 5 1`.
fn put_applied(line: &mut Tail, said: Applied)
    requires room { HasRoom line.old 33 }
    ensures words { line.new ≡ applied_text said ++ line.old }
    ensures length { GrowsBy line.old line.new 33 }
{
    put_given(line, said.stimulus.has_level(), said.number, said.on);
    line.put(b" ");
    put_word(line, said.stimulus);
}

/// Puts the stimulus that was found, or nothing.
fn put_found(line: &mut Tail, found: Option<Applied>)
    requires room { HasRoom line.old 33 }
    ensures words { line.new ≡ option_map_or applied_text found [] ++ line.old }
    ensures length { GrowsBy line.old line.new 33 }
{
    if let Some(said) = found {
        put_applied(line, said);
    }
}

/// Puts an event as the statement that asks for it, without its processor.
#[inline(always)]
#[tactic(auto, unfolding(board_spec::specs::LogText::event_text))]
pub(crate) fn put_event(line: &mut Tail, event: &Event)
    requires short { HasShortValue event.now }
    requires room { HasRoom line.old 33 }
    ensures words { line.new ≡ event_text event.now ++ line.old }
    ensures length { GrowsBy line.old line.new 33 }
{
    match event {
        Event::Memory(access) => put_access(line, access),
        Event::Wide(access) => put_wide(line, access),
        Event::Port(access) => put_port(line, access),
        Event::Look { kind, addr, smm } => put_look_at(line, *kind, *addr, *smm),
        Event::Ack => line.put(b"ack"),
        Event::Time(moment) => put_time(line, *moment),
        _ => put_found(line, event.applied()),
    }
}
