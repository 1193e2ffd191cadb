//! What the board replies, as text.

ghost use Rattle.std.specs.Prelude.{◌≡◌, ◌+◌, ◌*◌, ◌≤◌, ◌∷◌, ◌++◌, length, flat_map, OnOk, OnErr, Option, None};
ghost use Rattle.board_prelude.specs.{space, hex_long, area_text, parts_list, value_text, value_bytes, answered_text};
ghost use Rattle.board_prelude.specs.{look_text, reply_text};
ghost use Rattle.logs.specs.Adds.{AddsWords, KeepsFront};
ghost use Rattle.logs.specs.Tails.{HasRoom, GrowsBy};

use crate::hex::{put_hex, put_hex_long};
use crate::tail::Tail;
use crate::target::{put_area, put_denial, put_register, put_target};
use crate::words::put_numbered;
use board_base::{Denial, NoMemory, Reg, Target};
use board_spec::{Event, Look, Part, Parts, Reply};

/// How many bytes the value of a reply has: those of the access, and one for a vector.
pub(crate) fn reply_bytes(event: &Event) -> u32
    ensures bytes { result ≡ value_bytes event.now }
{
    match *event {
        Event::Memory(access) => access.width.bytes(),
        Event::Wide(access) => u32::from(access.bytes),
        Event::Port(access) => access.width.bytes(),
        _ => 1,
    }
}

/// Puts the value of a reply, or `-` for none.
#[inline(always)]
fn put_value(line: &mut Tail, bytes: u32, value: Option<u64>)
    requires few { bytes ≤ 8 }
    requires room { HasRoom line.old 16 }
    ensures words { line.new ≡ value_text bytes value ++ line.old }
    ensures length { GrowsBy line.old line.new 16 }
{
    match value {
        None => line.put(b"-"),
        Some(value) => put_hex(line, bytes, value),
    }
}

/// Puts the ends of an interval of addresses, like `000F0000 000FFFFF`.
fn put_interval(line: &mut Tail, lo: u32, hi: u32)
    requires room { HasRoom line.old 17 }
    ensures words { line.new ≡ hex_long lo ++ space ∷ hex_long hi ++ line.old }
    ensures length { GrowsBy line.old line.new 17 }
{
    put_hex_long(line, hi);
    line.put(b" ");
    put_hex_long(line, lo);
}

/// Appends the ends of an interval of addresses, as `put_interval` does.
pub(crate) fn push_interval(text: &mut String, lo: u32, hi: u32) -> Result<(), NoMemory>
    ensures appended { OnOk result (AddsWords text.old text.new (hex_long lo ++ space ∷ hex_long hi)) }
    ensures front { OnErr result (KeepsFront text.old text.new) }
{
    let mut line = Tail::new();
    put_interval(&mut line, lo, hi);
    line.push_onto(text)
}

/// Puts the interval that a look saw and its area, each after a space.
#[inline(always)]
fn put_seen(line: &mut Tail, look: Look)
    requires room { HasRoom line.old 48 }
    ensures words { line.new
        ≡ space ∷ hex_long look.lo ++ space ∷ hex_long look.hi ++ space ∷ area_text look.area ++ line.old }
    ensures length { GrowsBy line.old line.new 31 }
{
    put_area(line, look.area);
    line.put(b" ");
    put_interval(line, look.lo, look.hi);
    line.put(b" ");
}

/// Puts what a look saw: how many map writes came before, the ends of the interval, and its area.
#[inline(always)]
pub(crate) fn put_look(line: &mut Tail, look: Look)
    requires room { HasRoom line.old 70 }
    ensures words { line.new ≡ look_text look ++ line.old }
    ensures length { GrowsBy line.old line.new 51 }
{
    put_seen(line, look);
    line.put_decimal(u64::from(look.version));
}

/// Puts a row of DRAM that answered and was not denied.
#[inline(always)]
#[tactic(auto, using(std::proofs::lemmas::Fmt::decimal_digit))]
fn put_open_dram(line: &mut Tail, row: u8)
    requires room { HasRoom line.old 47 }
    ensures words { line.new ≡ answered_text (Target.Dram row) None ++ line.old }
    ensures length { GrowsBy line.old line.new 30 }
{
    if row < 10 {
        line.put(&[b' ', b'd', b'r', b'a', b'm', b':', b'0' + row, b' ', b'-']);
    } else {
        line.put(b" -");
        put_numbered(line, b" dram:", row);
    }
}

/// Puts a configuration register that answered and was not denied.
#[inline(always)]
fn put_open_register(line: &mut Tail, reg: Reg)
    requires room { HasRoom line.old 47 }
    ensures words { line.new ≡ answered_text (Target.Config reg) None ++ line.old }
    ensures length { GrowsBy line.old line.new 30 }
{
    line.put(b" -");
    put_register(line, reg);
    line.put(b" config:");
}

/// Puts what answered, after a space, and what denied it, after another.
fn put_each_answered(line: &mut Tail, target: &Target, denial: &Option<Denial>)
    requires room { HasRoom line.old 47 }
    ensures words { line.new ≡ answered_text target.now denial.now ++ line.old }
    ensures length { GrowsBy line.old line.new 30 }
{
    put_denial(line, denial);
    line.put(b" ");
    put_target(line, target);
    line.put(b" ");
}

/// Puts what answered and was not denied.
#[inline(always)]
fn put_open(line: &mut Tail, target: &Target)
    requires room { HasRoom line.old 47 }
    ensures words { line.new ≡ answered_text target.now None ++ line.old }
    ensures length { GrowsBy line.old line.new 30 }
{
    match target {
        Target::Dram(row) => put_open_dram(line, *row),
        Target::Config(reg) => put_open_register(line, *reg),
        _ => put_each_answered(line, target, &None),
    }
}

/// Puts what answered and what denied it, each after a space.
#[inline(always)]
pub(crate) fn put_answered(line: &mut Tail, target: &Target, denial: &Option<Denial>)
    requires room { HasRoom line.old 47 }
    ensures words { line.new ≡ answered_text target.now denial.now ++ line.old }
    ensures length { GrowsBy line.old line.new 30 }
{
    match denial {
        None => put_open(line, target),
        Some(_) => put_each_answered(line, target, denial),
    }
}

/// Puts what answered a part of a wide access.
fn put_part(line: &mut Tail, part: &Part)
    requires room { HasRoom line.old 47 }
    ensures words { line.new ≡ answered_text part.now.target part.now.denial ++ line.old }
    ensures length { GrowsBy line.old line.new 30 }
{
    put_answered(line, &part.target, &part.denial);
}

/// Puts what answered the two to four parts of a wide access, in rising order.
pub(crate) fn put_parts(line: &mut Tail, parts: &Parts)
    requires room { HasRoom line.old 137 }
    ensures words { line.new
        ≡ flat_map (λ part. answered_text part.target part.denial) (parts_list parts.now) ++ line.old }
    ensures length { GrowsBy line.old line.new 120 }
{
    match parts {
        Parts::Two(a, b) => {
            put_part(line, b);
            put_part(line, a);
        }
        Parts::Three(a, b, c) => {
            put_part(line, c);
            put_part(line, b);
            put_part(line, a);
        }
        Parts::Four(a, b, c, d) => {
            put_part(line, d);
            put_part(line, c);
            put_part(line, b);
            put_part(line, a);
        }
    }
}

/// Puts a reply. A value has two digits for each of `bytes` bytes.
#[inline(always)]
#[tactic(auto, unfolding(board_spec::specs::LogText::reply_text))]
pub(crate) fn put_reply(line: &mut Tail, bytes: u32, reply: &Reply)
    requires few { bytes ≤ 8 }
    requires room { HasRoom line.old 137 }
    ensures words { line.new ≡ reply_text bytes reply.now ++ line.old }
    ensures length { GrowsBy line.old line.new 136 }
{
    match reply {
        Reply::Bus {
            value,
            target,
            denial,
        } => {
            put_answered(line, target, denial);
            put_value(line, bytes, widened(*value));
        }
        Reply::Parts { value, parts } => {
            put_parts(line, parts);
            put_value(line, bytes, *value);
        }
        Reply::Saw(look) => put_look(line, *look),
    }
}

/// The same value in 64 bits.
pub(crate) fn widened(value: Option<u32>) -> Option<u64>
    ensures same { result ≡ value }
{
    value.map(u64::from)
}
