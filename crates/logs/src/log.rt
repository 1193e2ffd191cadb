//! The log of a history: a heading, and a line for each entry.

ghost use Rattle.std.specs.Prelude.{◌≡◌, ◌+◌, ◌^◌, ◌≤◌, ◌∷◌, ◌++◌, [], length, OnOk, OnErr, IfOk, reverse, decimal};
ghost use Rattle.std.specs.Prelude.{codes};
ghost use Rattle.board_prelude.specs.{space, line_feed, Wide, line_text, log_text};
ghost use Rattle.logs.specs.Adds.{AddsWords, KeepsFront};
ghost use Rattle.logs.specs.Numbered.{tail_line, tail_text};
ghost use Rattle.logs.specs.Tails.{GrowsBy, HasRoom, HasShortValue};
ghost use Rattle.logs.specs.LinesFrom.{entry_with, lines_from};

use crate::line::Line;
use crate::long::{long_access, push_long, push_long_tail};
use crate::reply::{put_reply, reply_bytes};
use crate::statement::put_event;
use crate::tail::Tail;
use crate::words::{push_numbered, put_small};
use board_base::{NoMemory, WideAccess};
use board_spec::{Entry, Event, Reply};
use std::alloc::Global;

/// Puts the processor and the number of its entry, with a space after them.
#[inline(always)]
pub(crate) fn put_place(line: &mut Tail, actor: u8, seq: u32)
    requires room { HasRoom line.old 42 }
    ensures words { line.new ≡ decimal actor ++ codes "." ++ decimal seq ++ space ∷ line.old }
    ensures length { GrowsBy line.old line.new 25 }
{
    line.put(b" ");
    line.put_decimal(u64::from(seq));
    line.put(b".");
    put_small(line, actor);
}

/// Puts the line of the entry of these parts, without its number and its line feed.
#[inline(always)]
#[tactic(auto, unfolding(crate::specs::Numbered::tail_text))]
fn put_unnumbered(line: &mut Tail, actor: u8, seq: u32, event: &Event, reply: &Reply)
    requires short { HasShortValue event.now }
    requires room { HasRoom line.old 239 }
    ensures words { line.new ≡ tail_text (entry_with actor seq event.now reply.now) ++ line.old }
    ensures length { GrowsBy line.old line.new 218 }
{
    put_reply(line, reply_bytes(event), reply);
    line.put(b" = ");
    put_event(line, event);
    put_place(line, actor, seq);
}

/// Puts line `n` of the entry of these parts, without its line feed.
#[inline(always)]
fn put_entry(line: &mut Tail, n: u64, actor: u8, seq: u32, event: &Event, reply: &Reply)
    requires short { HasShortValue event.now }
    requires room { HasRoom line.old 239 }
    ensures words { line.new ≡ line_text n (entry_with actor seq event.now reply.now) ++ line.old }
{
    put_unnumbered(line, actor, seq, event, reply);
    line.put(b" ");
    line.put_decimal(n);
}

/// Appends line `n`, without its line feed.
pub(crate) fn push_entry(text: &mut String, n: u64, entry: &Entry) -> Result<(), NoMemory>
    ensures appended { OnOk result (AddsWords text.old text.new (line_text n entry.now)) }
    ensures front { OnErr result (KeepsFront text.old text.new) }
{
    if let Some(access) = long_access(&entry.event) {
        return push_long(text, n, entry, access);
    }
    let mut line = Tail::new();
    put_entry(
        &mut line,
        n,
        entry.actor,
        entry.seq,
        &entry.event,
        &entry.reply,
    );
    line.push_onto(text)
}

/// Appends line `n` with its line feed, of an event whose value has at most eight bytes.
#[inline(always)]
fn push_short(
    text: &mut String,
    n: u64,
    actor: u8,
    seq: u32,
    event: &Event,
    reply: &Reply,
) -> Result<(), NoMemory>
    requires short { HasShortValue event.now }
    ensures appended { OnOk result (AddsWords text.old text.new
        (line_text n (entry_with actor seq event.now reply.now) ++ line_feed ∷ [])) }
    ensures front { OnErr result (KeepsFront text.old text.new) }
{
    let mut line = Tail::new();
    line.put(b"\n");
    put_entry(&mut line, n, actor, seq, event, reply);
    line.push_onto(text)
}

/// Appends line `n` with its line feed, of a wide access of more than eight bytes.
#[inline(never)]
fn push_long_line(
    text: &mut String,
    n: u64,
    actor: u8,
    seq: u32,
    event: &Event,
    reply: &Reply,
    access: &WideAccess,
) -> Result<(), NoMemory>
    requires event { event.now ≡ Wide access.now }
    ensures appended { OnOk result (AddsWords text.old text.new
        (line_text n (entry_with actor seq event.now reply.now) ++ line_feed ∷ [])) }
    ensures front { OnErr result (KeepsFront text.old text.new) }
{
    let entry = Entry {
        actor,
        seq,
        event: *event,
        reply: *reply,
    };
    push_long(text, n, &entry, access)?;
    text.push('\n')?;
    Ok(())
}

/// Appends line `n` with its line feed, for the entry of these parts. Lines count from 1.
pub fn push_parts_line(
    text: &mut String,
    n: u64,
    actor: u8,
    seq: u32,
    event: &Event,
    reply: &Reply,
) -> Result<(), NoMemory>
    ensures appended { OnOk result (AddsWords text.old text.new
        (line_text n (entry_with actor seq event.now reply.now) ++ line_feed ∷ [])) }
    ensures front { OnErr result (KeepsFront text.old text.new) }
{
    if let Some(access) = long_access(event) {
        return push_long_line(text, n, actor, seq, event, reply, access);
    }
    push_short(text, n, actor, seq, event, reply)
}

/// Appends line `n` with its line feed. Lines count from 1.
#[inline]
pub fn push_line(text: &mut String, n: u64, entry: &Entry) -> Result<(), NoMemory>
    ensures appended { OnOk result (AddsWords text.old text.new
        (line_text n entry.now ++ line_feed ∷ [])) }
    ensures front { OnErr result (KeepsFront text.old text.new) }
{
    push_parts_line(text, n, entry.actor, entry.seq, &entry.event, &entry.reply)
}

/// Appends the line of an entry with its line feed, but without its number and the space after that. Where there is no
/// memory the bytes are as before.
#[inline]
pub fn push_unnumbered(bytes: &mut Vec<u8>, entry: &Entry) -> Result<(), NoMemory>
    ensures appended { OnOk result (bytes.new.items ≡ bytes.old.items ++ tail_line entry.now) }
    ensures same { OnErr result (bytes.new.items ≡ bytes.old.items) }
{
    if let Some(access) = long_access(&entry.event) {
        return push_long_unnumbered(bytes, entry, access);
    }
    let mut line = Tail::new();
    line.put(b"\n");
    put_unnumbered(
        &mut line,
        entry.actor,
        entry.seq,
        &entry.event,
        &entry.reply,
    );
    line.append_to(bytes)
}

/// Appends the same of a wide access of more than eight bytes.
#[inline(never)]
fn push_long_unnumbered(
    bytes: &mut Vec<u8>,
    entry: &Entry,
    access: &WideAccess,
) -> Result<(), NoMemory>
    requires event { entry.now.event ≡ Wide access.now }
    ensures appended { OnOk result (bytes.new.items ≡ bytes.old.items ++ tail_line entry.now) }
    ensures same { OnErr result (bytes.new.items ≡ bytes.old.items) }
{
    let mut text = String::new(*bytes.allocator());
    push_long_tail(&mut text, entry, access)?;
    text.push('\n')?;
    bytes.extend_from_slice(text.as_bytes())?;
    Ok(())
}

/// Appends the heading of a log of this version.
#[tactic(auto, unfolding(board_spec::specs::LogText::lines_text))]
pub fn push_heading(text: &mut String, version: u8) -> Result<(), NoMemory>
    ensures appended { OnOk result (AddsWords text.old text.new (log_text version [])) }
    ensures front { OnErr result (KeepsFront text.old text.new) }
{
    push_numbered(text, "access log ", version)?;
    text.push('\n')?;
    Ok(())
}

/// Appends the lines of a part of a history, the oldest entry first, numbered from `first` on.
pub fn push_lines(text: &mut String, first: u64, entries: &[Entry]) -> Result<(), NoMemory>
    requires fits { first + length entries.now ≤ 2 ^ 64 }
    ensures appended { OnOk result (AddsWords text.old text.new (lines_from first entries.now)) }
    ensures front { OnErr result (KeepsFront text.old text.new) }
{
    for (index, entry) in entries.iter().enumerate() {
        push_line(text, first + index as u64, entry)?;
    }
    Ok(())
}

/// Appends the log, of version 1 or 2, of a history whose oldest entry comes first.
pub fn push_log(text: &mut String, version: u8, entries: &[Entry]) -> Result<(), NoMemory>
    ensures appended { OnOk result (AddsWords text.old text.new (log_text version (reverse entries.now))) }
    ensures front { OnErr result (KeepsFront text.old text.new) }
{
    push_heading(text, version)?;
    push_lines(text, 1, entries)
}

/// Line `n` of the log, without its line feed. Lines count from 1.
pub fn log_line(alloc: Global, n: u32, entry: &Entry) -> Result<Line, NoMemory>
    ensures line { IfOk result (λ line. line ≡ line_text n entry.now) }
{
    let mut text = String::new(alloc);
    push_entry(&mut text, u64::from(n), entry)?;
    Ok(Line::new(text))
}
