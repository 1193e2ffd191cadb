//! The line of a wide access of more than eight bytes, which no processor makes: its values do not fit a `Tail`.

ghost use Rattle.std.specs.Prelude.{◌≡◌, [], ◌∷◌, ◌++◌, ◌≤◌, OnOk, OnErr, Option, MatchOption, flat_map, codes, decimal};
ghost use Rattle.board_prelude.specs.{space, Wide, is_write, kind_text, size_text, hex_long, look_text, parts_list};
ghost use Rattle.board_prelude.specs.{value_text, answered_text, written_text, smm_text, reply_text, line_text};
ghost use Rattle.logs.specs.Adds.{AddsWords, KeepsFront};
ghost use Rattle.logs.specs.Numbered.{tail_text};
ghost use Rattle.logs.specs.Tails.{HasShortValue};

use crate::hex::push_hex;
use crate::log::put_place;
use crate::reply::{put_answered, put_look, put_parts, widened};
use crate::statement::put_access_place;
use crate::tail::Tail;
use crate::words::{push_decimal, push_words};
use board_base::{Denial, NoMemory, Target, WideAccess};
use board_spec::{Entry, Event, Look, Parts, Reply};

/// A wide access if it is of more than eight bytes.
fn if_long(access: &WideAccess) -> Option<&WideAccess>
    ensures long { MatchOption result (access.now.bytes ≤ 8) (λ long. long.now ≡ access.now) }
{
    if access.bytes > 8 { Some(access) } else { None }
}

/// The wide access of more than eight bytes that an event is, if it is one.
pub(crate) fn long_access(event: &Event) -> Option<&WideAccess>
    ensures long { MatchOption result (HasShortValue event.now) (λ access. event.now ≡ Wide access.now) }
{
    match event {
        Event::Memory(_access) => None,
        Event::Wide(access) => if_long(access),
        Event::Port(_access) => None,
        _ => None,
    }
}

/// Appends the value of an access that writes, after a space, and nothing for one that reads.
fn push_written(text: &mut String, write: bool, bytes: u32, value: u64) -> Result<(), NoMemory>
    ensures appended { OnOk result (AddsWords text.old text.new (written_text write bytes value)) }
    ensures front { OnErr result (KeepsFront text.old text.new) }
{
    if !write {
        return Ok(());
    }
    text.push(' ')?;
    push_hex(text, bytes, value)
}

/// Appends the mark of system management mode.
fn push_smm(text: &mut String, smm: bool) -> Result<(), NoMemory>
    ensures appended { OnOk result (AddsWords text.old text.new (smm_text smm)) }
    ensures front { OnErr result (KeepsFront text.old text.new) }
{
    if smm {
        push_words(text, " smm")
    } else {
        Ok(())
    }
}

/// Appends the value of a reply, or `-` for none.
fn push_value(text: &mut String, bytes: u32, value: Option<u64>) -> Result<(), NoMemory>
    ensures appended { OnOk result (AddsWords text.old text.new (value_text bytes value)) }
    ensures front { OnErr result (KeepsFront text.old text.new) }
{
    match value {
        None => push_words(text, "-"),
        Some(value) => push_hex(text, bytes, value),
    }
}

/// Appends what answered and what denied it, each after a space.
fn push_answered(
    text: &mut String,
    target: &Target,
    denial: &Option<Denial>,
) -> Result<(), NoMemory>
    ensures appended { OnOk result (AddsWords text.old text.new (answered_text target.now denial.now)) }
    ensures front { OnErr result (KeepsFront text.old text.new) }
{
    let mut line = Tail::new();
    put_answered(&mut line, target, denial);
    line.push_onto(text)
}

/// Appends what answered the parts of a wide access.
fn push_parts(text: &mut String, parts: &Parts) -> Result<(), NoMemory>
    ensures appended { OnOk result (AddsWords text.old text.new
        (flat_map (λ part. answered_text part.target part.denial) (parts_list parts.now))) }
    ensures front { OnErr result (KeepsFront text.old text.new) }
{
    let mut line = Tail::new();
    put_parts(&mut line, parts);
    line.push_onto(text)
}

/// Appends what a look saw.
fn push_look(text: &mut String, look: Look) -> Result<(), NoMemory>
    ensures appended { OnOk result (AddsWords text.old text.new (look_text look)) }
    ensures front { OnErr result (KeepsFront text.old text.new) }
{
    let mut line = Tail::new();
    put_look(&mut line, look);
    line.push_onto(text)
}

/// Appends a reply.
#[tactic(auto, unfolding(board_spec::specs::LogText::reply_text))]
fn push_reply(text: &mut String, bytes: u32, reply: &Reply) -> Result<(), NoMemory>
    ensures appended { OnOk result (AddsWords text.old text.new (reply_text bytes reply.now)) }
    ensures front { OnErr result (KeepsFront text.old text.new) }
{
    match reply {
        Reply::Bus {
            value,
            target,
            denial,
        } => {
            push_value(text, bytes, widened(*value))?;
            push_answered(text, target, denial)
        }
        Reply::Parts { value, parts } => {
            push_value(text, bytes, *value)?;
            push_parts(text, parts)
        }
        Reply::Saw(look) => push_look(text, *look),
    }
}

/// Appends the processor and the number of its entry, and of a wide access the kind, the size and the address.
fn push_place(text: &mut String, entry: &Entry, access: &WideAccess) -> Result<(), NoMemory>
    ensures appended { OnOk result (AddsWords text.old text.new
        (decimal entry.now.actor ++ codes "." ++ decimal entry.now.seq ++ space
        ∷ kind_text access.now.kind ++ space ∷ size_text access.now.bytes ++ space ∷ hex_long access.now.addr)) }
    ensures front { OnErr result (KeepsFront text.old text.new) }
{
    let mut line = Tail::new();
    put_access_place(&mut line, access.kind, u32::from(access.bytes), access.addr);
    put_place(&mut line, entry.actor, entry.seq);
    line.push_onto(text)
}

/// Appends the value and the mark of system management mode of a wide access.
fn push_rest(text: &mut String, access: &WideAccess) -> Result<(), NoMemory>
    ensures appended { OnOk result (AddsWords text.old text.new
        (written_text (is_write access.now.kind) access.now.bytes access.now.value ++ smm_text access.now.smm)) }
    ensures front { OnErr result (KeepsFront text.old text.new) }
{
    push_written(
        text,
        access.kind.is_write(),
        u32::from(access.bytes),
        access.value,
    )?;
    push_smm(text, access.smm)
}

/// Appends a reply after its mark.
fn push_marked(text: &mut String, bytes: u32, reply: &Reply) -> Result<(), NoMemory>
    ensures appended { OnOk result (AddsWords text.old text.new (codes " = " ++ reply_text bytes reply.now)) }
    ensures front { OnErr result (KeepsFront text.old text.new) }
{
    push_words(text, " = ")?;
    push_reply(text, bytes, reply)
}

/// Appends the line of an entry whose event is this wide access, without its number and its line feed.
#[tactic(auto, unfolding(board_spec::specs::LogText::event_text, crate::specs::Numbered::tail_text))]
pub(crate) fn push_long_tail(
    text: &mut String,
    entry: &Entry,
    access: &WideAccess,
) -> Result<(), NoMemory>
    requires event { entry.now.event ≡ Wide access.now }
    ensures appended { OnOk result (AddsWords text.old text.new (tail_text entry.now)) }
    ensures front { OnErr result (KeepsFront text.old text.new) }
{
    push_place(text, entry, access)?;
    push_rest(text, access)?;
    push_marked(text, u32::from(access.bytes), &entry.reply)
}

/// Appends the number of a line, with a space after it.
fn push_number(text: &mut String, n: u64) -> Result<(), NoMemory>
    ensures appended { OnOk result (AddsWords text.old text.new (decimal n ++ space ∷ [])) }
    ensures front { OnErr result (KeepsFront text.old text.new) }
{
    push_decimal(text, n)?;
    text.push(' ')?;
    Ok(())
}

/// Appends line `n` of an entry whose event is this wide access, without its line feed.
pub(crate) fn push_long(
    text: &mut String,
    n: u64,
    entry: &Entry,
    access: &WideAccess,
) -> Result<(), NoMemory>
    requires event { entry.now.event ≡ Wide access.now }
    ensures appended { OnOk result (AddsWords text.old text.new (line_text n entry.now)) }
    ensures front { OnErr result (KeepsFront text.old text.new) }
{
    push_number(text, n)?;
    push_long_tail(text, entry, access)
}
