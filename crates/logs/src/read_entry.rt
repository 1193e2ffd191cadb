//! A whole line: its number, the processor and the number of its entry, the event, and the reply.

ghost use Rattle.std.specs.Prelude.{◌≡◌, ℕ, IfSome, option_map};
ghost use Rattle.board_prelude.specs.{Entry, line_text};
ghost use Rattle.script_spec.specs.WellFormed.{IsWellFormed};
ghost use Rattle.script_spec.specs.Entries.{but_last, parse_pieces, parse_actor};

use crate::cuts::{cut, if_byte};
use crate::read_asked::parse_numbered_event;
use crate::read_reply::parse_reply_text;
use board_spec::Entry;
use scripts::parse_decimal;

/// What stands before the last byte.
fn but_last(text: &[u8]) -> &[u8]
    ensures front { result.now ≡ but_last text.now }
{
    match text {
        [front @ .., _] => front,
        [] => text,
    }
}

/// The processor, the statement with the number before it, and the reply with the space before it.
#[tactic(auto, unfolding(script_spec::specs::Entries::parse_pieces))]
fn parse_pieces(line: &[u8]) -> Option<(&[u8], &[u8], &[u8])>
    ensures pieces { option_map (λ p. record { actor = p.0.now; asked = p.1.now; replied = p.2.now }) result
        ≡ parse_pieces line.now }
{
    let (_, rest) = cut(b' ', line)?;
    let (actor, rest) = cut(b'.', rest)?;
    let (asked, replied) = cut(b'=', rest)?;
    Some((actor, but_last(asked), replied))
}

/// The processor, 0 to 255.
#[tactic(auto, unfolding(script_spec::specs::Entries::parse_actor))]
fn parse_actor(field: &[u8]) -> Option<u8>
    ensures actor { result ≡ parse_actor field.now }
{
    let actor = parse_decimal(field)?;
    if_byte(actor)
}

/// An entry that the log of a version, 1 or 2, can have, by its line `n A.S STATEMENT = REPLY`. If the line is that of
/// an entry, it is this one; it may be another line, as one with lower-case digits.
pub fn parse_entry(version: u8, line: &[u8]) -> Option<Entry>
    ensures formed { IfSome result (IsWellFormed version) }
    ensures found { (n : ℕ) (entry : Entry) → IsWellFormed version entry → line.now ≡ line_text n entry
        → result ≡ Some entry }
{
    let (actor, asked, replied) = parse_pieces(line)?;
    let actor = parse_actor(actor)?;
    let (seq, event) = parse_numbered_event(version, asked)?;
    let reply = parse_reply_text(&event, replied)?;
    Some(Entry {
        actor,
        seq,
        event,
        reply,
    })
}
