//! The statements that scripts are mostly made of, read straight from the bytes of their line: an access or a look of a
//! processor with one digit, outside SMM. Any other line is cut into its fields.

ghost use Rattle.std.specs.Prelude.{◌≡◌, ◌≤◌, ◌∷◌, ◌++◌, false, Some, IfSome};
ghost use Rattle.script_spec.specs.Fields.{fields_of};
ghost use Rattle.script_spec.specs.Grammar.{HasForm};
ghost use Rattle.script_spec.specs.ScriptText.{is_skipped};
ghost use Rattle.script_spec.specs.Events.{parse_read};
ghost use Rattle.scripts.specs.Items.{asked_said};
ghost use Rattle.scripts.specs.Straight.{space, Asks};
ghost use Rattle.scripts.specs.declared.item.Asked.{Asked};

use crate::event::{in_event, look_event, out_event, read_event, write_event};
use crate::numbers::parse_decimal;
use board_base::Kind;
use board_spec::Event;

/// The digits of an address.
const ADDRESS: usize = 8;

/// The digits of a port.
const PORT: usize = 4;

/// The place of a verb in its line.
const VERB: usize = 2;

/// The place of the size after `w`.
const FIRST_SIZE: usize = 4;

/// The place of the size after `out`.
const SECOND_SIZE: usize = 6;

/// The first bytes of a text, and what stands after the space that follows them.
#[inline(always)]
fn cut_at(place: usize, text: &[u8]) -> Option<(&[u8], &[u8])>
    ensures cut { IfSome result (λ p. text.now ≡ p.0.now ++ space ∷ p.1.now) }
{
    if place < text.len() && text[place] == b' ' {
        Some((&text[..place], &text[place + 1..]))
    } else {
        None
    }
}

#[inline(always)]
fn first_if(first: u8, second: u8, rest: &[u8]) -> Option<(u8, &[u8])>
    ensures first { IfSome result (λ p. first ∷ second ∷ rest.now ≡ p.0 ∷ space ∷ p.1.now) }
{
    if second == b' ' {
        Some((first, rest))
    } else {
        None
    }
}

/// The one byte that a text begins with, and what stands after the space that follows it.
#[inline(always)]
fn first_of(text: &[u8]) -> Option<(u8, &[u8])>
    ensures first { IfSome result (λ p. text.now ≡ p.0 ∷ space ∷ p.1.now) }
{
    match text {
        [first, second, rest @ ..] => first_if(*first, *second, rest),
        _ => None,
    }
}

/// What stands after a verb and its space.
#[inline(always)]
fn after<'a>(verb: &[u8], words: &'a [u8]) -> Option<&'a [u8]>
    ensures rest { IfSome result (λ rest. words.now ≡ verb.now ++ rest.now) }
{
    words.strip_prefix(verb)
}

/// A read or a fetch, by the size and the address that end its line.
#[inline(always)]
fn straight_access(version: u8, kind: Kind, text: &[u8]) -> Option<Event>
    ensures event { IfSome result (λ event. parse_read version kind (fields_of text.now) ≡ Some event) }
{
    let (size, field) = first_of(text)?;
    read_event(version, kind, &[size], field, false)
}

#[tactic(auto, unfolding(script_spec::specs::Items::parse_statement_words, script_spec::specs::Items::parse_by_verb))]
#[inline(always)]
fn straight_read(version: u8, words: &[u8]) -> Option<Event>
    ensures event { IfSome result (Asks version words.now) }
{
    let text = after(b"r ", words)?;
    straight_access(version, Kind::Read, text)
}

#[tactic(auto, unfolding(script_spec::specs::Items::parse_statement_words, script_spec::specs::Items::parse_by_verb))]
#[inline(always)]
fn straight_fetch(version: u8, words: &[u8]) -> Option<Event>
    ensures event { IfSome result (Asks version words.now) }
{
    let text = after(b"f ", words)?;
    straight_access(version, Kind::Fetch, text)
}

#[tactic(auto, using(crate::proofs::StraightLemmas::straight), unfolding(script_spec::specs::Items::parse_statement_words, script_spec::specs::Items::parse_by_verb, script_spec::specs::Events::parse_write, script_spec::specs::Events::parse_smm, script_spec::specs::Events::write_event))]
#[inline(always)]
fn straight_write(version: u8, words: &[u8]) -> Option<Event>
    ensures event { IfSome result (Asks version words.now) }
{
    let text = after(b"w ", words)?;
    let (size, fields) = first_of(text)?;
    let (place, digits) = cut_at(ADDRESS, fields)?;
    write_event(version, &[size], place, digits, false)
}

#[tactic(auto, using(crate::proofs::StraightLemmas::straight), unfolding(script_spec::specs::Items::parse_statement_words, script_spec::specs::Items::parse_by_verb, script_spec::specs::Events::parse_in, script_spec::specs::Events::in_event))]
#[inline(always)]
fn straight_in(version: u8, words: &[u8]) -> Option<Event>
    ensures event { IfSome result (Asks version words.now) }
{
    let text = after(b"in ", words)?;
    let (letter, field) = first_of(text)?;
    in_event(&[letter], field)
}

#[tactic(auto, using(crate::proofs::StraightLemmas::straight), unfolding(script_spec::specs::Items::parse_statement_words, script_spec::specs::Items::parse_by_verb, script_spec::specs::Events::parse_out, script_spec::specs::Events::out_event))]
#[inline(always)]
fn straight_out(version: u8, words: &[u8]) -> Option<Event>
    ensures event { IfSome result (Asks version words.now) }
{
    let text = after(b"out ", words)?;
    let (letter, fields) = first_of(text)?;
    let (place, digits) = cut_at(PORT, fields)?;
    out_event(&[letter], place, digits)
}

#[tactic(auto, using(crate::proofs::StraightLemmas::straight), unfolding(script_spec::specs::Items::parse_statement_words, script_spec::specs::Items::parse_by_verb, script_spec::specs::Events::parse_look, script_spec::specs::Events::parse_smm, script_spec::specs::Events::look_event))]
#[inline(always)]
fn straight_look(version: u8, words: &[u8]) -> Option<Event>
    ensures event { IfSome result (Asks version words.now) }
{
    let text = after(b"look ", words)?;
    let (letter, field) = first_of(text)?;
    look_event(&[letter], field, false)
}

/// What a statement asks, by its words after the processor's number.
#[inline(always)]
fn straight_event(version: u8, words: &[u8]) -> Option<Event>
    ensures event { IfSome result (Asks version words.now) }
{
    let verb = words.first()?;
    match *verb {
        b'r' => straight_read(version, words),
        b'w' => straight_write(version, words),
        b'f' => straight_fetch(version, words),
        b'i' => straight_in(version, words),
        b'o' => straight_out(version, words),
        b'l' => straight_look(version, words),
        _ => None,
    }
}

/// How many digits the value of a write has, by the letter of its size.
#[inline(always)]
fn digits_of(letter: u8) -> usize
    ensures most { result ≤ 16 }
{
    match letter {
        b'b' => 2,
        b'w' => 4,
        b'd' => 8,
        _ => 16,
    }
}

/// Where the first line of a text ends if it is one that is read straight, by its verb and its size. It says nothing of
/// any other line.
#[inline(always)]
pub fn straight_end(text: &[u8]) -> usize
    ensures most { result ≤ 31 }
{
    if text.len() <= SECOND_SIZE {
        return 0;
    }
    match text[VERB] {
        b'r' => 14,
        b'f' => 14,
        b'w' => 15 + digits_of(text[FIRST_SIZE]),
        b'i' => 11,
        b'o' => 13 + digits_of(text[SECOND_SIZE]),
        b'l' => 17,
        _ => 0,
    }
}

/// The processor and the event of a statement that can be read straight. None says nothing of the line.
#[inline(always)]
pub fn parse_straight(version: u8, line: &[u8]) -> Option<(u32, Event)>
    ensures says { IfSome result (λ p. HasForm version line.now (asked_said p.0 (Asked.Event p.1))) }
    ensures read { IfSome result (λ p. is_skipped line.now ≡ false) }
{
    let (digit, words) = first_of(line)?;
    let actor = parse_decimal(&[digit])?;
    let event = straight_event(version, words)?;
    Some((actor, event))
}
