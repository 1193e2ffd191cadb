//! The lines of a text.

ghost use Rattle.std.specs.Prelude.{◌≡◌, ◌<◌, ◌≤◌, [], ◌∷◌, ◌++◌, length, IfSome, MatchOption};
ghost use Rattle.script_spec.specs.Lines.{lines_of};
ghost use Rattle.script_spec.specs.ScriptText.{IsVersion, first_line, BeginsBadly, is_skipped};
ghost use Rattle.scripts.specs.StraightLine.{IsStraight};

use crate::item::is_word;
use crate::straight::{parse_straight, straight_end};
use board_spec::Event;
use memchr::memchr;

/// What ends a line.
const LINE_FEED: u8 = b'\n';

/// The first line of these bytes, without its line feed, and the bytes after it. Where there are no
/// bytes there is no line.
#[inline(always)]
pub(crate) fn split_line(bytes: &[u8]) -> Option<(&[u8], &[u8])>
    ensures cases { MatchOption result (lines_of bytes.now ≡ [])
        (λ p. lines_of bytes.now ≡ p.0.now ∷ lines_of p.1.now) }
    ensures shorter { IfSome result (λ p. length p.1.now < length bytes.now) }
{
    if bytes.is_empty() {
        return None;
    }
    // An empty line needs no search.
    if bytes[0] == LINE_FEED {
        return Some((&[], &bytes[1..]));
    }
    match memchr(LINE_FEED, bytes) {
        Some(end) => Some((&bytes[..end], &bytes[end + 1..])),
        None => Some((bytes, &[])),
    }
}

/// What stands before a line feed at this place, and what stands after it.
#[inline(always)]
fn cut_at(place: usize, bytes: &[u8]) -> Option<(&[u8], &[u8])>
    ensures cut { IfSome result (λ p. bytes.now ≡ p.0.now ++ 0x0A ∷ p.1.now) }
    ensures short { IfSome result (λ p. length p.0.now ≤ place) }
{
    if place < bytes.len() && bytes[place] == b'\n' {
        Some((&bytes[..place], &bytes[place + 1..]))
    } else {
        None
    }
}

/// A line that was read straight: its bytes, those after its line feed, the processor and the event.
type Straight<'a> = (&'a [u8], &'a [u8], u32, Event);

/// The first line where it can be read straight. None says nothing of the line.
#[tactic(auto, using(std::proofs::lemmas::Bool::Decides::nat_tests))]
#[inline(always)]
fn straight_line<'a>(version: u8, bytes: &'a [u8]) -> Option<Straight<'a>>
    ensures cases { IfSome result (λ p. lines_of bytes.now ≡ p.0.now ∷ lines_of p.1.now) }
    ensures shorter { IfSome result (λ p. length p.1.now < length bytes.now) }
    ensures straight { IfSome result (λ p. IsStraight version p.0.now p.2 p.3) }
{
    let (line, rest) = cut_at(straight_end(bytes), bytes)?;
    let (actor, event) = parse_straight(version, line)?;
    Some((line, rest, actor, event))
}

/// A line, the bytes after it, and what it asks where it could be read straight.
type Next<'a> = (&'a [u8], &'a [u8], Option<(u32, Event)>);

/// The first line of these bytes, as `split_line` has it, without a search where it can be read straight.
#[inline(always)]
pub(crate) fn next_line<'a>(version: u8, bytes: &'a [u8]) -> Option<Next<'a>>
    ensures cases { MatchOption result (lines_of bytes.now ≡ [])
        (λ p. lines_of bytes.now ≡ p.0.now ∷ lines_of p.1.now) }
    ensures shorter { IfSome result (λ p. length p.1.now < length bytes.now) }
    ensures straight { IfSome result (λ p. IfSome p.2 (λ asked. IsStraight version p.0.now asked.0 asked.1)) }
{
    if let Some((line, rest, actor, event)) = straight_line(version, bytes) {
        return Some((line, rest, Some((actor, event))));
    }
    let (line, rest) = split_line(bytes)?;
    Some((line, rest, None))
}

/// The version that line 1 names, and the bytes after that line. None where it names none, or there is no line.
pub(crate) fn parse_first_line(bytes: &[u8]) -> Option<(u8, &[u8])>
    ensures cases { MatchOption result (BeginsBadly (lines_of bytes.now))
        (λ p. IsVersion p.0 × (lines_of bytes.now ≡ first_line p.0 ∷ lines_of p.1.now)) }
    ensures shorter { IfSome result (λ p. length p.1.now < length bytes.now) }
{
    let (line, rest) = split_line(bytes)?;
    if is_word(line, "board 1") {
        return Some((1, rest));
    }
    if is_word(line, "board 2") {
        return Some((2, rest));
    }
    None
}

/// Whether a line says nothing: it is empty or a comment.
pub(crate) fn is_skipped(line: &[u8]) -> bool
    ensures skipped { result ≡ is_skipped line.now }
{
    match line {
        [] => true,
        [first, ..] => *first == b'#',
    }
}
