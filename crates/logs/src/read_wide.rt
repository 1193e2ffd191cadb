//! The parts of a wide access.

ghost use Rattle.std.specs.Prelude.{◌≡◌, ◌≤◌, ◌+◌, ◌^◌, length, IfSome, All, option_map};
ghost use Rattle.board_spec.specs.WideParts.{longest_at, parts_list};
ghost use Rattle.script_spec.specs.WellFormed.{FitsPart};
ghost use Rattle.script_spec.specs.Replies.{parse_last_parts, parse_more_parts, parse_parts, part_count, parse_part};

use crate::read_target::{parse_denial, parse_target};
use board_base::Width;
use board_spec::{Part, Parts};
use scripts::Fields;

/// What answered and denied one part.
#[tactic(auto, unfolding(script_spec::specs::Replies::parse_part))]
fn parse_part(target: &[u8], denial: &[u8]) -> Option<Part>
    ensures part { result ≡ parse_part target.now denial.now }
    ensures fits { IfSome result FitsPart }
{
    let target = parse_target(target)?;
    let denial = parse_denial(denial)?;
    Some(Part { target, denial })
}

/// Four parts, the last by its two words.
fn parse_four_parts(a: Part, b: Part, c: Part, target: &[u8], denial: &[u8]) -> Option<Parts>
    requires first { FitsPart a }
    requires second { FitsPart b }
    requires third { FitsPart c }
    ensures parts { result ≡ option_map (Parts.Four a b c) (parse_part target.now denial.now) }
    ensures fits { IfSome result (λ parts. All FitsPart (parts_list parts)) }
{
    let last = parse_part(target, denial)?;
    Some(Parts::Four(a, b, c, last))
}

/// The parts by the words after those of three.
#[tactic(auto, unfolding(script_spec::specs::Replies::parse_last_parts))]
fn parse_last_parts(a: Part, b: Part, c: Part, words: Fields<'_>) -> Option<Parts>
    requires first { FitsPart a }
    requires second { FitsPart b }
    requires third { FitsPart c }
    ensures parts { result ≡ parse_last_parts a b c words.entry }
    ensures fits { IfSome result (λ parts. All FitsPart (parts_list parts)) }
{
    let Some((target, words)) = words.next() else {
        return Some(Parts::Three(a, b, c));
    };
    let (denial, words) = words.next()?;
    words.end()?;
    parse_four_parts(a, b, c, target, denial)
}

/// The parts by the words after those of two.
#[tactic(auto, unfolding(script_spec::specs::Replies::parse_more_parts))]
fn parse_more_parts(a: Part, b: Part, words: Fields<'_>) -> Option<Parts>
    requires first { FitsPart a }
    requires second { FitsPart b }
    ensures parts { result ≡ parse_more_parts a b words.entry }
    ensures fits { IfSome result (λ parts. All FitsPart (parts_list parts)) }
{
    let Some((target, words)) = words.next() else {
        return Some(Parts::Two(a, b));
    };
    let (denial, words) = words.next()?;
    let third = parse_part(target, denial)?;
    parse_last_parts(a, b, third, words)
}

/// What answered two to four parts, in two words each.
#[tactic(auto, unfolding(script_spec::specs::Replies::parse_parts))]
pub(crate) fn parse_parts(words: Fields<'_>) -> Option<Parts>
    ensures parts { result ≡ parse_parts words.entry }
    ensures fits { IfSome result (λ parts. All FitsPart (parts_list parts)) }
{
    let (target, words) = words.next()?;
    let (denial, words) = words.next()?;
    let (other, words) = words.next()?;
    let (next, words) = words.next()?;
    let first = parse_part(target, denial)?;
    let second = parse_part(other, next)?;
    parse_more_parts(first, second, words)
}

/// How many parts there are.
pub(crate) fn parts_length(parts: &Parts) -> u32
    ensures count { result ≡ length (parts_list parts.now) }
{
    match *parts {
        Parts::Two(..) => 2,
        Parts::Three(..) => 3,
        Parts::Four(..) => 4,
    }
}

/// The longest of four, two and one bytes that is aligned at an address and not longer than what is left.
fn longest_at(addr: u64, left: u64) -> Width
    ensures width { result ≡ longest_at addr left }
{
    if addr % 4 == 0 && 4 <= left {
        return Width::Four;
    }
    if addr % 2 == 0 && 2 <= left {
        return Width::Two;
    }
    Width::One
}

/// How many aligned parts the bytes that are left from an address on make, at most `most`.
#[tactic(auto, unfolding(script_spec::specs::Replies::part_count))]
pub(crate) fn part_count(most: u32, addr: u64, left: u64) -> u32
    requires within { addr + left ≤ 2 ^ 33 }
    ensures count { result ≡ part_count most addr left }
    ensures few { result ≤ most }
{
    if most == 0 || left == 0 {
        return 0;
    }
    let bytes = u64::from(longest_at(addr, left).bytes());
    1 + part_count(most - 1, addr + bytes, left - bytes)
}
