//! The next line of a log: what it must be, and what stands after it.

ghost use Rattle.std.specs.Prelude.{◌≡◌, ◌≢◌, ◌++◌, ◌∷◌, [], ℕ, List, string_bytes, OnOk, MatchResult};
ghost use Rattle.board_prelude.specs.{line_feed, line_text, log_text};
ghost use Rattle.logs.specs.LinesFrom.{entry_with};
ghost use Rattle.log_check.specs.declared.fault.CheckFault.{CheckFault};

use crate::fault::CheckFault;
use board_base::NoMemory;
use board_spec::{Event, Reply};
use logs::{push_heading, push_parts_line};

/// Puts the heading of a log in place of a text, with its line feed.
pub(crate) fn print_heading(text: &mut String, version: u8) -> Result<(), NoMemory>
    ensures printed { OnOk result (string_bytes text.new ≡ log_text version []) }
{
    text.clear();
    push_heading(text, version)
}

/// Puts line `n` of the entry of these parts in place of a text, with its line feed.
pub(crate) fn print_line(
    text: &mut String,
    n: u32,
    actor: u8,
    seq: u32,
    event: &Event,
    reply: &Reply,
) -> Result<(), NoMemory>
    ensures printed { OnOk result (string_bytes text.new
        ≡ line_text n (entry_with actor seq event.now reply.now) ++ line_feed ∷ []) }
{
    text.clear();
    push_parts_line(text, u64::from(n), actor, seq, event, reply)
}

/// What stands after the line that was printed. Differs at this line exactly where the rest does not begin with it.
pub(crate) fn go_past<'a>(printed: &str, rest: &'a [u8], line: u32) -> Result<&'a [u8], CheckFault>
    ensures cases { MatchResult result (λ after. rest.now ≡ printed.now ++ after.now)
        (λ fault. (fault ≡ CheckFault.Differs line) × ((after : List ℕ) → rest.now ≢ printed.now ++ after)) }
{
    rest.strip_prefix(printed.as_bytes())
        .ok_or(CheckFault::Differs { line })
}
