//! The lines of all processors in the order of their entries, each with its number before it.

ghost use Rattle.std.specs.Prelude.{◌≡◌, ◌+◌, ◌-◌, ◌<◌, ◌≤◌, ◌++◌, List, ℕ, [], ◌∷◌, All, decimal, drop, length, take};
ghost use Rattle.std.specs.Prelude.{OnOk};
ghost use Rattle.board_prelude.specs.{Entry, space};
ghost use Rattle.logs.specs.LinesFrom.{lines_from};
ghost use Rattle.run_log.specs.Counts.{AreCountsOf};
ghost use Rattle.run_log.specs.Lines.{AreLinesOf};

use crate::lines::Lines;
use board_base::NoMemory;
use itoa::write_digits;

/// No number below 2^64 has more digits.
const MOST_DIGITS: usize = 20;

/// Appends a line with its number and a space before it.
#[inline(always)]
fn push_numbered(text: &mut Vec<u8>, n: u64, line: &[u8]) -> Result<(), NoMemory>
    ensures appended { OnOk result (text.new.items ≡ text.old.items ++ (decimal n ++ space ∷ line.now)) }
{
    let mut number = [b' '; MOST_DIGITS + 1];
    let start = write_digits(n, &mut number, MOST_DIGITS);
    text.extend_from_slice(&number[start..])?;
    text.extend_from_slice(line)?;
    Ok(())
}

/// Appends the lines of the entries from a place on, as far as another place. The processors of all entries are given,
/// and how many entries each has before the first place.
pub(crate) fn push_lines(
    text: &mut Vec<u8>,
    lines: &[Lines],
    order: &[u8],
    start: usize,
    end: usize,
    counts: &mut [usize],
) -> Result<(), NoMemory>
    requires lines { (entries : List Entry) × AreLinesOf lines.now order.now entries }
    requires order { start ≤ end }
    requires within { end ≤ length order.now }
    requires counts { AreCountsOf counts.old (take start order.now) }
    requires each { length counts.old ≡ length lines.now }
    ensures appended { (entries : List Entry) → AreLinesOf lines.now order.now entries
        → OnOk result (text.new.items ≡ text.old.items
        ++ lines_from (start + 1) (take (end - start) (drop start entries))) }
{
    for i in start..end {
        let actor = usize::from(order[i]);
        let place = counts[actor];
        counts[actor] = place + 1;
        push_numbered(text, i as u64 + 1, lines[actor].line(place))?;
    }
    Ok(())
}
