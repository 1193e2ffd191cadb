//! The run over the lines of a text.

ghost use Rattle.std.specs.Prelude.{◌≡◌, ◌<◌, ◌+◌, ◌^◌, ◌-◌, [], ◌∷◌, ℕ, List, length, IfOk, IfErr, IfSome, OnOk, Some};
ghost use Rattle.std.specs.Prelude.{None};
ghost use Rattle.script_spec.specs.Grammar.{Item as Said};
ghost use Rattle.script_spec.specs.Lines.{lines_of};
ghost use Rattle.script_spec.specs.ScriptText.{IsVersion, first_line, AreRead, IsBadLine, IsBadLater, IsScriptText};
ghost use Rattle.script_spec.specs.ScriptText.{IsScriptBad};
ghost use Rattle.script_spec.specs.ScriptRange.{IsInRangeScript};
ghost use Rattle.script_spec.specs.Items.{ask};
ghost use Rattle.script_spec.specs.Reasons.{least_reason};
ghost use Rattle.scripts.specs.Faults.{OnBad};
ghost use Rattle.scripts.specs.Reading.{IsReadingOf};
ghost use Rattle.scripts.specs.Script.{said_of};
ghost use Rattle.scripts.specs.StraightLine.{IsStraight};

use crate::fault::{Reason, ScriptFault};
use crate::item::{Asked, parse_item};
use crate::lines::{is_skipped, next_line, parse_first_line};
use crate::reading::Reading;
use crate::script::Script;
use board_spec::Event;
use std::alloc::Global;

/// The most bytes of a line after the first.
const MOST_BYTES: usize = 120;

/// The line after the first.
const SECOND: u32 = 2;

/// Reads a statement on the line with this number.
fn read_statement(
    number: u32,
    actor: u32,
    event: Event,
    reading: &mut Reading,
) -> Result<(), ScriptFault>
    requires before { (items : List Said) × IsReadingOf items reading.old }
    ensures read { OnOk result ((items : List Said) → IsReadingOf items reading.old
        → (least_reason items (ask actor event) ≡ None) × IsReadingOf (ask actor event ∷ items) reading.new) }
    ensures bad { IfErr result (λ fault. OnBad fault (λ place why. (place ≡ number)
        × ((items : List Said) → IsReadingOf items reading.old → least_reason items (ask actor event) ≡ Some why))) }
{
    match reading.validate_statement(actor, Asked::Event(event)) {
        Ok(statement) => {
            reading.take_statement(statement)?;
            Ok(())
        }
        Err(reason) => Err(ScriptFault::at(number, reason)),
    }
}

/// Reads one line after the first, which has this number.
fn read_line(
    alloc: Global,
    version: u8,
    number: u32,
    line: &[u8],
    reading: &mut Reading,
) -> Result<(), ScriptFault>
    requires version { IsVersion version }
    requires before { (items : List Said) × IsReadingOf items reading.old }
    ensures read { OnOk result ((items : List Said) → IsReadingOf items reading.old
        → (more : List Said) × IsReadingOf more reading.new × AreRead version items (line.now ∷ []) more) }
    ensures bad { IfErr result (λ fault. OnBad fault (λ place why. (place ≡ number)
        × ((items : List Said) → IsReadingOf items reading.old → IsBadLine version items line.now why))) }
{
    if line.len() > MOST_BYTES {
        return Err(ScriptFault::at(number, Reason::TooLong));
    }
    if is_skipped(line) {
        return Ok(());
    }
    let Some(item) = parse_item(version, line) else {
        return Err(ScriptFault::at(number, Reason::NoForm));
    };
    match reading.validate(version, item) {
        Ok(item) => {
            reading.take(alloc, item)?;
            Ok(())
        }
        Err(reason) => Err(ScriptFault::at(number, reason)),
    }
}

/// Reads one line after the first as `read_line` does, where what it asks may be known already.
#[tactic(auto, using(std::proofs::lemmas::Bool::Decides::nat_tests, crate::proofs::StraightLine::line_taken))]
#[inline(always)]
fn read_next(
    alloc: Global,
    version: u8,
    number: u32,
    line: &[u8],
    asked: Option<(u32, Event)>,
    reading: &mut Reading,
) -> Result<(), ScriptFault>
    requires version { IsVersion version }
    requires before { (items : List Said) × IsReadingOf items reading.old }
    requires straight { IfSome asked (λ known. IsStraight version line.now known.0 known.1) }
    ensures read { OnOk result ((items : List Said) → IsReadingOf items reading.old
        → (more : List Said) × IsReadingOf more reading.new × AreRead version items (line.now ∷ []) more) }
    ensures bad { IfErr result (λ fault. OnBad fault (λ place why. (place ≡ number)
        × ((items : List Said) → IsReadingOf items reading.old → IsBadLine version items line.now why))) }
{
    match asked {
        Some((actor, event)) => read_statement(number, actor, event, reading),
        None => read_line(alloc, version, number, line, reading),
    }
}

/// Reads the lines after the first.
fn read_later(alloc: Global, version: u8, bytes: &[u8]) -> Result<Script, ScriptFault>
    requires version { IsVersion version }
    requires short { length bytes.now + 2 < 2 ^ 32 }
    ensures said { IfOk result (λ script. (text : List ℕ) → lines_of text ≡ first_line version ∷ lines_of bytes.now
        → IsScriptText text (said_of script)) }
    ensures bad { IfErr result (λ fault. OnBad fault (IsBadLater (first_line version ∷ lines_of bytes.now))) }
{
    let mut reading = Reading::new(alloc);
    let mut number = SECOND;
    let mut rest = bytes;
    while let Some((line, after, asked)) = next_line(version, rest) {
        read_next(alloc, version, number, line, asked, &mut reading)?;
        number += 1;
        rest = after;
    }
    match reading.finish(version) {
        Ok(script) => Ok(script),
        Err(no_setup) => Err(ScriptFault::at(number, no_setup)),
    }
}

/// Reads a script. Bad at the first line that is not as it must be, for the least reason that holds; the end of the
/// text counts as the line after the last one. The line numbers fit, since there are fewer than 2^32 - 1 bytes.
pub fn read_script(alloc: Global, bytes: &[u8]) -> Result<Script, ScriptFault>
    requires { length bytes.now < 2 ^ 32 - 1 }
    ensures said { IfOk result (λ script. IsScriptText bytes.now (said_of script)) }
    ensures in_range { IfOk result (λ script. IsInRangeScript (said_of script)) }
    ensures bad { IfErr result (λ fault. OnBad fault (IsScriptBad bytes.now)) }
{
    let Some((version, rest)) = parse_first_line(bytes) else {
        return Err(ScriptFault::at(1, Reason::NoVersion));
    };
    read_later(alloc, version, rest)
}
