//! The walk over a log, line by line, phase by phase.

ghost use Rattle.std.specs.Prelude.{◌≡◌, ◌+◌, ◌<◌, ◌≤◌, ◌++◌, ◌∷◌, ◌⊎◌, ℕ, [], List, All, length, Ok, Err, IfOk, IfErr};
ghost use Rattle.std.specs.Prelude.{OnOk, MatchResult};
ghost use Rattle.board_prelude.specs.{most_statements, IsLegal, log_text, IsBegunFor, IsCompleteFor, in_file_order};
ghost use Rattle.board_core.specs.Steps.{AreInRange};
ghost use Rattle.script_spec.specs.Checks.{IsLogOf, DiffersAt};
ghost use Rattle.script_spec.specs.Phases.{lists_of};
ghost use Rattle.log_check.specs.declared.fault.CheckFault.{CheckFault};
ghost use Rattle.log_check.specs.Counted.{AreNumbersOf};
ghost use Rattle.log_check.specs.Phases.{IsTyped};
ghost use Rattle.log_check.specs.Fronts.{left_of};
ghost use Rattle.log_check.specs.Checked.{IsCheckedLog, StandsAfter};
ghost use Rattle.log_check.specs.Walks.{WalkPlace, IsWithin, IsPast, StoppedCheck, FailedCheck};

use crate::fault::CheckFault;
use crate::field::processor;
use crate::front::Front;
use crate::line::{go_past, print_heading, print_line};
use crate::numbers::Numbers;
use crate::range::{phases_fit, statement_count};
use board_core::Steps;
use board_spec::Statement;
use board_spec::laws::law_one_replay;
use std::alloc::Global;

/// Does the statement whose entry the next line must be, and goes past the line.
fn check_line<'a, B: Steps>(
    board: &mut B,
    text: &mut String,
    numbers: &mut Numbers,
    front: &mut Front,
    rest: &'a [u8],
) -> Result<&'a [u8], CheckFault>
    requires spare { 1 ≤ (B.standing board.old).spare }
    requires few { length (B.standing board.old).entries < most_statements }
    requires numbers { AreNumbersOf numbers.old (B.standing board.old).entries }
    requires in_range { AreInRange (B.standing board.old).setup front.old.phase.now }
    requires typed { All IsTyped front.old.phase.now }
    ensures setup { (B.standing board.new).setup ≡ (B.standing board.old).setup }
    ensures phase { front.new.phase.now ≡ front.old.phase.now }
    ensures spare { OnOk result ((B.standing board.new).spare + 1 ≡ (B.standing board.old).spare) }
    ensures more { OnOk result
        (length (B.standing board.new).entries ≡ length (B.standing board.old).entries + 1) }
    ensures numbers { OnOk result (AreNumbersOf numbers.new (B.standing board.new).entries) }
    ensures walked { (place : WalkPlace)
        → IsWithin place front.old.phase.now (left_of front.old) (B.standing board.old).entries
        → IsPast place (B.standing board.old).entries rest.now → place.count < length front.old.phase.now
        → MatchResult result
        (λ after. IsWithin (record place { count = place.count + 1 }) front.old.phase.now (left_of front.new)
        (B.standing board.new).entries × IsPast place (B.standing board.new).entries after.now)
        (λ fault. StoppedCheck (B.standing board.old).setup place.version
        (place.done ++ front.old.phase.now ∷ place.later) place.bytes (B.standing board.new).entries fault) }
{
    let line = board.count() + 2;
    let Some(actor) = processor(line - 1, rest) else {
        return Err(CheckFault::Differs { line });
    };
    let Some(statement) = front.next(actor) else {
        return Err(CheckFault::Differs { line });
    };
    law_one_replay();
    let reply = board.step(statement.actor, &statement.event);
    let seq = numbers.next(statement.actor);
    print_line(
        text,
        line - 1,
        statement.actor,
        seq,
        &statement.event,
        &reply,
    )?;
    go_past(text, rest, line)
}

/// Goes past the lines of a phase.
#[tactic(auto, using(crate::proofs::LineSteps::check_phase_rules))]
fn check_phase<'a, B: Steps>(
    board: &mut B,
    text: &mut String,
    numbers: &mut Numbers,
    phase: &[Statement],
    rest: &'a [u8],
) -> Result<&'a [u8], CheckFault>
    requires spare { length phase.now ≤ (B.standing board.old).spare }
    requires few { length (B.standing board.old).entries + length phase.now ≤ most_statements }
    requires numbers { AreNumbersOf numbers.old (B.standing board.old).entries }
    requires in_range { AreInRange (B.standing board.old).setup phase.now }
    requires typed { All IsTyped phase.now }
    ensures setup { (B.standing board.new).setup ≡ (B.standing board.old).setup }
    ensures spare { OnOk result
        ((B.standing board.new).spare + length phase.now ≡ (B.standing board.old).spare) }
    ensures more { OnOk result
        (length (B.standing board.new).entries ≡ length (B.standing board.old).entries + length phase.now) }
    ensures numbers { OnOk result (AreNumbersOf numbers.new (B.standing board.new).entries) }
    ensures walked { (place : WalkPlace) → IsCompleteFor place.done (B.standing board.old).entries
        → IsPast place (B.standing board.old).entries rest.now
        → MatchResult result
        (λ after. IsCompleteFor (place.done ++ phase.now ∷ []) (B.standing board.new).entries
        × IsPast place (B.standing board.new).entries after.now)
        (λ fault. StoppedCheck (B.standing board.old).setup place.version
        (place.done ++ phase.now ∷ place.later) place.bytes (B.standing board.new).entries fault) }
{
    let mut front = Front::new(phase);
    let mut left = rest;
    for _ in 0..phase.len() {
        left = check_line(board, text, numbers, &mut front, left)?;
    }
    Ok(left)
}

/// Goes past the lines of all phases.
#[tactic(auto, using(crate::proofs::PhaseLists::few_so_far))]
fn check_phases<'a, B: Steps>(
    board: &mut B,
    text: &mut String,
    phases: &[Vec<Statement>],
    rest: &'a [u8],
) -> Result<&'a [u8], CheckFault>
    requires fresh { (B.standing board.old).entries ≡ [] }
    requires spare { length (in_file_order (lists_of phases.now)) ≤ (B.standing board.old).spare }
    requires few { length (in_file_order (lists_of phases.now)) ≤ most_statements }
    requires in_range { AreInRange (B.standing board.old).setup (in_file_order (lists_of phases.now)) }
    requires typed { All IsTyped (in_file_order (lists_of phases.now)) }
    ensures setup { (B.standing board.new).setup ≡ (B.standing board.old).setup }
    ensures few { OnOk result (length (B.standing board.new).entries ≤ most_statements) }
    ensures walked { (version : ℕ) (bytes : List ℕ) → bytes ≡ log_text version [] ++ rest.now
        → MatchResult result
        (λ after. IsCompleteFor (lists_of phases.now) (B.standing board.new).entries
        × (bytes ≡ log_text version (B.standing board.new).entries ++ after.now))
        (λ fault. StoppedCheck (B.standing board.old).setup version (lists_of phases.now) bytes
        (B.standing board.new).entries fault) }
{
    let mut numbers = Numbers::new();
    let mut left = rest;
    for phase in phases {
        left = check_phase(board, text, &mut numbers, phase, left)?;
    }
    Ok(left)
}

/// Goes past the heading and all lines, to the end. The board is fresh, with room for the statements.
fn check_lines<B: Steps>(
    alloc: Global,
    board: &mut B,
    version: u8,
    phases: &[Vec<Statement>],
    bytes: &[u8],
) -> Result<u32, CheckFault>
    requires fresh { (B.standing board.old).entries ≡ [] }
    requires spare { length (in_file_order (lists_of phases.now)) ≤ (B.standing board.old).spare }
    requires few { length (in_file_order (lists_of phases.now)) ≤ most_statements }
    requires in_range { AreInRange (B.standing board.old).setup (in_file_order (lists_of phases.now)) }
    requires typed { All IsTyped (in_file_order (lists_of phases.now)) }
    ensures setup { (B.standing board.new).setup ≡ (B.standing board.old).setup }
    ensures checked { MatchResult result
        (λ count. IsCheckedLog (B.standing board.old).setup version (lists_of phases.now) bytes.now
        (B.standing board.new).entries count)
        (λ fault. FailedCheck (B.standing board.old).setup version (lists_of phases.now) bytes.now
        (B.standing board.new).entries fault) }
{
    law_one_replay();
    let mut text = String::new(alloc);
    print_heading(&mut text, version)?;
    let rest = go_past(&text, bytes, 1)?;
    let rest = check_phases(board, &mut text, phases, rest)?;
    let count = board.count();
    if rest.is_empty() {
        Ok(count)
    } else {
        Err(CheckFault::Differs { line: count + 2 })
    }
}

/// Whether bytes are the log, in a version, of a legal and complete history of the phases of a script: the number of
/// its entries, or the first line that no such log has after the same lines. The board is fresh, and there are at most
/// 250,000 statements, each in range for the board. The board goes through the statements of the lines before the
/// named one, and perhaps through that of the named line.
#[tactic(auto, using(crate::proofs::LogChecks::nothing_begun, crate::proofs::LogChecks::begun_after))]
pub fn check_log<B: Steps>(
    alloc: Global,
    board: &mut B,
    version: u8,
    phases: &[Vec<Statement>],
    bytes: &[u8],
) -> Result<u32, CheckFault>
    requires fresh { (B.standing board.old).entries ≡ [] }
    requires in_range { AreInRange (B.standing board.old).setup (in_file_order (lists_of phases.now)) }
    requires few { length (in_file_order (lists_of phases.now)) ≤ most_statements }
    ensures log { IfOk result (λ count.
        IsCheckedLog (B.standing board.old).setup version (lists_of phases.now) bytes.now
        (B.standing board.new).entries count) }
    ensures differs { (line : ℕ) → result ≡ Err (CheckFault.Differs line)
        → DiffersAt (B.standing board.old).setup version (lists_of phases.now) bytes.now line }
    ensures exactly { (log : IsLogOf (B.standing board.old).setup version (lists_of phases.now) bytes.now)
        → (result ≡ Ok (length log.history)) ⊎ (result ≡ Err CheckFault.NoMemory) }
    ensures setup { (B.standing board.new).setup ≡ (B.standing board.old).setup }
    ensures legal { IsLegal (B.standing board.new).setup (B.standing board.new).entries }
    ensures begun { IsBegunFor (lists_of phases.now) (B.standing board.new).entries }
    ensures stands { IfErr result (λ fault. StandsAfter version bytes.now (B.standing board.new).entries fault) }
{
    phases_fit(phases);
    board.reserve(statement_count(phases))?;
    check_lines(alloc, board, version, phases, bytes)
}
