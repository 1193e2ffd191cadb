//! Replays of a script on its board, and the texts of `map` and `check`.

ghost use Rattle.std.specs.Prelude.{◌≡◌, ◌∷◌, ◌++◌, ◌≤◌, ◌⊎◌, ℕ, [], Ok, Err, length, map, string_bytes, codes};
ghost use Rattle.std.specs.Prelude.{decimal, IfOk, IfErr, OnOk, OnErr};
ghost use Rattle.board_prelude.specs.{IsLegal, most_statements, log_text, IsReplayOf, IsBegunFor, line_feed, map_text};
ghost use Rattle.map_builder.specs.Map.{range_of};
ghost use Rattle.script_spec.specs.ScriptRange.{IsInRangeScript, statements_in};
ghost use Rattle.script_spec.specs.Checks.{IsLogOf, DiffersAt};
ghost use Rattle.scripts.specs.Script.{said_of};
ghost use Rattle.log_check.specs.declared.fault.CheckFault.{CheckFault};
ghost use Rattle.log_check.specs.Checked.{IsCheckedLog, StandsAfter};
ghost use Rattle.command_texts.specs.Done.{DidStatements};
ghost use Rattle.command_texts.specs.Fresh.{IsFreshFor};
ghost use Rattle.command_texts.specs.Replays.{IsMapText, IsLegalText};

use crate::plays::played;
use board_base::NoMemory;
use board_core::{Board, Steps, UnrecordedBoard};
use log_check::{CheckFault, statement_count};
use logs::{Text, log_alone, push_decimal, push_range, push_words};
use map_builder::Range;
use scripts::Script;
use std::alloc::Global;

/// Does the statements of a script in the order of its file, after what the board did before. One thread does all, and
/// waits for nobody. Refused for want of memory; then the board is as before.
pub(crate) fn do_statements(board: &mut Board, script: &Script) -> Result<(), NoMemory>
    requires in_range { IsInRangeScript (said_of script.now) }
    requires cards { board.old.setup.cards ≡ (said_of script.now).cards }
    requires before { length board.old.entries ≤ most_statements }
    ensures done { OnOk result (DidStatements board.old (statements_in (said_of script.now)) board.new) }
    ensures err { OnErr result (board.new ≡ board.old) }
{
    board.reserve(statement_count(&script.phases))?;
    for phase in &script.phases {
        board.steps(phase);
    }
    Ok(())
}

/// Does the statements of a script in the order of its file, on a fresh board with the script's cards. Refused for want
/// of memory; then the board is as before.
#[tactic(auto, using(crate::proofs::Done::replay_result, crate::proofs::Done::same_setup))]
pub fn replay_script(board: &mut Board, script: &Script) -> Result<(), NoMemory>
    requires fresh { IsFreshFor (said_of script.now) board.old }
    ensures replay { OnOk result (IsReplayOf board.old.setup (statements_in (said_of script.now)) board.new.entries) }
    ensures setup { board.new.setup ≡ board.old.setup }
    ensures err { OnErr result (board.new ≡ board.old) }
{
    do_statements(board, script)
}

/// Checks line by line whether bytes are the log of a legal and complete history of a script, on a fresh board of the
/// script, which may keep its history or not. Returns the number of entries, or the first line that no such log has
/// after the lines before it. The board does the statements of the lines before that one, and perhaps the statement of
/// that line too.
pub fn check_log<B: Steps>(
    alloc: Global,
    board: &mut B,
    script: &Script,
    bytes: &[u8],
) -> Result<u32, CheckFault>
    requires fresh { IsFreshFor (said_of script.now) (B.standing board.old) }
    ensures log { IfOk result (λ count. IsCheckedLog (B.standing board.old).setup (said_of script.now).version
        (said_of script.now).phases bytes.now (B.standing board.new).entries count) }
    ensures differs { (line : ℕ) → result ≡ Err (CheckFault.Differs line)
        → DiffersAt (B.standing board.old).setup (said_of script.now).version (said_of script.now).phases bytes.now
        line }
    ensures exactly { (log : IsLogOf (B.standing board.old).setup (said_of script.now).version (said_of script.now).phases bytes.now)
        → (result ≡ Ok (length log.history)) ⊎ (result ≡ Err CheckFault.NoMemory) }
    ensures setup { (B.standing board.new).setup ≡ (B.standing board.old).setup }
    ensures legal { IsLegal (B.standing board.new).setup (B.standing board.new).entries }
    ensures begun { IsBegunFor (said_of script.now).phases (B.standing board.new).entries }
    ensures stands { IfErr result (StandsAfter (said_of script.now).version bytes.now (B.standing board.new).entries) }
{
    log_check::check_log(alloc, board, script.version, &script.phases, bytes)
}

/// The log of all that a board did, in a version of the format.
pub(crate) fn log_of_board(alloc: Global, version: u8, board: &Board) -> Result<Text, NoMemory>
    ensures text { IfOk result (λ text. text ≡ log_text version board.now.entries) }
{
    log_alone(alloc, version, &board.history().entries())
}

/// Appends the lines of the ranges of a map.
fn push_map(text: &mut String, ranges: &[Range]) -> Result<(), NoMemory>
    ensures appended { OnOk result
        (string_bytes text.new ≡ string_bytes text.old ++ map_text (map range_of ranges.now)) }
{
    for range in ranges {
        push_range(text, range.lo, range.hi, &range.row.areas)?;
    }
    Ok(())
}

/// The lines of the ranges of a map.
fn text_of_map(alloc: Global, ranges: &[Range]) -> Result<Text, NoMemory>
    ensures text { IfOk result (λ text. text ≡ map_text (map range_of ranges.now)) }
{
    let mut text = String::new(alloc);
    push_map(&mut text, ranges)?;
    Text::whole(alloc, text)
}

/// The address map after a script's replay on its board.
pub fn map_after_replay(alloc: Global, board: Board, script: &Script) -> Result<Text, NoMemory>
    requires fresh { IsFreshFor (said_of script.now) board }
    ensures text { IfOk result (λ text. IsMapText board.setup (said_of script.now) text) }
{
    let replay = played(board, script);
    text_of_map(alloc, replay.map().ranges())
}

/// The text `legal` with a number of entries.
fn legal_text(alloc: Global, count: u32) -> Result<Text, NoMemory>
    ensures text { IfOk result (λ text. text ≡ codes "legal " ++ decimal count ++ line_feed ∷ []) }
{
    let mut text = String::new(alloc);
    push_words(&mut text, "legal ")?;
    push_decimal(&mut text, u64::from(count))?;
    push_words(&mut text, "\n")?;
    Text::whole(alloc, text)
}

/// How many entries a log has, where it is that of a legal and complete history of a script, by a board that keeps no
/// history meanwhile.
fn count_of_log(alloc: Global, board: Board, script: &Script, log: &[u8]) -> Result<u32, CheckFault>
    requires fresh { IsFreshFor (said_of script.now) board }
    ensures log { IfOk result (λ count. (log : IsLogOf board.setup (said_of script.now).version
        (said_of script.now).phases log.now) × (count ≡ length log.history)) }
    ensures differs { (line : ℕ) → result ≡ Err (CheckFault.Differs line)
        → DiffersAt board.setup (said_of script.now).version (said_of script.now).phases log.now line }
{
    let mut board = UnrecordedBoard::new(alloc, board.into_replay());
    check_log(alloc, &mut board, script, log)
}

/// The text `legal` with the number of a log's entries, where the log is that of a legal and complete history of a
/// script.
#[tactic(auto, using(std::proofs::lemmas::Bool::Decides::nat_tests))]
pub fn verdict_on_log(
    alloc: Global,
    board: Board,
    script: &Script,
    log: &[u8],
) -> Result<Text, CheckFault>
    requires fresh { IsFreshFor (said_of script.now) board }
    ensures text { IfOk result (λ text. IsLegalText board.setup (said_of script.now) log.now text) }
    ensures differs { (line : ℕ) → result ≡ Err (CheckFault.Differs line)
        → DiffersAt board.setup (said_of script.now).version (said_of script.now).phases log.now line }
{
    let count = count_of_log(alloc, board, script, log)?;
    let text = legal_text(alloc, count)?;
    Ok(text)
}
