//! The command `blame`: since which map write each range of the address map stands, and on which map writes it rests.

ghost use Rattle.std.specs.Prelude.{◌≡◌, ◌++◌, ◌≤◌, List, All, length, flat_map, IfOk, OnOk};
ghost use Rattle.board_prelude.specs.{Entry, Setup, range_text};
ghost use Rattle.logs.specs.Adds.{AddsWords};
ghost use Rattle.map_builder.specs.Map.{range_of};
ghost use Rattle.scripts.specs.Script.{said_of};
ghost use Rattle.command_texts.specs.Blame.{version_text, blamed_text, keep_text, IsBlameText};
ghost use Rattle.command_texts.specs.Fresh.{IsFreshFor};
ghost use Rattle.command_texts.specs.Writes.{AreWritesOf};

use crate::writes::{MapWrites, replay_noting};
use board_base::NoMemory;
use board_core::{Board, UnrecordedBoard};
use logs::{Text, push_decimal, push_range, push_words};
use map_blame::{BlameReport, Blamed, blame};
use map_builder::Range;
use scripts::Script;
use std::alloc::Global;

/// Appends the line of a range as `map` writes it, without its line feed.
fn push_range_words(text: &mut String, range: &Range) -> Result<(), NoMemory>
    ensures appended { OnOk result (AddsWords text.old text.new (range_text (range_of range.now))) }
{
    push_range(text, range.lo, range.hi, &range.row.areas)?;
    text.pop();
    Ok(())
}

/// Appends a version of the map, and the number of the entry that brought it there.
fn push_version(text: &mut String, writes: &MapWrites, version: u32) -> Result<(), NoMemory>
    requires version { version ≤ length writes.now.entries.items }
    ensures appended { (setup : Setup) (history : List Entry) → AreWritesOf setup history writes.now
        → OnOk result (AddsWords text.old text.new (version_text setup history version)) }
{
    push_decimal(text, u64::from(version))?;
    push_words(text, " ")?;
    push_decimal(text, u64::from(writes.entry_of(version)))?;
    push_words(text, "\n")
}

/// Appends the line of a range, with the version since which it stands.
fn push_blamed(text: &mut String, writes: &MapWrites, blamed: &Blamed) -> Result<(), NoMemory>
    requires version { blamed.now.since ≤ length writes.now.entries.items }
    ensures appended { (setup : Setup) (history : List Entry) → AreWritesOf setup history writes.now
        → OnOk result (AddsWords text.old text.new (blamed_text setup history blamed.now)) }
{
    push_range_words(text, &blamed.range)?;
    push_words(text, " ")?;
    push_version(text, writes, blamed.since)
}

/// Appends the line of a map write on which the map rests.
fn push_keep(text: &mut String, writes: &MapWrites, version: u32) -> Result<(), NoMemory>
    requires version { version ≤ length writes.now.entries.items }
    ensures appended { (setup : Setup) (history : List Entry) → AreWritesOf setup history writes.now
        → OnOk result (AddsWords text.old text.new (keep_text setup history version)) }
{
    push_words(text, "keep ")?;
    push_version(text, writes, version)
}

/// Appends the lines of ranges.
fn push_ranges(text: &mut String, writes: &MapWrites, ranges: &[Blamed]) -> Result<(), NoMemory>
    requires versions { All (λ blamed. blamed.since ≤ length writes.now.entries.items) ranges.now }
    ensures appended { (setup : Setup) (history : List Entry) → AreWritesOf setup history writes.now
        → OnOk result (AddsWords text.old text.new (flat_map (blamed_text setup history) ranges.now)) }
{
    for blamed in ranges {
        push_blamed(text, writes, blamed)?;
    }
    Ok(())
}

/// Appends the lines of the map writes on which the map rests.
#[tactic(auto, using(crate::proofs::TextLines::lines_more))]
fn push_keeps(text: &mut String, writes: &MapWrites, keep: &[u32]) -> Result<(), NoMemory>
    requires versions { All (λ version. version ≤ length writes.now.entries.items) keep.now }
    ensures appended { (setup : Setup) (history : List Entry) → AreWritesOf setup history writes.now
        → OnOk result (AddsWords text.old text.new (flat_map (keep_text setup history) keep.now)) }
{
    for version in keep {
        push_keep(text, writes, *version)?;
    }
    Ok(())
}

/// The text of `blame`, from its report.
fn report_text(alloc: Global, writes: &MapWrites, report: &BlameReport) -> Result<Text, NoMemory>
    requires ranges { All (λ blamed. blamed.since ≤ length writes.now.entries.items) report.now.ranges.items }
    requires keep { All (λ version. version ≤ length writes.now.entries.items) report.now.keep.items }
    ensures text { (setup : Setup) (history : List Entry) → AreWritesOf setup history writes.now
        → IfOk result (λ text. text ≡ flat_map (blamed_text setup history) report.now.ranges.items
        ++ flat_map (keep_text setup history) report.now.keep.items) }
{
    let mut text = String::new(alloc);
    push_ranges(&mut text, writes, &report.ranges)?;
    push_keeps(&mut text, writes, &report.keep)?;
    Text::whole(alloc, text)
}

/// The text of `blame`, from the replay of a script on its board.
fn blame_on(alloc: Global, board: &mut UnrecordedBoard, script: &Script) -> Result<Text, NoMemory>
    requires fresh { IsFreshFor (said_of script.now) board.old }
    ensures text { IfOk result (λ text. IsBlameText board.old.setup (said_of script.now) text) }
{
    let writes = replay_noting(alloc, board, script)?;
    let report = blame(alloc, &script.cards, &writes.changes)?;
    report_text(alloc, &writes, &report)
}

/// The address map after a script's replay on its board: each range with the map write since which it stands, and then
/// the map writes on which the map rests, each with its entry. The board keeps no history meanwhile.
pub fn blame_after_replay(alloc: Global, board: Board, script: &Script) -> Result<Text, NoMemory>
    requires fresh { IsFreshFor (said_of script.now) board }
    ensures text { IfOk result (λ text. IsBlameText board.setup (said_of script.now) text) }
{
    let mut board = UnrecordedBoard::new(alloc, board.into_replay());
    blame_on(alloc, &mut board, script)
}
