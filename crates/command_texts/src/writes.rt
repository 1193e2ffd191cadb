//! The map writes of a replay, noted while its statements are done.

ghost use Rattle.std.specs.Prelude.{◌≡◌, ◌-◌, ◌++◌, ◌≤◌, ◌∷◌, [], List, length, IfOk, OnOk};
ghost use Rattle.board_prelude.specs.{Entry, Setup, IsInRange, IsReplayOf};
ghost use Rattle.board_core.specs.Steps.{AreInRange};
ghost use Rattle.script_spec.specs.ScriptRange.{statements_in};
ghost use Rattle.scripts.specs.Script.{said_of};
ghost use Rattle.command_texts.specs.Blame.{entry_of_version};
ghost use Rattle.command_texts.specs.Done.{DidStatements};
ghost use Rattle.command_texts.specs.Fresh.{IsFreshFor};
ghost use Rattle.command_texts.specs.Writes.{AreWritesOf};

use board_base::NoMemory;
use board_core::{Steps, UnrecordedBoard};
use board_spec::{MapChange, Statement};
use log_check::statement_count;
use scripts::Script;
use std::alloc::Global;

/// The map writes of a history, the oldest first.
#[derive(Drop)]
pub(crate) struct MapWrites {
    pub changes: Vec<MapChange>,
    /// The number of the entry that made each, counted from 1.
    pub entries: Vec<u32>,
}

impl MapWrites {
    /// The map writes of a history without entries: none.
    #[tactic(auto, using(std::proofs::lemmas::Bool::Decides::nat_tests), unfolding(board_spec::specs::MapWrites::map_writes_of))]
    fn new(alloc: Global) -> MapWrites
        ensures none { (setup : Setup) → AreWritesOf setup [] result }
    {
        MapWrites {
            changes: Vec::new(alloc),
            entries: Vec::new(alloc),
        }
    }

    /// Adds a map write and the number of its entry.
    fn add(&mut self, change: MapChange, entry: u32) -> Result<(), NoMemory>
        ensures change { OnOk result (self.new.changes.items ≡ self.old.changes.items ++ change ∷ []) }
        ensures entry { OnOk result (self.new.entries.items ≡ self.old.entries.items ++ entry ∷ []) }
    {
        self.changes.push(change)?;
        self.entries.push(entry)?;
        Ok(())
    }

    /// The number of the entry that brought the map to a version. 0 for version 0, which the map begins with.
    #[tactic(auto, using(crate::proofs::MapWrites::entry_of_first, std::proofs::lemmas::Bool::Decides::nat_tests))]
    pub fn entry_of(&self, version: u32) -> u32
        requires version { version ≤ length self.now.entries.items }
        ensures entry { (setup : Setup) (history : List Entry) → AreWritesOf setup history self.now
            → result ≡ entry_of_version setup history version }
    {
        match version {
            0 => 0,
            _ => self.entries[version as usize - 1],
        }
    }
}

/// Does a statement, and notes it where it is a map write.
fn step_noting(
    board: &mut UnrecordedBoard,
    writes: &mut MapWrites,
    statement: &Statement,
) -> Result<(), NoMemory>
    requires in_range { IsInRange board.old.setup statement.now.event }
    requires spare { 1 ≤ board.old.spare }
    requires writes { AreWritesOf board.old.setup board.old.entries writes.old }
    ensures done { OnOk result (DidStatements board.old (statement.now ∷ []) board.new) }
    ensures spare { OnOk result (board.new.spare ≡ board.old.spare - 1) }
    ensures writes { OnOk result (AreWritesOf board.new.setup board.new.entries writes.new) }
{
    let change = board.map_change(&statement.event);
    board.step(statement.actor, &statement.event);
    if let Some(change) = change {
        writes.add(change, board.count())?;
    }
    Ok(())
}

/// Does statements in their order, and notes the map writes among them.
#[tactic(auto, using(crate::proofs::Done::done_none, crate::proofs::Done::done_next))]
fn steps_noting(
    board: &mut UnrecordedBoard,
    writes: &mut MapWrites,
    statements: &[Statement],
) -> Result<(), NoMemory>
    requires in_range { AreInRange board.old.setup statements.now }
    requires spare { length statements.now ≤ board.old.spare }
    requires writes { AreWritesOf board.old.setup board.old.entries writes.old }
    ensures done { OnOk result (DidStatements board.old statements.now board.new) }
    ensures spare { OnOk result (board.new.spare ≡ board.old.spare - length statements.now) }
    ensures writes { OnOk result (AreWritesOf board.new.setup board.new.entries writes.new) }
{
    for statement in statements {
        step_noting(board, writes, statement)?;
    }
    Ok(())
}

/// Replays a script on its fresh board, and gives the map writes of the replay.
pub(crate) fn replay_noting(
    alloc: Global,
    board: &mut UnrecordedBoard,
    script: &Script,
) -> Result<MapWrites, NoMemory>
    requires fresh { IsFreshFor (said_of script.now) board.old }
    ensures replay { OnOk result (IsReplayOf board.old.setup (statements_in (said_of script.now)) board.new.entries) }
    ensures setup { OnOk result (board.new.setup ≡ board.old.setup) }
    ensures writes { IfOk result (λ writes. AreWritesOf board.new.setup board.new.entries writes) }
{
    let mut writes = MapWrites::new(alloc);
    board.reserve(statement_count(&script.phases))?;
    for phase in &script.phases {
        steps_noting(board, &mut writes, phase)?;
    }
    Ok(writes)
}
