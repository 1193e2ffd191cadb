//! A run that has ended.

ghost use Rattle.std.specs.Prelude.{◌≡◌, IfOk};
ghost use Rattle.board_prelude.specs.{log_text};
ghost use Rattle.phase_threads.specs.Ended.{HasEnded};
ghost use Rattle.phase_threads.specs.Placed.{entries_of};

use board_base::NoMemory;
use board_core::UnrecordedBoard;
use logs::Text;
use run_log::{Lines, log_of_lines};
use run_order::RunOrder;
use std::alloc::Global;
use std::marker::Model;
use std::thread::Threads;

/// A run that has ended. Contracts see the entries of its history, the newest first.
#[derive(Drop)]
pub struct EndedRun {
    board: UnrecordedBoard,
    /// The order of all entries, where somebody looked. Else it is the board's own.
    order: Option<RunOrder>,
    /// The lines of each processor's entries, from processor 0 on.
    lines: Vec<Lines>,
}

impl Model for EndedRun {
    ghost use Rattle.phase_threads.specs.Ended.{Ended, HasEnded};
    ghost use Rattle.phase_threads.specs.Placed.{entries_of};

    ghost Value = { Ended };

    ghost view = { λ run. record { entries = entries_of run.order run.board.entries } };

    ghost invariant = { λ run. HasEnded run.order run.board.entries run.lines.items };
}

impl EndedRun {
    /// The end of a run that led to this board. Its history is the board's, where it has no order of its own.
    pub(crate) fn new(
        board: UnrecordedBoard,
        order: Option<RunOrder>,
        lines: Vec<Lines>,
    ) -> EndedRun
        requires ended { HasEnded order board.entries lines.items }
        ensures entries { result.entries ≡ entries_of order board.entries }
    {
        EndedRun {
            board,
            order,
            lines,
        }
    }

    /// The log of its history, of version 1 or 2, which `workers` threads put together.
    pub fn log<R: Threads + Sync>(
        &self,
        rt: &R,
        alloc: Global,
        workers: u8,
        version: u8,
    ) -> Result<Text, NoMemory>
        ensures text { IfOk result (λ text. text ≡ log_text version self.now.entries) }
    {
        let Some(order) = &self.order else {
            let actors = self.board.actors();
            return log_of_lines(rt, alloc, workers, version, &self.lines, actors);
        };
        let actors = order.actors(alloc)?;
        log_of_lines(rt, alloc, workers, version, &self.lines, &actors)
    }
}
