//! Texts of logs, and texts that are none.

ghost use Rattle.board_examples.specs.CheckedLogs.{NoEntries, NoSuchVersion, EmptyLog, EmptyLogDiffers, CutLogDiffers};
ghost use Rattle.board_examples.specs.CheckedLogs.{OpenLogDiffers, LongLogDiffers};

use crate::look_last;

/// A log of no entries in version 2.
#[tactic(auto, using(crate::proofs::CheckedLogRuns::texts))]
pub fn no_entries()
    ensures says { NoEntries }
{}

/// There is no version 3.
#[tactic(auto, using(crate::proofs::CheckedLogRuns::texts))]
pub fn no_such_version()
    ensures refused { NoSuchVersion }
{}

/// The empty file is no log.
#[tactic(auto, using(crate::proofs::CheckedLogRuns::texts))]
pub fn empty_log()
    ensures refused { EmptyLog }
{}

/// Logs that are too short for the script of the worked orders, and one that is too long.
#[tactic(auto, using(crate::proofs::CheckedLogRuns::differences))]
pub fn logs_that_differ()
    ensures empty { EmptyLogDiffers }
    ensures cut { CutLogDiffers }
    ensures open_line { OpenLogDiffers }
    ensures long { LongLogDiffers }
{
    look_last();
}
