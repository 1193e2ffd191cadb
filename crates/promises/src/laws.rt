//! What one may expect of the headline itself. Each function does nothing: its clauses are laws.

ghost use Rattle.promises.specs.Laws.{AcceptedAreLogged, OneReplayLog, ReplaysAreAccepted, RunsAreAccepted};
ghost use Rattle.promises.specs.Laws.{GoodFilesAreDone, PlacesAreThoseOfRuns, SomeReplayLog, SomeRunLog};

use board_spec::laws::{law_lock, law_one_replay};
use script_spec::laws::{law_in_range, law_one_script};

/// Each script has a log of which the headline of `replay` holds, and only one.
pub fn law_replay_log()
    ensures some { SomeReplayLog }
    ensures one { OneReplayLog }
{
    law_one_replay();
    law_one_script();
    law_in_range();
    law_lock();
}

/// Each script has a log of which the headline of `run` holds.
pub fn law_run_log()
    ensures some { SomeRunLog }
{
    law_one_replay();
    law_in_range();
    law_lock();
}

/// The places of looks are those that `run` gives them.
pub fn law_places()
    ensures same { PlacesAreThoseOfRuns }
{}

/// What `replay` and `run` put is accepted by `check`; and it accepts just the logs of histories of which all holds that
/// the headline of `run` says, but for the places of the looks.
pub fn law_accepted()
    ensures replays { ReplaysAreAccepted }
    ensures runs { RunsAreAccepted }
    ensures accepted { AcceptedAreLogged }
{
    law_lock();
}

/// Of good files `replay` and `run` are to be done, and `check` exactly where it accepts the log.
pub fn law_done()
    ensures good { GoodFilesAreDone }
{
    law_one_script();
}
