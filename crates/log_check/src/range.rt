//! The numbers of statements are in the range of their types.

ghost use Rattle.std.specs.Prelude.{◌≡◌, ◌≤◌, All, length};
ghost use Rattle.board_prelude.specs.{most_statements, in_file_order};
ghost use Rattle.script_spec.specs.Phases.{lists_of};
ghost use Rattle.log_check.specs.Phases.{IsTyped};

use board_spec::{Event, Statement};

/// The processor of a statement and the address of a look fit their types. A contract has the range of a number behind
/// a reference only where the body reads it, so this reads both, for the proof alone.
fn fits(statement: &Statement)
    ensures typed { IsTyped statement.now }
{
    let _actor = statement.actor;
    if let Event::Look { addr, .. } = statement.event {
        let _addr = addr;
    }
}

/// The numbers of a phase fit their types. It reads each statement, for the proof alone.
fn phase_fits(phase: &[Statement])
    ensures typed { All IsTyped phase.now }
{
    for statement in phase {
        fits(statement);
    }
}

/// The numbers of all phases fit their types. It reads each statement of the script once and changes nothing: the
/// loop is there for the proof alone.
pub(crate) fn phases_fit(phases: &[Vec<Statement>])
    ensures typed { All IsTyped (in_file_order (lists_of phases.now)) }
{
    for phase in phases {
        phase_fits(phase);
    }
}

/// How many statements the phases have.
#[tactic(auto, using(crate::proofs::PhaseLists::few_so_far))]
pub fn statement_count(phases: &[Vec<Statement>]) -> u32
    requires few { length (in_file_order (lists_of phases.now)) ≤ most_statements }
    ensures count { result ≡ length (in_file_order (lists_of phases.now)) }
{
    let mut count = 0;
    for phase in phases {
        count += phase.len() as u32;
    }
    count
}
