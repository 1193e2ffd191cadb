//! A phase in which one processor acts. It does its statements at the board itself: there is no turn to wait for, and
//! no map to publish.

ghost use Rattle.std.specs.Prelude.{◌≡◌, ◌<◌, ℕ, List, All, Bool, false, length, IfOk, IfSome, OnOk};
ghost use Rattle.board_prelude.specs.{Entry as AnEntry};
ghost use Rattle.phase_threads.specs.Acts.{CanAct, HasActed};
ghost use Rattle.phase_threads.specs.Jobs.{AreTold, CanDoPhase, GrowsBy, HasNoLook, HasRun};

use crate::caller::Caller;
use crate::jobs::next_works;
use crate::run::Run;
use crate::worker::Work;
use board_base::{Kind, NoMemory};
use board_core::{Steps, UnrecordedBoard};
use board_outside::Gate;
use board_spec::{Entry, Event, Look, Reply, Statement};
use std::alloc::Global;
use std::collections::LinkedList;
use std::sync::Wait;

/// The board, in the hands of the one processor that acts.
#[derive(Drop)]
pub(crate) struct Alone {
    pub board: UnrecordedBoard,
    pub number: u8,
}

impl Caller for Alone {
    type Shared = ();

    type Fixed = LinkedList<Entry>;

    ghost use Rattle.std.specs.Prelude.{◌≤◌, length};
    ghost use Rattle.board_prelude.specs.{map_writes_of};
    ghost use Rattle.phase_threads.specs.Others.{others};

    ghost number = { λ alone. alone.number };

    ghost setup = { λ alone. alone.board.setup };

    ghost fixed = { λ alone. others alone.number alone.board.entries };

    ghost seen = { λ alone. alone.board.entries };

    ghost known = { λ alone. map_writes_of alone.board.setup alone.board.entries };

    ghost is_of = { λ _ alone. length (others alone.number alone.board.entries) ≤ 2_000_000 };

    fn number(&self) -> u8 {
        self.number
    }

    fn version(&self) -> u32 {
        self.board.map().version()
    }

    #[tactic(auto, using(crate::proofs::OneActs::both))]
    fn bus<R: Wait>(&mut self, _shared: &(), _rt: &R, event: &Event) -> Result<Reply, NoMemory> {
        self.board.reserve(1)?;
        let reply = self.board.step(self.number, event);
        Ok(reply)
    }

    fn look(&mut self, addr: u32, kind: Kind, smm: bool) -> Look {
        let map = self.board.map();
        let span = map.find(addr, kind, smm);
        Look {
            version: map.version(),
            lo: span.lo,
            hi: span.hi,
            area: span.area,
        }
    }
}

/// The processor that all statements of a phase are of, and 0 where there is none. None where they are of several.
pub(crate) fn only_actor(phase: &[Statement]) -> Option<u8>
    ensures only { IfSome result (λ actor. All (λ statement. statement.actor ≡ actor) phase.now) }
    ensures below { IfSome result (λ actor. (count : ℕ) → 0 < count
        → All (λ statement. statement.actor < count) phase.now → actor < count) }
{
    let Some(first) = phase.first() else {
        return Some(0);
    };
    let actor = first.actor;
    for statement in phase {
        if statement.actor != actor {
            return None;
        }
    }
    Some(actor)
}

/// Does all statements of a phase, which are of the processor with this work.
fn do_all<R: Wait, G: Gate>(
    rt: &R,
    alone: &mut Alone,
    works: &mut Vec<Work>,
    phase: &[Statement],
    gate: &G,
) -> Result<(), NoMemory>
    requires can { (keeps : Bool) × CanAct alone.old.number alone.old.board works.old.items keeps phase.now }
    ensures acted { (keeps : Bool) → CanAct alone.old.number alone.old.board works.old.items keeps phase.now
        → OnOk result (HasActed alone.old.number alone.old.board alone.new.board keeps phase.now works.old.items
        works.new.items) }
{
    works[usize::from(alone.number)].run(alone, &(), rt, phase, gate)
}

/// Runs a phase in which this is the only processor that acts: nothing is shared. Whether somebody looks in it says
/// whether what is done is kept.
pub(crate) fn run_alone<R: Wait, G: Gate>(
    rt: &R,
    alloc: Global,
    run: Run,
    actor: u8,
    phase: &[Statement],
    keeps: bool,
    gate: &G,
) -> Result<Run, NoMemory>
    requires can { CanDoPhase run phase.now }
    requires plain { keeps ≡ false → HasNoLook phase.now }
    requires only { All (λ statement. statement.actor ≡ actor) phase.now }
    requires below { actor < length run.works.items }
    ensures goes_on { IfOk result (GrowsBy phase.now run) }
    ensures run { IfOk result (λ next. (own : ℕ → List AnEntry) → AreTold own run.works.items
        → HasRun own run.board next.board phase.now next.works.items) }
{
    let Run { board, works } = run;
    let mut works = next_works(alloc, phase, keeps, works)?;
    let mut alone = Alone {
        board,
        number: actor,
    };
    do_all(rt, &mut alone, &mut works, phase, gate)?;
    let Alone {
        board,
        number: _number,
    } = alone;
    Ok(Run { board, works })
}
