//! What comes next in what a processor did.

ghost use Rattle.std.specs.Prelude.{◌≡◌, [], ◌∷◌, ◌+◌, ◌<◌, ◌≤◌, ℕ, List, length, IsFalse, IfSome, MatchOption};
ghost use Rattle.board_prelude.specs.{Entry, Saw, next_entry};
ghost use Rattle.board_spec.specs.declared.event.Event.TheVariants.{Look as LookAt};
ghost use Rattle.run_order.specs.Placing.{with_looks, left_after, without_first, noted};
ghost use Rattle.run_order.specs.Room.{looks_in};

use crate::done::Done;
use board_base::Kind;
use board_spec::Look;

/// A look that is due, and what its processor did after it.
#[derive(Clone, Copy)]
pub(crate) struct NextLook<'a> {
    pub kind: Kind,
    pub addr: u32,
    pub smm: bool,
    pub look: Look,
    pub after: &'a [Done],
}

/// What comes first, where it is a look of this version of the map or of one before.
#[tactic(auto, unfolding(crate::specs::Placing::with_looks, crate::specs::Placing::left_after))]
pub(crate) fn due_look(version: u32, done: &[Done]) -> Option<NextLook<'_>>
    ensures places { (actor : ℕ) (history : List Entry) → MatchOption result
        (with_looks version actor done.now history ≡ history)
        (λ next. with_looks version actor done.now history
        ≡ with_looks version actor next.after.now
        (next_entry history actor (LookAt next.kind next.addr next.smm) (Saw next.look) ∷ history)) }
    ensures left { MatchOption result (left_after version done.now ≡ done.now)
        (λ next. left_after version done.now ≡ left_after version next.after.now) }
    ensures shorter { IfSome result (λ next. length next.after.now + 1 ≡ length done.now) }
    ensures fewer { IfSome result (λ next. looks_in next.after.now + 1 ≡ looks_in done.now) }
{
    match done {
        [
            Done::Looked {
                kind,
                addr,
                smm,
                look,
            },
            after @ ..,
        ] => {
            let next = NextLook {
                kind: *kind,
                addr: *addr,
                smm: *smm,
                look: *look,
                after,
            };
            if_due(version, next)
        }
        _ => None,
    }
}

/// A look, where it is of this version of the map or of one before.
fn if_due(version: u32, next: NextLook<'_>) -> Option<NextLook<'_>>
    ensures due { MatchOption result (version < next.entry.look.version)
        (λ due. (next.entry.look.version ≤ version) × (due ≡ next.entry)) }
{
    if next.look.version <= version {
        Some(next)
    } else {
        None
    }
}

/// The version of the map after what comes first, where that went through the turn.
pub(crate) fn noted(version: u32, done: &[Done]) -> u32
    ensures noted { result ≡ noted version done.now }
{
    match done {
        [Done::Went { version, .. }, ..] => *version,
        _ => version,
    }
}

/// What comes after the first.
pub(crate) fn without_first(done: &[Done]) -> &[Done]
    ensures rest { result.now ≡ without_first done.now }
{
    match done {
        [_, after @ ..] => after,
        [] => done,
    }
}

/// Whether one is a look.
#[tactic(auto, using(crate::proofs::Counts::none_looked))]
pub(crate) fn has_look(done: &[Done]) -> bool
    ensures none { IsFalse result → looks_in done.now ≡ 0 }
{
    done.iter().any(|one| one_if_look(one) == 1)
}

/// How many looks there are.
pub(crate) fn looks_in(done: &[Done]) -> usize
    ensures count { result ≡ looks_in done.now }
{
    let mut count = 0;
    for one in done {
        count += one_if_look(one);
    }
    count
}

/// 1 for a look, and 0 for what went through the turn.
fn one_if_look(done: &Done) -> usize
    ensures count { result ≡ looks_in (done.now ∷ []) }
    ensures small { result ≤ 1 }
{
    match done {
        Done::Looked { .. } => 1,
        Done::Went { .. } => 0,
    }
}
