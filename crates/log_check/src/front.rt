//! How far each processor is in a phase.

ghost use Rattle.std.specs.Prelude.{◌≡◌, ◌≢◌, ◌<◌, ℕ, [], ◌∷◌, drop, Some, IfSome, MatchOption};
ghost use Rattle.board_prelude.specs.{Setup, events_by};
ghost use Rattle.board_core.specs.Steps.{AreInRange};
ghost use Rattle.log_check.specs.Fronts.{left_of, IsNextOf};

use board_spec::Statement;
use board_spec::limits::ACTORS;

/// A phase, and for each processor the place from which its next statement is sought.
#[derive(Drop)]
pub(crate) struct Front<'a> {
    phase: &'a [Statement],
    places: [usize; ACTORS],
}

/// The place of a processor's first statement at this place of a phase or after it.
#[tactic(auto, using(crate::proofs::NextStatements::found))]
fn index_of_next(phase: &[Statement], from: usize, actor: u8) -> Option<usize>
    ensures place { MatchOption result (events_by actor (drop from phase.now) ≡ [])
        (λ place. IsNextOf phase.now from actor place) }
{
    for place in from..phase.len() {
        if phase[place].actor == actor {
            return Some(place);
        }
    }
    None
}

impl<'a> Front<'a> {
    /// A phase of which no statement is done.
    pub(crate) fn new(phase: &'a [Statement]) -> Front<'a>
        ensures phase { result.phase.now ≡ phase.now }
        ensures left { (actor : ℕ) → left_of result actor ≡ events_by actor phase.now }
    {
        Front {
            phase,
            places: [0; ACTORS],
        }
    }

    /// Takes the next statement of a processor. None where it has none left.
    pub(crate) fn next(&mut self, actor: u8) -> Option<&'a Statement>
        ensures phase { self.new.phase.now ≡ self.old.phase.now }
        ensures taken { MatchOption result (left_of self.old actor ≡ [])
            (λ statement. (statement.now.actor ≡ actor)
            × (left_of self.old actor ≡ statement.now.event ∷ left_of self.new actor)) }
        ensures others { (other : ℕ) → other ≢ actor → left_of self.new other ≡ left_of self.old other }
        ensures in_range { (setup : Setup) → AreInRange setup self.old.phase.now
            → IfSome result (λ statement. AreInRange setup (statement.now ∷ [])) }
    {
        let place = index_of_next(self.phase, self.places[usize::from(actor)], actor)?;
        self.places[usize::from(actor)] = place + 1;
        Some(&self.phase[place])
    }
}
