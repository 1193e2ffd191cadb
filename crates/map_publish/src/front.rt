//! What was seen of a publisher's list: the map that the list opens with, and the changes after it.
ghost use Rattle.std.specs.Prelude.{◌≡◌, ◌≤◌, ◌<◌, ◌+◌, ◌++◌, ◌∷◌, [], length, None, IfSome, IsTrue, IsFalse};
ghost use mathlib.Core.List.{IsPrefix};
ghost use Rattle.board_spec.specs.Limits.{entry_limit};
ghost use Rattle.map_publish.specs.Fronts.{head_of};
ghost use Rattle.map_publish.specs.Lists.{changes_of};
ghost use Rattle.map_publish.specs.declared.mark.Mark.TheVariants.{Opened, Changed};

use crate::mark::Mark;
use board_spec::MapChange;
use logbook::{Gain, Offer, Plain, Play, Rule, Seen, Start, Word};
use map_builder::FlatMap;

/// The rule of the list: it only grows, and a word keeps its length.
pub struct ListRule;

impl Rule<Mark, u64> for ListRule {
    ghost use Rattle.std.specs.Prelude.{[]};
    ghost use base.Fml.{ftrue};
    ghost use Rattle.map_publish.specs.Fronts.{KeepsLength};

    ghost holds = { λ cells log. KeepsLength cells log };

    ghost first = { [] };

    ghost hinted = { λ n log. Unit {0} };

    ghost shows = { λ log. [] };

    ghost keeps = { λ names log. ftrue };

    ghost moves = { λ ask before after answer. Unit {0} };
}

/// What an addition brings beside its entry: nothing.
struct Nothing;

impl Gain<Mark, u64> for Nothing {
    ghost use base.Fml.{ftrue};

    ghost after = { λ names about answer. ftrue };
}

/// The step that adds an entry.
struct Add;

impl Play<Mark, u64> for Add {
    ghost use Rattle.map_publish.specs.Fronts.{AddsStep};

    ghost then = { AddsStep };
}

/// The entry that opens a list: a map.
struct Opens;

impl Plain<FlatMap, Mark, u64> for Opens {
    ghost use Rattle.std.specs.Prelude.{None};
    ghost use Rattle.map_publish.specs.declared.mark.Mark.TheVariants.{Opened};

    ghost ask = { λ map. Opened map };

    ghost state = { λ map. None };
}

/// The entry that is added for a change.
struct Changes;

impl Plain<MapChange, Mark, u64> for Changes {
    ghost use Rattle.std.specs.Prelude.{None};
    ghost use Rattle.map_publish.specs.declared.mark.Mark.TheVariants.{Changed};

    ghost ask = { λ change. Changed change };

    ghost state = { λ change. None };
}

type Listed = Seen<Mark, u64, ListRule>;

/// The entry that a step is to add. It takes no bytes.
type Asked = Offer<Mark, u64, ListRule, Nothing>;

/// The word that keeps the length of the list. Only the publisher has it.
pub(crate) type Head = Word<Mark, u64, ListRule>;

/// A beginning of the list, of at least the opened map. Only its length takes bytes.
#[derive(Drop)]
pub struct Front {
    pub count: u32,
    pub seen: Seen<Mark, u64, ListRule>,
    pub ghost counted: { count ≡ length seen.log },
    pub ghost begun: { length seen.log ≡ 1 + length (changes_of seen.log) },
}

/// Adds an entry to the list, and returns what was seen with that entry at its end. None, and no entry added, where the
/// list already has more than was seen.
fn added(seen: &Listed, count: u32, head: &Head, asked: Asked) -> Option<Listed>
    requires head { head.now ≡ head_of seen.now.book }
    requires count { count ≡ length seen.now.log }
    requires asked { (asked.names ≡ seen.now.names) × (asked.state ≡ None) }
    ensures added { IfSome result (λ all. (all.book ≡ seen.now.book) × (all.log ≡ seen.now.log ++ asked.ask ∷ [])) }
{
    let mut seen = seen.again();
    let mut asked = asked;
    let mut pen = seen.no_pen();
    let old = u64::from(count);
    let found = head.compare_exchange::<Add, Nothing>(
        old,
        old + 1,
        &mut seen,
        &mut asked,
        &mut pen,
    );
    if found == old { Some(seen) } else { None }
}

impl Front {
    /// A new list that opens with a map, and the word that keeps its length.
    pub(crate) fn open(map: &FlatMap) -> Option<(Head, Front)>
        ensures head { IfSome result (λ pair. pair.0 ≡ head_of pair.1.seen.book) }
        ensures opened { IfSome result (λ pair. pair.1.seen.log ≡ Opened map.now ∷ []) }
    {
        let (empty, mut first, _second) = Seen::open(Start::alone(), 0, 0);
        let head = Word::tracked(0, &mut first);
        let asked = empty.plain::<Nothing, FlatMap, Opens>(map);
        let seen = added(&empty, 0, &head, asked)?;
        Some((head, Front { count: 1, seen }))
    }

    /// An equal beginning.
    pub(crate) fn again(&self) -> Front
        ensures equal { result ≡ self.now }
    {
        Front {
            count: self.count,
            seen: self.seen.again(),
        }
    }

    /// Whether another beginning of the same list begins with this one.
    pub(crate) fn begins(&self, other: &Front) -> bool
        requires own { other.now.seen.book ≡ self.now.seen.book }
        ensures yes { IsTrue result → IsPrefix self.now.seen.log other.now.seen.log }
        ensures no { IsFalse result → length other.now.seen.log < length self.now.seen.log }
    {
        let mut both = self.seen.again();
        both.learn(&other.seen);
        self.count <= other.count
    }

    /// Adds a change to the list, and returns this beginning with the change at its end. None where the list already
    /// has more than this beginning.
    pub(crate) fn add(&self, head: &Head, change: &MapChange) -> Option<Front>
        requires head { head.now ≡ head_of self.now.seen.book }
        requires room { length self.now.seen.log ≤ entry_limit }
        ensures own { IfSome result (λ front. front.seen.book ≡ self.now.seen.book) }
        ensures added { IfSome result (λ front. front.seen.log ≡ self.now.seen.log ++ Changed change.now ∷ []) }
    {
        let asked = self.seen.plain::<Nothing, MapChange, Changes>(change);
        let seen = added(&self.seen, self.count, head, asked)?;
        Some(Front {
            count: self.count + 1,
            seen,
        })
    }
}
