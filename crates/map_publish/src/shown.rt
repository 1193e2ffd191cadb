//! What is published, and how a copy takes in what is published next.
ghost use Rattle.std.specs.Prelude.{◌≡◌, ◌<◌, ◌++◌, ◌∷◌, []};
ghost use Rattle.board_spec.specs.Limits.{entry_limit};
ghost use Rattle.map_publish.specs.Lists.{opened_of, changes_of, version_after, with_change, IsMapOfLog};
ghost use Rattle.map_publish.specs.Props.{IsMapAfter-prop};
ghost use Rattle.map_publish.specs.declared.mark.Mark.TheVariants.{Opened, Changed};

use crate::front::Front;
use crate::list::{Marks, grown, opened};
use crate::mark::Mark;
use board_spec::MapChange;
use board_spec::limits::ENTRY_LIMIT;
use left_right::Absorb;
use map_builder::FlatMap;
use std::alloc::AllocError;

/// A published copy: a map, the list of the changes that made it, and the same list in the form that viewers keep.
#[derive(Drop)]
pub struct Shown {
    pub map: FlatMap,
    pub list: Marks,
    pub front: Front,
    pub ghost is_map: { IsMapOfLog list.log map } by { IsMapAfter-prop (opened_of list.log) (changes_of list.log) map },
}

/// What is published next.
#[derive(Drop)]
pub enum Next {
    /// What is published already.
    Same,
    /// The map with a change made in it, and the list with the change at its end.
    Change(MapChange, Front),
}

impl Absorb<Next> for Shown {
    ghost use Rattle.map_publish.specs.Published.{applied};

    type State = ([Mark; 0], Front);

    ghost state = { λ shown. (shown.list.log, shown.front) };

    ghost applied = { applied };

    ghost never_fails = { Unit {0} };

    fn absorb_first(&mut self, next: &Next, _other: &Shown) -> Result<(), AllocError> {
        match next {
            Next::Same => Ok(()),
            Next::Change(change, front) => {
                self.take_in(change, front.again());
                Ok(())
            }
        }
    }
}

impl Shown {
    /// The first published copy of a map, with its list, which has no change yet.
    pub(crate) fn new(map: &FlatMap, front: &Front) -> Shown
        ensures list { result.list.log ≡ Opened map.now ∷ [] }
        ensures front { result.front ≡ front.now }
    {
        Shown {
            map: map.copy(),
            list: opened(map),
            front: front.again(),
        }
    }

    /// Takes in a change, and the list with the change at its end. A map that has had 4,000,000 changes stays as it is.
    fn take_in(&mut self, change: &MapChange, front: Front)
        ensures list { self.new.list.log ≡ with_change self.old.list.log change.now }
        ensures front { self.new.front ≡ front }
    {
        if self.map.version() < ENTRY_LIMIT {
            self.grow(change);
        }
        self.front = front;
    }

    /// Makes a change in the map.
    fn grow(&mut self, change: &MapChange)
        requires room { version_after self.old.list.log < entry_limit }
        ensures list { self.new.list.log ≡ self.old.list.log ++ Changed change.now ∷ [] }
        ensures front { self.new.front ≡ self.old.front }
    {
        self.map.apply(change);
        self.list = grown(&self.list, change);
    }
}
