//! The list of a copy's map, for the proofs alone.
ghost use Rattle.std.specs.Prelude.{◌≡◌, ◌++◌, ◌∷◌, []};
ghost use Rattle.map_publish.specs.declared.mark.Mark.TheVariants.{Opened, Changed};

use crate::mark::Mark;
use board_spec::MapChange;
use logbook::{Opening, Rule, Seen, Start};
use map_builder::FlatMap;

/// A rule that any list keeps.
pub struct AnyList;

impl Rule<Mark, u64> for AnyList {
    ghost use Rattle.std.specs.Prelude.{[]};
    ghost use base.Fml.{ftrue};

    ghost holds = { λ cells log. Unit {0} };

    ghost first = { [] };

    ghost hinted = { λ n log. Unit {0} };

    ghost shows = { λ log. [] };

    ghost keeps = { λ names log. ftrue };

    ghost moves = { λ ask before after answer. Unit {0} };
}

/// A list of marks. It takes no bytes.
pub type Marks = Seen<Mark, u64, AnyList>;

/// The opening of a list that has one mark, that of a map.
struct OfMap;

impl Opening<FlatMap, Mark> for OfMap {
    ghost log = { λ count map. Opened map ∷ [] };
}

/// The opening of a list that has the marks of another, and then the mark of a change.
struct WithChange;

impl Opening<(Marks, MapChange), Mark> for WithChange {
    ghost log = { λ count both. both.0.log ++ Changed both.1 ∷ [] };
}

/// The list of a map that is opened.
pub(crate) fn opened(map: &FlatMap) -> Marks
    ensures list { result.log ≡ Opened map.now ∷ [] }
{
    let (list, _pens) = Marks::open_row::<FlatMap, OfMap>(map, Start::alone(), 0);
    list
}

/// A list with a change added at its end.
pub(crate) fn grown(list: &Marks, change: &MapChange) -> Marks
    ensures list { result.log ≡ list.now.log ++ Changed change.now ∷ [] }
{
    let both = (list.again(), *change);
    let (list, _pens) = Marks::open_row::<(Marks, MapChange), WithChange>(&both, Start::alone(), 0);
    list
}
