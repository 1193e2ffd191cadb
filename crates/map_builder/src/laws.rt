//! Laws of the windows that a change covers, of their ends, and of how many rows it looks up. Each function does
//! nothing: its clause is the law.

ghost use Rattle.map_builder.specs.Laws.{WindowsHoldChanges, BoundsHoldChanges, RowsAreFew};
ghost use Rattle.map_builder.specs.Laws.{WindowsEndAtEdges};

/// An address outside the windows that a change covers keeps its areas.
#[tactic(auto, using(crate::proofs::KeptLemmas::windows_hold_changes))]
pub fn law_changed_windows()
    ensures kept { WindowsHoldChanges }
{}

/// An address outside the bounds of these windows keeps its areas.
#[tactic(auto, using(crate::proofs::KeptLemmas::bounds_hold_changes))]
pub fn law_changed_bounds()
    ensures kept { BoundsHoldChanges }
{}

/// The windows of PAM0 to PAM6 and of the registers of one byte begin at edges of the map, and end below edges.
#[tactic(auto, using(crate::proofs::BoundsLemmas::windows_end_at_edges))]
pub fn law_windows_end_at_edges()
    ensures ends { WindowsEndAtEdges }
{}

/// How many rows some changes of a board without cards look up at most.
#[tactic(auto, using(crate::proofs::SortedLemmas::rows_are_few))]
pub fn law_rows_of_changes()
    ensures few { RowsAreFew }
{}
