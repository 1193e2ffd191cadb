//! Lists of windows: their bounds, and the windows in rising order.
ghost use Rattle.std.specs.Prelude.{◌≡◌, ◌≤◌, ◌<◌, ◌+◌, ◌++◌, List, [], ◌∷◌, length, IfSome, IfNone};
ghost use Rattle.map_builder.specs.declared.range.Changed.{Changed};
ghost use Rattle.map_builder.specs.Bounds.{bounds, both as both_of, joined as joined_by};
ghost use Rattle.map_builder.specs.Windows.{with_window as with_one, sorted as sorted_by};

use crate::list::FixedList;
use crate::range::Changed;

/// Windows in rising order that do not overlap, with room for as many as a change can cover.
pub type Windows = FixedList<Changed, 64>;

/// The least first and the greatest last address of some windows. None where there is no window.
#[tactic(auto, unfolding(crate::specs::Bounds::bounds))]
pub fn bounds_of(windows: &[Changed]) -> Option<Changed>
    ensures bounds { result ≡ bounds windows.now }
{
    let mut bounds = None;
    for index in (0..windows.len()).rev() {
        bounds = Some(joined(windows[index], bounds));
    }
    bounds
}

/// The least interval with all of both, of which the second may be missing.
pub fn joined(here: Changed, there: Option<Changed>) -> Changed
    ensures joined { result ≡ joined_by here there }
{
    match there {
        Some(there) => both(here, there),
        None => here,
    }
}

/// The least interval with all of both.
fn both(here: Changed, there: Changed) -> Changed
    ensures both { result ≡ both_of here there }
{
    Changed {
        lo: here.lo.min(there.lo),
        hi: here.hi.max(there.hi),
    }
}

/// Sets `rising` to windows in rising order that do not overlap and have the addresses of these windows. What it held
/// before does not matter.
#[tactic(auto, using(crate::proofs::OneWindow::one_sorted), unfolding(crate::specs::Windows::sorted))]
pub fn sort_into(rising: &mut Windows, windows: &[Changed])
    requires count { length windows.now ≤ 64 }
    ensures sorted { rising.new.items ≡ sorted_by windows.now }
{
    rising.truncate(0);
    if windows.len() == 1 {
        rising.push(windows[0]);
        return;
    }
    for index in (0..windows.len()).rev() {
        add_window(rising, windows[index]);
    }
}

/// Adds a window to some in rising order that do not overlap: those that overlap it become one with it.
fn add_window(rising: &mut Windows, window: Changed)
    requires count { length rising.old.items < 64 }
    ensures windows { rising.new.items ≡ with_one window rising.old.items }
    ensures few { length rising.new.items ≤ length rising.old.items + 1 }
{
    let mut window = window;
    let mut kept = 0;
    for index in 0..rising.as_slice().len() {
        let other = rising.as_slice()[index];
        match in_order(window, other) {
            Some((lower, higher)) => {
                rising.set(kept, lower);
                kept += 1;
                window = higher;
            }
            None => window = both(other, window),
        }
    }
    rising.truncate(kept);
    rising.push(window);
}

/// The lower and the higher of two windows. None where they overlap.
#[tactic(auto, unfolding(crate::specs::Windows::with_window), using(std::proofs::lemmas::Bool::Decides::nat_tests, std::proofs::Common::append_assoc))]
fn in_order(window: Changed, other: Changed) -> Option<(Changed, Changed)>
    ensures apart { IfSome result (λ pair. (below later : List Changed)
        → (below ++ pair.0 ∷ []) ++ with_one pair.1 later ≡ below ++ with_one window (other ∷ later)) }
    ensures overlap { IfNone result ((below later : List Changed)
        → below ++ with_one (both_of other window) later ≡ below ++ with_one window (other ∷ later)) }
{
    if other.hi < window.lo {
        return Some((other, window));
    }
    if window.hi < other.lo {
        return Some((window, other));
    }
    None
}
