//! The addresses whose row of DRAM a store to the row boundaries, DRB0 to DRB7, may change.
ghost use Rattle.std.specs.Prelude.{◌≡◌, ◌≤◌, ◌<◌, ◌*◌, ◌-◌, ◌⊎◌, ℕ, false, true, [], length, IfSome};
ghost use Rattle.board_prelude.specs.{list_all, list_any, boundary_unit};
ghost use Rattle.map_builder.specs.Changed.{IsOutside};
ghost use Rattle.map_builder.specs.Rows.{is_row_name, stores_rows as stores_rows_by, AreMoved, IsInRows, RowStays};
ghost use Rattle.map_builder.specs.Sorted.{sorted as sorted_by};

use crate::range::Changed;
use crate::windows::{Windows, joined, sort_into};
use addr_decode::MapRegister;
use board_spec::range::BOUNDARY_UNIT;

/// The row that ends at the top of DRAM.
const LAST_ROW: usize = 7;

/// Sets `chosen` to the windows in which the areas are looked up anew, in rising order: `windows`, which the change
/// covers; after a store to row boundaries alone (by the `names` of the registers) the least window of all addresses
/// whose row may change; none where the registers are known to keep what they hold (`kept`). What `chosen` held before
/// does not matter.
#[inline(always)]
pub fn choose_windows(
    chosen: &mut Windows,
    kept: bool,
    names: &[Option<MapRegister>],
    windows: &[Changed],
    old: &[u8; 8],
    new: &[u8; 8],
)
    requires count { length windows.now ≤ 64 }
    ensures none { kept ≡ true → chosen.new.items ≡ [] }
    ensures others { kept ≡ false → stores_rows_by names.now ≡ false → chosen.new.items ≡ sorted_by windows.now }
    ensures rows { kept ≡ false → stores_rows_by names.now ≡ true → AreMoved old.now new.now chosen.new.items }
{
    if kept {
        chosen.truncate(0);
    } else if stores_rows(names) {
        choose_moved(chosen, old, new);
    } else {
        sort_into(chosen, windows);
    }
}

/// Whether a change is a store to row boundaries and to no other register, by the names of those that it stores to.
fn stores_rows(names: &[Option<MapRegister>]) -> bool
    ensures rows { result ≡ stores_rows_by names.now }
{
    names_a_row(names) && names_rows_alone(names)
}

/// Whether one of these names is that of a row boundary.
fn names_a_row(names: &[Option<MapRegister>]) -> bool
    ensures any { result ≡ list_any is_row_name names.now }
{
    names.iter().any(|name| is_row_name(*name))
}

/// Whether each of these names is that of a row boundary.
fn names_rows_alone(names: &[Option<MapRegister>]) -> bool
    ensures all { result ≡ list_all is_row_name names.now }
{
    names.iter().all(|name| is_row_name(*name))
}

/// Whether a name is that of a row boundary.
fn is_row_name(name: Option<MapRegister>) -> bool
    ensures row { result ≡ is_row_name name }
{
    match name {
        Some(MapRegister::RowBoundary(_)) => true,
        _ => false,
    }
}

/// Sets `chosen` to the least window of all addresses whose row may change, or to none where there are none.
fn choose_moved(chosen: &mut Windows, old: &[u8; 8], new: &[u8; 8])
    ensures moved { AreMoved old.now new.now chosen.new.items }
{
    chosen.truncate(0);
    if let Some(window) = moved(old, new) {
        chosen.push(window);
    }
}

/// The least interval with all addresses whose row may change: those between the old boundary of a row and the new one,
/// unless they belong to an earlier row before and after, or lie above the top of DRAM before and after. None where
/// there are none.
fn moved(old: &[u8; 8], new: &[u8; 8]) -> Option<Changed>
    ensures within { IfSome result IsInRows }
    ensures beside { (addr : ℕ) → IfSome result (IsOutside addr) → RowStays old.now new.now addr }
{
    let top = old[LAST_ROW].max(new[LAST_ROW]);
    let mut moved = widened(None, old[LAST_ROW].min(new[LAST_ROW]), top);
    let mut hidden = 0;
    for row in 0..LAST_ROW {
        let first = old[row].min(new[row]);
        let end = old[row].max(new[row]);
        moved = widened(moved, first.max(hidden), end.min(top));
        hidden = hidden.max(first);
    }
    moved
}

/// The least interval with all of `interval` and the addresses between two boundaries, in units of 8 MiB. Where `first`
/// is not below `end` it is `interval`.
fn widened(interval: Option<Changed>, first: u8, end: u8) -> Option<Changed>
    ensures within { IfSome interval IsInRows → IfSome result IsInRows }
    ensures wider { (addr : ℕ) → IfSome result (IsOutside addr) → IfSome interval (IsOutside addr) }
    ensures between { (addr : ℕ) → IfSome result (IsOutside addr)
        → (addr < first * boundary_unit) ⊎ (end * boundary_unit ≤ addr) }
{
    if first < end {
        return Some(joined(between(first, end), interval));
    }
    interval
}

/// The addresses between two boundaries, in units of 8 MiB.
fn between(first: u8, end: u8) -> Changed
    requires order { first < end }
    ensures first { result.lo ≡ first * boundary_unit }
    ensures last { result.hi ≡ end * boundary_unit - 1 }
{
    Changed {
        lo: u32::from(first) * BOUNDARY_UNIT,
        hi: u32::from(end) * BOUNDARY_UNIT - 1,
    }
}
