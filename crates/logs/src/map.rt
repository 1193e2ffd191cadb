//! The address map as text: a line for each of its ranges.

ghost use Rattle.std.specs.Prelude.{◌++◌, [], ◌∷◌, OnOk, OnErr};
ghost use Rattle.board_prelude.specs.{line_feed, areas_text, range_text};
ghost use Rattle.logs.specs.Adds.{AddsWords, KeepsFront};

use crate::reply::push_interval;
use crate::target::push_area;
use crate::words::push_words;
use board_base::{Area, NoMemory};

/// Appends an area after a space.
fn push_column(text: &mut String, area: Area) -> Result<(), NoMemory>
    ensures appended { OnOk result (AddsWords text.old text.new (areas_text (area ∷ []))) }
    ensures front { OnErr result (KeepsFront text.old text.new) }
{
    text.push(' ')?;
    push_area(text, area)
}

/// Appends areas, each after a space.
fn push_areas(text: &mut String, areas: &[Area; 6]) -> Result<(), NoMemory>
    ensures appended { OnOk result (AddsWords text.old text.new (areas_text areas.now)) }
    ensures front { OnErr result (KeepsFront text.old text.new) }
{
    for area in areas {
        push_column(text, *area)?;
    }
    Ok(())
}

/// Appends the line of a range of the map, with its line feed: its first and last address, and what a fetch, a read and
/// a write reach there outside SMM, and then in SMM.
#[tactic(auto, using(crate::proofs::Joined::joined_rules))]
pub fn push_range(text: &mut String, lo: u32, hi: u32, areas: &[Area; 6]) -> Result<(), NoMemory>
    ensures appended { OnOk result (AddsWords text.old text.new
        (range_text (record { lo = lo; hi = hi; areas = areas.now }) ++ line_feed ∷ [])) }
    ensures front { OnErr result (KeepsFront text.old text.new) }
{
    push_interval(text, lo, hi)?;
    push_areas(text, areas)?;
    push_words(text, "\n")
}
