//! The summary of a history: thirteen lines with a number each.

ghost use Rattle.std.specs.Prelude.{◌≡◌, ◌++◌, ◌∷◌, [], List, length, OnOk, OnErr, reverse, flat_map, decimal};
ghost use Rattle.board_prelude.specs.{Setup, version_of, line_feed, Entry as AnEntry};
ghost use Rattle.script_spec.specs.Lines.{text_of_lines};
ghost use Rattle.logs.specs.Adds.{AddsWords, KeepsFront};
ghost use Rattle.make_script.specs.Summary.{entry_lines, map_lines, summary_of};
ghost use Rattle.make_script.specs.Counts.{AreCounts};

use crate::counts::Counts;
use access_history::Entries;
use board_base::NoMemory;
use logs::{push_decimal, push_words};

/// Appends the line of words and a number.
#[tactic(auto, using(logs::proofs::Joined::joined_rules))]
fn push_row(text: &mut String, words: &str, number: u64) -> Result<(), NoMemory>
    ensures appended { OnOk result (AddsWords text.old text.new (words.now ++ decimal number ++ line_feed ∷ [])) }
    ensures front { OnErr result (KeepsFront text.old text.new) }
{
    push_words(text, words)?;
    push_decimal(text, number)?;
    push_words(text, "\n")
}

/// Appends a line for each row of words and a number.
fn push_rows(text: &mut String, rows: &[(&str, u64)]) -> Result<(), NoMemory>
    ensures appended { OnOk result (AddsWords text.old text.new
        (flat_map (λ row. row.0.now ++ decimal row.1 ++ line_feed ∷ []) rows.now)) }
    ensures front { OnErr result (KeepsFront text.old text.new) }
{
    for row in rows {
        push_row(text, row.0, row.1)?;
    }
    Ok(())
}

/// The counts of a history whose oldest entry comes first.
fn counts_of(entries: &Entries<'_>) -> Counts
    ensures counts { AreCounts (reverse entries.now) result }
{
    let mut counts = Counts::new();
    for i in 0..entries.len() {
        counts = counts.with(&entries.entry(i));
    }
    counts
}

/// Appends the lines of a number of entries and of the counts.
#[tactic(auto, unfolding(crate::specs::Summary::entry_lines))]
fn push_counts(text: &mut String, count: u64, counts: Counts) -> Result<(), NoMemory>
    ensures appended { (history : List AnEntry) → count ≡ length history → AreCounts history counts
        → OnOk result (AddsWords text.old text.new (text_of_lines (entry_lines history))) }
    ensures front { OnErr result (KeepsFront text.old text.new) }
{
    let rows = [
        ("entries ", count),
        ("dram ", counts.dram),
        ("shadow ", counts.shadow),
        ("smram ", counts.smram),
        ("rom ", counts.rom),
        ("card ", counts.card),
        ("config ", counts.config),
        ("device ", counts.device),
        ("abort ", counts.abort),
        ("denied ", counts.denied),
        ("looks ", counts.looks),
    ];
    push_rows(text, &rows)
}

/// Appends the lines of the map.
#[tactic(auto, unfolding(crate::specs::Summary::map_lines))]
fn push_map_lines(text: &mut String, writes: u32, ranges: usize) -> Result<(), NoMemory>
    ensures appended { OnOk result (AddsWords text.old text.new (text_of_lines (map_lines writes ranges))) }
    ensures front { OnErr result (KeepsFront text.old text.new) }
{
    push_row(text, "mapwrites ", u64::from(writes))?;
    push_row(text, "ranges ", ranges as u64)
}

/// Appends the summary of a history whose oldest entry comes first, with the number of its map writes and that of
/// the ranges of its map.
pub fn push_summary(
    text: &mut String,
    entries: &Entries<'_>,
    map_writes: u32,
    ranges: usize,
) -> Result<(), NoMemory>
    ensures appended { (setup : Setup) → map_writes ≡ version_of setup (reverse entries.now)
        → OnOk result (AddsWords text.old text.new (summary_of setup (reverse entries.now) ranges)) }
    ensures front { OnErr result (KeepsFront text.old text.new) }
{
    push_counts(text, entries.len() as u64, counts_of(entries))?;
    push_map_lines(text, map_writes, ranges)
}
