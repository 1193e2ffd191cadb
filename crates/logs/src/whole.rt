//! The log of a history that a board keeps.

ghost use Rattle.std.specs.Prelude.{◌≡◌, reverse, OnOk, IfOk};
ghost use Rattle.board_prelude.specs.{log_text};
ghost use Rattle.logs.specs.Adds.{AddsWords};
ghost use Rattle.logs.specs.LinesFrom.{lines_from};

use crate::log::{push_heading, push_line};
use crate::text::Text;
use access_history::Entries;
use board_base::NoMemory;
use std::alloc::Global;

/// The room for a line. Most have fewer bytes.
const LINE_ROOM: usize = 64;

/// Appends the lines of the entries of a history.
fn push_entries(text: &mut String, entries: &Entries<'_>) -> Result<(), NoMemory>
    ensures appended { OnOk result (AddsWords text.old text.new (lines_from 1 entries.now)) }
{
    let count = entries.len();
    for i in 0..count {
        push_line(text, i as u64 + 1, &entries.entry(i))?;
    }
    Ok(())
}

/// The log of a history.
pub fn log_alone(alloc: Global, version: u8, entries: &Entries<'_>) -> Result<Text, NoMemory>
    ensures text { IfOk result (λ text. text ≡ log_text version (reverse entries.now)) }
{
    let mut text = String::with_capacity(alloc, entries.len().saturating_mul(LINE_ROOM))?;
    push_heading(&mut text, version)?;
    push_entries(&mut text, entries)?;
    Text::whole(alloc, text)
}
