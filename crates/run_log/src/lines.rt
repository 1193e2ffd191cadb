//! The lines of a processor's statements.

ghost use Rattle.std.specs.Prelude.{◌≡◌, ◌+◌, ◌<◌, ◌≤◌, ◌++◌, [], ◌∷◌, length, slice_index_or, List, ℕ, OnOk, OnErr};
ghost use Rattle.logs.specs.Numbered.{tail_line};
ghost use Rattle.run_log.specs.Cuts.{AreEnds, IsPart, cut_at};

use board_base::NoMemory;
use board_spec::Entry;
use logs::push_unnumbered;
use std::alloc::Global;
use std::marker::Model;

/// The room for a line. Most have fewer bytes.
const LINE_ROOM: usize = 64;

/// Lines of a log without their numbers, as one processor writes them. Contracts see the list, the first line first;
/// each line has its line feed.
#[derive(Drop)]
pub struct Lines {
    text: Vec<u8>,
    /// Where each line ends.
    ends: Vec<u32>,
}

impl Model for Lines {
    ghost use Rattle.std.specs.Prelude.{ℕ, List, length};
    ghost use Rattle.run_log.specs.Cuts.{AreEnds, cut_at};

    ghost Value = { List (List ℕ) };

    ghost view = { λ lines. cut_at 0 lines.ends.items lines.text.items };

    ghost invariant = { λ lines. AreEnds 0 lines.ends.items (length lines.text.items) };
}

/// Adds the end of the last line, where it is below 2^32 and there is memory.
fn push_end(ends: &mut Vec<u32>, end: usize) -> Result<(), NoMemory>
    ensures added { OnOk result (ends.new.items ≡ ends.old.items ++ end ∷ []) }
    ensures same { OnErr result (ends.new.items ≡ ends.old.items) }
{
    let Ok(end) = u32::try_from(end) else {
        return Err(NoMemory);
    };
    ends.push(end)?;
    Ok(())
}

/// Adds the line of an entry to a text, and its end to the ends of the lines in it.
#[inline(always)]
fn push_line(text: &mut Vec<u8>, ends: &mut Vec<u32>, entry: &Entry) -> Result<(), NoMemory>
    requires ends { AreEnds 0 ends.old.items (length text.old.items) }
    ensures added { OnOk result (cut_at 0 ends.new.items text.new.items
        ≡ cut_at 0 ends.old.items text.old.items ++ tail_line entry.now ∷ []) }
    ensures same { OnErr result (cut_at 0 ends.new.items text.new.items ≡ cut_at 0 ends.old.items text.old.items) }
    ensures ends { AreEnds 0 ends.new.items (length text.new.items) }
{
    let start = text.len();
    push_unnumbered(text, entry)?;
    match push_end(ends, text.len()) {
        Ok(()) => Ok(()),
        Err(fault) => {
            text.truncate(start);
            Err(fault)
        }
    }
}

/// Where line `i` starts: where the one before it ends.
#[inline(always)]
fn start_of(ends: &[u32], i: usize) -> usize
    requires within { i < length ends.now }
    ensures first { i ≡ 0 → result ≡ 0 }
    ensures later { (before : ℕ) → i ≡ before + 1 → result ≡ slice_index_or ends.now before 0 }
{
    if i == 0 {
        return 0;
    }
    ends[i - 1] as usize
}

/// Where line `i` starts and ends.
#[inline(always)]
fn bounds_of(ends: &[u32], i: usize) -> (usize, usize)
    requires within { i < length ends.now }
    ensures bounds { (text : List ℕ) → AreEnds 0 ends.now (length text)
        → IsPart 0 ends.now text i result.0 result.1 }
{
    (start_of(ends, i), ends[i] as usize)
}

/// Line `i` of a text whose lines end there.
#[inline(always)]
fn line_of<'a>(text: &'a [u8], ends: &[u32], i: usize) -> &'a [u8]
    requires within { i < length ends.now }
    requires ends { AreEnds 0 ends.now (length text.now) }
    ensures line { slice_index_or (cut_at 0 ends.now text.now) i [] ≡ result.now }
{
    let (start, end) = bounds_of(ends, i);
    &text[start..end]
}

impl Lines {
    /// No lines.
    pub fn new(alloc: Global) -> Lines
        ensures empty { result ≡ [] }
    {
        Lines {
            text: Vec::new(alloc),
            ends: Vec::new(alloc),
        }
    }

    /// Makes room for `n` more lines of the usual length.
    pub fn reserve(&mut self, n: usize) -> Result<(), NoMemory>
        ensures same { self.new ≡ self.old }
    {
        self.ends.reserve(n)?;
        self.text.reserve(n.saturating_mul(LINE_ROOM))?;
        Ok(())
    }

    /// Adds the line of an entry. Where there is no memory, or the lines would have 2^32 bytes, they are as before.
    pub fn push(&mut self, entry: &Entry) -> Result<(), NoMemory>
        ensures added { OnOk result (self.new ≡ self.old ++ tail_line entry.now ∷ []) }
        ensures same { OnErr result (self.new ≡ self.old) }
    {
        push_line(&mut self.text, &mut self.ends, entry)
    }

    /// Line `i`, counted from 0.
    #[inline(always)]
    pub(crate) fn line(&self, i: usize) -> &[u8]
        requires within { i < length self.now }
        ensures line { slice_index_or self.now i [] ≡ result.now }
    {
        line_of(&self.text, &self.ends, i)
    }
}
