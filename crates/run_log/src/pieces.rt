//! A log is cut into pieces of the same number of lines, and their texts stand one after another.

ghost use Rattle.std.specs.Prelude.{◌≡◌, ◌++◌, ℕ, List, [], ◌+◌, ◌-◌, ◌*◌, ◌<◌, ◌≤◌, drop, length, take, reverse, OnOk, IfOk};
ghost use Rattle.board_prelude.specs.{Entry, log_text};
ghost use Rattle.logs.specs.LinesFrom.{lines_from};
ghost use Rattle.run_log.specs.Lines.{AreLinesOf};
ghost use Rattle.run_log.specs.Pieces.{ArePieces, IsPiece};

use crate::counts::counts_of;
use crate::join::push_lines;
use crate::lines::Lines;
use board_base::NoMemory;
use logs::{Text, push_heading};
use std::alloc::Global;
use std::thread::{Threads, map_indices};

/// A shorter log is not worth its threads.
const FEW: usize = 8192;

/// The room for a line with its number. Most have fewer bytes.
const LINE_ROOM: usize = 72;

/// The lines of the entries from a place on, as far as another place.
fn lines_between(
    alloc: Global,
    lines: &[Lines],
    order: &[u8],
    start: usize,
    end: usize,
) -> Result<Vec<u8>, NoMemory>
    requires lines { (entries : List Entry) × AreLinesOf lines.now order.now entries }
    requires order { start ≤ end }
    requires within { end ≤ length order.now }
    ensures lines { (entries : List Entry) → AreLinesOf lines.now order.now entries → IfOk result (λ text. text.items
        ≡ lines_from (start + 1) (take (end - start) (drop start entries))) }
{
    let mut counts = counts_of(alloc, lines.len(), &order[..start])?;
    let mut text = Vec::with_capacity(alloc, (end - start).saturating_mul(LINE_ROOM))?;
    push_lines(&mut text, lines, order, start, end, &mut counts)?;
    Ok(text)
}

/// The lines of piece `n`, counted from 0. Each piece has `size` lines, and the last may have fewer.
fn lines_of_piece(
    alloc: Global,
    lines: &[Lines],
    order: &[u8],
    size: usize,
    n: usize,
) -> Result<Vec<u8>, NoMemory>
    requires lines { (entries : List Entry) × AreLinesOf lines.now order.now entries }
    requires some { n * size < length order.now }
    ensures lines { (entries : List Entry) → AreLinesOf lines.now order.now entries → IsPiece size n entries result }
{
    let start = n * size;
    let count = size.min(order.len() - start);
    lines_between(alloc, lines, order, start, start + count)
}

/// The lines of all pieces, a thread each.
fn pieces_of<R: Threads + Sync>(
    rt: &R,
    alloc: Global,
    lines: &[Lines],
    order: &[u8],
    size: usize,
) -> Result<Vec<Result<Vec<u8>, NoMemory>>, NoMemory>
    requires size { 0 < size }
    requires lines { (entries : List Entry) × AreLinesOf lines.now order.now entries }
    ensures pieces { IfOk result (λ pieces. (entries : List Entry) → AreLinesOf lines.now order.now entries
        → ArePieces size entries pieces.items) }
    ensures all { IfOk result (λ pieces. length order.now ≤ length pieces.items * size) }
{
    let count = order.len().div_ceil(size);
    let pieces = map_indices(
        rt,
        alloc,
        count,
        &|n: usize| -> Result<Vec<u8>, NoMemory>
            requires { (n * size < length order.now)
                × ((entries : List Entry) × AreLinesOf lines.now order.now entries) }
            ensures { (entries : List Entry) → AreLinesOf lines.entry.now order.entry.now entries
                → IsPiece size n entries result }
        { lines_of_piece(alloc, lines, order, size, n) },
    )?;
    Ok(pieces)
}

/// Adds the lines of pieces, one piece after the other.
fn push_pieces(text: &mut Text, pieces: Vec<Result<Vec<u8>, NoMemory>>) -> Result<(), NoMemory>
    ensures added { (size : ℕ) (entries : List Entry) → ArePieces size entries pieces.items
        → OnOk result (text.new ≡ text.old ++ lines_from 1 (take (length pieces.items * size) entries)) }
{
    for piece in pieces {
        let lines = piece?;
        text.push_bytes(lines)?;
    }
    Ok(())
}

/// Adds all lines as one piece.
fn push_whole(text: &mut Text, alloc: Global, lines: &[Lines], order: &[u8]) -> Result<(), NoMemory>
    requires lines { (entries : List Entry) × AreLinesOf lines.now order.now entries }
    ensures added { (entries : List Entry) → AreLinesOf lines.now order.now entries
        → OnOk result (text.new ≡ text.old ++ lines_from 1 entries) }
{
    let piece = lines_between(alloc, lines, order, 0, order.len())?;
    text.push_bytes(piece)?;
    Ok(())
}

/// The heading of a log of this version.
fn heading(alloc: Global, version: u8) -> Result<Text, NoMemory>
    ensures text { IfOk result (λ text. text ≡ log_text version []) }
{
    let mut first = String::new(alloc);
    push_heading(&mut first, version)?;
    Text::whole(alloc, first)
}

/// The log of a run, of the lines that its processors wrote. `order` has the processor of each entry, that of the oldest
/// first. Of a long one as many threads put the lines together as there are workers, a piece each.
pub fn log_of_lines<R: Threads + Sync>(
    rt: &R,
    alloc: Global,
    workers: u8,
    version: u8,
    lines: &[Lines],
    order: &[u8],
) -> Result<Text, NoMemory>
    requires lines { (entries : List Entry) × AreLinesOf lines.now order.now entries }
    ensures text { (entries : List Entry) → AreLinesOf lines.now order.now entries
        → IfOk result (λ text. text ≡ log_text version (reverse entries)) }
{
    let len = order.len();
    let mut text = heading(alloc, version)?;
    if workers < 2 || len < FEW {
        push_whole(&mut text, alloc, lines, order)?;
        return Ok(text);
    }
    let size = len.div_ceil(usize::from(workers));
    let pieces = pieces_of(rt, alloc, lines, order, size)?;
    push_pieces(&mut text, pieces)?;
    Ok(text)
}
