//! The headline, of the board's commands.

ghost use Rattle.std.specs.Prelude.{◌≡◌, List, ℕ, map, string_bytes, Some};
ghost use Rattle.command_words.specs.Words.{Command, IsCommand, AreWordsOf};
ghost use Rattle.promises.specs.Accepted.{PutsText};

use board_commands::{Status, board};
use board_outside::{Gate, Shelf, Sink};
use std::alloc::Global;
use std::sync::Wait;
use std::thread::Threads;

/// Does the command that the words are. Where it is done, and shelf and sink say what they give and take, its text was
/// put.
pub fn board_with_headline<R: Threads + Wait + Sync, S: Shelf, K: Sink, G: Gate>(
    rt: &R,
    alloc: Global,
    words: &[String],
    shelf: &mut S,
    out: &mut K,
    gate: &G,
) -> Status
    ensures done { (command : Command) (files : List ℕ → List ℕ) (before now : List ℕ) → IsCommand command →
        AreWordsOf (map string_bytes words.now) command → result ≡ Status.Done → S.files shelf.old ≡ Some files →
        K.taken out.old ≡ Some before → K.taken out.new ≡ Some now → PutsText files command before now }
{
    board(rt, alloc, words, shelf, out, gate)
}
