//! Totality, of the board's commands.

ghost use Rattle.std.specs.Prelude.{◌≡◌, ◌≢◌, ◌<◌, ◌≤◌, ◌+◌, ◌++◌, ◌↔◌, ◌⊎◌, List, ℕ, OnErr, OnOk, length, map};
ghost use Rattle.std.specs.Prelude.{string_bytes};
ghost use Rattle.std.specs.Prelude.{Some};
ghost use Rattle.board_spec.specs.Limits.{entry_limit};
ghost use Rattle.board_outside.specs.Outside.{Rose, Put};
ghost use Rattle.command_words.specs.Words.{Command, IsCommand, AreWordsOf};
ghost use Rattle.command_files.specs.Asked.{AsksFor};
ghost use Rattle.command_files.specs.declared.status.Which.{Which};
ghost use Rattle.command_files.specs.declared.status.Status.{Status as Ended};
ghost use Rattle.promises.specs.Totality.{AreNoCommand, Told, IsCause, Leaves, CanEndSo, ArePuts};

use board_base::NoMemory;
use board_commands::{Status, board};
use board_core::Board;
use board_outside::{Gate, Shelf, Sink};
use std::alloc::Global;
use std::sync::Wait;
use std::thread::Threads;

/// Does the command that the words are, over a shelf and a sink that may fail.
pub fn board_with_causes<R: Threads + Wait + Sync, S: Shelf, K: Sink, G: Gate>(
    rt: &R,
    alloc: Global,
    words: &[String],
    shelf: &mut S,
    out: &mut K,
    gate: &G,
) -> Status
    // It is Usage exactly where the words are no command, and nothing is put then.
    ensures usage { (result ≡ Status.Usage) ↔ AreNoCommand (map string_bytes words.now) }
    ensures usage_puts { (before now : List ℕ) → K.taken out.old ≡ Some before → K.taken out.new ≡ Some now →
        result ≡ Status.Usage → now ≡ before }
    // Each status comes only where its cause holds, and leaves a part of its text or nothing.
    ensures cause { (command : Command) (files : List ℕ → List ℕ) (before now : List ℕ) → IsCommand command →
        AreWordsOf (map string_bytes words.now) command → S.files shelf.old ≡ Some files →
        K.taken out.old ≡ Some before → K.taken out.new ≡ Some now →
        let told : Told = record {
          files = files;
          failed_name = S.failed_name shelf.new;
          read_faults_before = S.faults shelf.old;
          read_faults_now = S.faults shelf.new;
          put_faults_before = K.faults out.old;
          put_faults_now = K.faults out.new;
          before = before;
          now = now;
        } in IsCause command told result × Leaves command told result }
    // It comes where the words and the files ask for it, unless memory ran out or a fault rose; of the sink none
    // matters where the command is refused.
    ensures comes { (command : Command) (files : List ℕ → List ℕ) (wanted : Ended) → IsCommand command →
        AreWordsOf (map string_bytes words.now) command → S.files shelf.old ≡ Some files →
        AsksFor command files wanted → ¬ Rose (S.faults shelf.old) (S.faults shelf.new) →
        (wanted ≡ Status.Done → ¬ Rose (K.faults out.old) (K.faults out.new)) → (result ≡ wanted) ⊎ (result ≡ Status.NoMemory) }
    // Whatever the files are, it is one that the command can have.
    ensures possible { (command : Command) → IsCommand command → AreWordsOf (map string_bytes words.now) command →
        CanEndSo command result }
    // No fault is hidden.
    ensures read_faults { ((which : Which) → result ≢ Status.ReadFault which) →
        S.faults shelf.new ≡ S.faults shelf.old }
    ensures put_faults { result ≢ Status.WriteFault → K.faults out.new ≡ K.faults out.old }
    // Nothing is put before all else is done, nor after a put that was refused.
    ensures puts { (before now : List Put) → K.puts out.old ≡ Some before → K.puts out.new ≡ Some now →
        (made : List Put) × (now ≡ made ++ before) × ArePuts result made }
{
    board(rt, alloc, words, shelf, out, gate)
}

/// Makes room in a board's history. Where memory runs out the board is as before.
pub fn room_or_as_before(board: &mut Board, entries: u32) -> Result<(), NoMemory>
    requires few { length board.old.entries + entries < entry_limit }
    ensures as_before { OnErr result (board.new ≡ board.old) }
    ensures room { OnOk result ((board.new.setup ≡ board.old.setup) × (board.new.entries ≡ board.old.entries)
        × (entries ≤ board.new.spare)) }
{
    board.reserve(entries)
}
