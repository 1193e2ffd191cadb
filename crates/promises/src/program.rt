//! The headline and totality, of the whole program: against models of the command line, files and outputs.

ghost use Rattle.std.specs.Prelude.{◌≡◌, ◌≢◌, ◌++◌, ◌∷◌, ◌⊎◌, [], All, IsUtf8, List, ℕ, None, Some};
ghost use Rattle.std.specs.Process.{exit_status};
ghost use Rattle.board_spec.specs.Text.{line_feed};
ghost use Rattle.board_outside.specs.Outside.{Rose};
ghost use Rattle.command_words.specs.Words.{Command, IsCommand, AreWordsOf};
ghost use Rattle.command_files.specs.Asked.{AsksFor};
ghost use Rattle.command_files.specs.FaultText.{text_of};
ghost use Rattle.command_files.specs.Status.{code_of};
ghost use Rattle.command_files.specs.declared.status.Status.{Status};
ghost use Rattle.board_main.specs.Own.{own_of};
ghost use Rattle.promises.specs.Accepted.{PutsText};
ghost use Rattle.promises.specs.Totality.{AreNoCommand, Told, IsCause, Leaves, CanEndSo, WritesFront};

use board_files::OutSink;
use board_main::{CommandLine, run_program};
use board_outside::Shelf;
use std::io::Write;
use std::process::ExitCode;
use std::sync::Wait;
use std::thread::Threads;

/// Does what the words of a command line ask for. Where they are a command and the exit code is 0, its text was
/// written.
pub fn program_with_headline<R, L, S, W, E>(
    rt: &R,
    line: &L,
    shelf: &mut S,
    out: &mut OutSink<W>,
    errors: &mut OutSink<E>,
) -> ExitCode
where
    R: AllocGlobal + Threads + Wait + Sync,
    L: CommandLine,
    S: Shelf,
    W: Write,
    E: Write,
    ensures done { (words : List (List ℕ)) (command : Command) (files : List ℕ → List ℕ) (before now : List ℕ) →
        L.given line.now ≡ Some words → IsCommand command → AreWordsOf words command → exit_status result ≡ 0 →
        S.files shelf.old ≡ Some files → W.contents out.old.out ≡ Some before → W.contents out.new.out ≡ Some now →
        PutsText files command before now }
{
    run_program(rt, line, shelf, out, errors)
}

/// Does what the words of a command line ask for, over files and outputs that may fail.
pub fn program_with_causes<R, L, S, W, E>(
    rt: &R,
    line: &L,
    shelf: &mut S,
    out: &mut OutSink<W>,
    errors: &mut OutSink<E>,
) -> ExitCode
where
    R: AllocGlobal + Threads + Wait + Sync,
    L: CommandLine,
    S: Shelf,
    W: Write,
    E: Write,
    // The exit code is that of a status whose cause holds.
    ensures cause { (words : List (List ℕ)) (command : Command) (files : List ℕ → List ℕ) (before now : List ℕ) →
        L.given line.now ≡ Some words → All IsUtf8 words → IsCommand command → AreWordsOf words command →
        S.files shelf.old ≡ Some files → W.contents out.old.out ≡ Some before → W.contents out.new.out ≡ Some now →
        let told : Told = record {
          files = files;
          failed_name = S.failed_name shelf.new;
          read_faults_before = S.faults shelf.old;
          read_faults_now = S.faults shelf.new;
          put_faults_before = out.old.faults;
          put_faults_now = out.new.faults;
          before = before;
          now = now;
        } in (status : Status) × (exit_status result ≡ code_of status) × IsCause command told status
        × Leaves command told status }
    // It is that of the status for which the words and the files ask, unless memory ran out or a fault rose; of the
    // output none matters where the command is refused.
    ensures comes { (words : List (List ℕ)) (command : Command) (files : List ℕ → List ℕ) (wanted : Status) →
        L.given line.now ≡ Some words → All IsUtf8 words → IsCommand command → AreWordsOf words command →
        S.files shelf.old ≡ Some files → AsksFor command files wanted →
        ¬ Rose (S.faults shelf.old) (S.faults shelf.new) →
        (wanted ≡ Status.Done → ¬ Rose out.old.faults out.new.faults) →
        (exit_status result ≡ code_of wanted) ⊎ (exit_status result ≡ 8) }
    // Whatever the files are, it is that of a status that the command can have.
    ensures possible { (words : List (List ℕ)) (command : Command) → L.given line.now ≡ Some words →
        All IsUtf8 words → IsCommand command → AreWordsOf words command →
        (status : Status) × (exit_status result ≡ code_of status) × CanEndSo command status }
    // No fault is hidden: where one rose it is 2 or 3.
    ensures read_faults { exit_status result ≢ 2 → S.faults shelf.new ≡ S.faults shelf.old }
    ensures put_faults { exit_status result ≢ 3 → out.new.faults ≡ out.old.faults }
    // It is 1 only where a word is not UTF-8, or the words are neither a command nor the program's own; and there it is
    // 1, or 8 for want of memory.
    ensures usage { (words : List (List ℕ)) → L.given line.now ≡ Some words → exit_status result ≡ 1 →
        (¬ All IsUtf8 words) ⊎ ((own_of words ≡ None) × AreNoCommand words) }
    ensures no_command { (words : List (List ℕ)) → L.given line.now ≡ Some words → own_of words ≡ None →
        AreNoCommand words → (exit_status result ≡ 1) ⊎ (exit_status result ≡ 8) }
    // Standard error has nothing where it is 0, and else a front of the line of its status.
    ensures silent { (before now : List ℕ) → E.contents errors.old.out ≡ Some before →
        E.contents errors.new.out ≡ Some now → exit_status result ≡ 0 → now ≡ before }
    ensures told { (before now : List ℕ) → E.contents errors.old.out ≡ Some before →
        E.contents errors.new.out ≡ Some now → exit_status result ≢ 0 →
        (status : Status) × (exit_status result ≡ code_of status)
        × WritesFront (text_of status ++ line_feed ∷ []) before now }
{
    run_program(rt, line, shelf, out, errors)
}
