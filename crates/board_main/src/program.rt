//! The program: its words, and how it ends.

ghost use Rattle.std.specs.Prelude.{◌≡◌, ◌↔◌, None, map, string_bytes};
ghost use Rattle.std.specs.Process.{exit_status};
ghost use Rattle.command_files.specs.declared.status.Status.{Status};
ghost use Rattle.command_files.specs.Outcomes.{shelf_call};
ghost use Rattle.command_files.specs.Calls.{OfCalls, AreFetchesOf};
ghost use Rattle.command_words.specs.Words.{command_said};
ghost use Rattle.board_main.specs.Given.{status_of_words};
ghost use Rattle.board_main.specs.Own.{own_of, own_text};
ghost use Rattle.board_main.specs.Outputs.{IsTold, out_call};
ghost use Rattle.board_main.specs.Ends.{Ends, EndsCommand, EndsLine, EndsProgram, IsWritten, AreFetchesFor};

use crate::answers::{OwnAnswer, own_answer, write_answer};
use crate::line::{CommandLine, WordFault};
use crate::put::put_two;
use board_commands::{Status, board, exit_code, fault_text};
use board_files::OutSink;
use board_outside::{QuietGate, Shelf};
use std::alloc::Global;
use std::io::Write;
use std::process::ExitCode;
use std::sync::Wait;
use std::thread::Threads;

/// Does what the words of a command line ask for, with files of a shelf, and writes to `out`. Where it is not done, the
/// text of the status goes to `errors`. Returns the exit code of the status.
pub fn run_program<R, L, S, W, E>(
    rt: &R,
    line: &L,
    shelf: &mut S,
    out: &mut OutSink<W>,
    errors: &mut OutSink<E>,
) -> ExitCode
where
    R: AllocGlobal + Threads + Wait + Sync,
    L: CommandLine,
    S: Shelf,
    W: Write,
    E: Write,
    ensures ends { EndsProgram (L.given line.now) (exit_status result)
        (shelf_call S.files S.faults S.failed_name shelf.old shelf.new) (out_call W.contents out.old out.new)
        (out_call E.contents errors.old errors.new) }
    ensures same_files { S.files shelf.new ≡ S.files shelf.old }
{
    let status = run_line(rt, line, shelf, out, errors);
    ExitCode::from(exit_code(&status))
}

/// Does what the words of a command line ask for, or refuses words that cannot be read.
fn run_line<R, L, S, W, E>(
    rt: &R,
    line: &L,
    shelf: &mut S,
    out: &mut OutSink<W>,
    errors: &mut OutSink<E>,
) -> Status
where
    R: AllocGlobal + Threads + Wait + Sync,
    L: CommandLine,
    S: Shelf,
    W: Write,
    E: Write,
    ensures ends { EndsLine (L.given line.now) result
        (shelf_call S.files S.faults S.failed_name shelf.old shelf.new) (out_call W.contents out.old out.new)
        (out_call E.contents errors.old errors.new) }
    ensures same_files { S.files shelf.new ≡ S.files shelf.old }
{
    match line.words() {
        Ok(words) => run_words(rt, &words, shelf, out, errors),
        Err(fault) => refuse(rt.alloc(), fault, errors),
    }
}

/// Tells why the words could not be read.
fn refuse<E: Write>(alloc: Global, fault: WordFault, errors: &mut OutSink<E>) -> Status
    ensures status { result ≡ status_of_words fault }
    ensures told { IsTold result (out_call E.contents errors.old errors.new) }
{
    let status = match fault {
        WordFault::NoText => Status::Usage,
        WordFault::NoRoom => Status::NoMemory,
    };
    tell(alloc, errors, &status);
    status
}

/// Does what these words ask for, with files of a shelf, and writes to `out`. Where it is not done, the text of the
/// status goes to `errors`. The status is Usage exactly where the words are neither a command nor `--help` or
/// `--version`.
pub fn run_words<R, S, W, E>(
    rt: &R,
    words: &[String],
    shelf: &mut S,
    out: &mut OutSink<W>,
    errors: &mut OutSink<E>,
) -> Status
where
    R: AllocGlobal + Threads + Wait + Sync,
    S: Shelf,
    W: Write,
    E: Write,
    ensures ends { Ends (map string_bytes words.now) result
        (shelf_call S.files S.faults S.failed_name shelf.old shelf.new) (out_call W.contents out.old out.new) }
    ensures same_files { S.files shelf.new ≡ S.files shelf.old }
    ensures fetches { OfCalls (S.fetches shelf.old) (S.fetches shelf.new)
        (AreFetchesFor (own_of (map string_bytes words.now)) (command_said words.now) (S.files shelf.old)) }
    ensures told { IsTold result (out_call E.contents errors.old errors.new) }
{
    let status = answer(rt, words, shelf, out);
    tell(rt.alloc(), errors, &status);
    status
}

/// Writes what the words ask for: an answer of the program's own, or a command's text.
fn answer<R, S, W>(rt: &R, words: &[String], shelf: &mut S, out: &mut OutSink<W>) -> Status
where
    R: AllocGlobal + Threads + Wait + Sync,
    S: Shelf,
    W: Write,
    ensures ends { Ends (map string_bytes words.now) result
        (shelf_call S.files S.faults S.failed_name shelf.old shelf.new) (out_call W.contents out.old out.new) }
    ensures same_files { S.files shelf.new ≡ S.files shelf.old }
    ensures fetches { OfCalls (S.fetches shelf.old) (S.fetches shelf.new)
        (AreFetchesFor (own_of (map string_bytes words.now)) (command_said words.now) (S.files shelf.old)) }
{
    match own_answer(words) {
        Some(own) => write_own(out, own),
        None => answer_of_board(rt, words, shelf, out),
    }
}

/// Does the command that the words are, and writes its text to `out`.
fn answer_of_board<R, S, W>(rt: &R, words: &[String], shelf: &mut S, out: &mut OutSink<W>) -> Status
where
    R: AllocGlobal + Threads + Wait + Sync,
    S: Shelf,
    W: Write,
    ensures usage { (result ≡ Status.Usage) ↔ (command_said words.now ≡ None) }
    ensures answered { EndsCommand result (command_said words.now)
        (shelf_call S.files S.faults S.failed_name shelf.old shelf.new) (out_call W.contents out.old out.new) }
    ensures same_files { S.files shelf.new ≡ S.files shelf.old }
    ensures fetches { OfCalls (S.fetches shelf.old) (S.fetches shelf.new)
        (AreFetchesOf (command_said words.now) (S.files shelf.old)) }
{
    board(rt, rt.alloc(), words, shelf, out, &QuietGate)
}

/// Writes an answer of the program's own, and gives the status.
fn write_own<W: Write>(out: &mut OutSink<W>, own: OwnAnswer) -> Status
    ensures written { IsWritten result (own_text own) (out_call W.contents out.old out.new) }
{
    match write_answer(out, own) {
        Ok(()) => Status::Done,
        Err(_) => Status::WriteFault,
    }
}

/// Writes the text of a status to `errors`, if it has one. Where there is no memory for that text, or `errors` fails,
/// the exit code alone says it.
fn tell<E: Write>(alloc: Global, errors: &mut OutSink<E>, status: &Status)
    ensures told { IsTold status.now (out_call E.contents errors.old errors.new) }
{
    if *status == Status::Done {
        return;
    }
    if let Ok(text) = fault_text(alloc, status) {
        let _ = put_two(errors, text.as_str(), "\n");
    }
}
