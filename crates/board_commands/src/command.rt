//! The commands, from their words to the bytes that are written.

ghost use Rattle.std.specs.Prelude.{◌≡◌, ◌↔◌, Some, None, IfErr};
ghost use Rattle.board_outside.specs.Outside.{Rose};
ghost use Rattle.command_words.specs.Words.{command_said, IsCommand};
ghost use Rattle.command_words.specs.Commands.{said_by};
ghost use Rattle.command_files.specs.declared.status.Status.{Status};
ghost use Rattle.command_files.specs.Statuses.{status_of, IsRefusal};
ghost use Rattle.command_files.specs.Outcomes.{shelf_call};
ghost use Rattle.command_files.specs.Calls.{OfCalls, FetchesOf, AreFetchesOf};
ghost use Rattle.board_commands.specs.Statuses.{IsAnswered};
ghost use Rattle.board_commands.specs.Outcomes.{IsCaused, IsExact, sink_call};
ghost use Rattle.board_commands.specs.Puts.{ArePutsOf};

use crate::output::put_all;
use crate::texts::text_of;
use board_outside::{Gate, Shelf, Sink};
use command_files::laws::law_one_status;
use command_files::{Status, read_files};
use command_words::{Command, command_of};
use logs::Text;
use std::alloc::Global;
use std::sync::Wait;
use std::thread::Threads;

/// Reads the files of a command, and gives the text that it makes of them.
#[tactic(auto, using(crate::proofs::Answers::refused_answer))]
fn answer<R: Threads + Wait + Sync, S: Shelf, G: Gate>(
    rt: &R,
    alloc: Global,
    command: &Command,
    shelf: &mut S,
    gate: &G,
) -> Result<Text, Status>
    requires called { IsCommand (said_by command.now) }
    ensures answer { IsAnswered (said_by command.now)
        (shelf_call S.files S.faults S.failed_name shelf.old shelf.new) result }
    ensures same_files { S.files shelf.new ≡ S.files shelf.old }
    ensures fetches { OfCalls (S.fetches shelf.old) (S.fetches shelf.new)
        (FetchesOf (said_by command.now) (S.files shelf.old)) }
{
    let read = read_files(alloc, shelf, command)?;
    text_of(rt, alloc, command, read, gate)
}

/// Makes the text of a command from its files, and puts it to the sink.
#[tactic(auto, using(crate::proofs::Causes::run_command_rules))]
fn run_command<R: Threads + Wait + Sync, S: Shelf, K: Sink, G: Gate>(
    rt: &R,
    alloc: Global,
    command: &Command,
    shelf: &mut S,
    out: &mut K,
    gate: &G,
) -> Result<(), Status>
    requires called { IsCommand (said_by command.now) }
    ensures caused { IsCaused (status_of result) (Some (said_by command.now))
        (shelf_call S.files S.faults S.failed_name shelf.old shelf.new)
        (sink_call K.faults K.taken out.old out.new) }
    ensures only { IfErr result IsRefusal }
    ensures same_files { S.files shelf.new ≡ S.files shelf.old }
    ensures fetches { OfCalls (S.fetches shelf.old) (S.fetches shelf.new)
        (FetchesOf (said_by command.now) (S.files shelf.old)) }
    ensures puts { OfCalls (K.puts out.old) (K.puts out.new) (ArePutsOf (status_of result)) }
{
    let text = answer(rt, alloc, command, shelf, gate)?;
    put_all(out, &text)?;
    Ok(())
}

/// Does the command that the words are. Each status comes only where its cause holds.
#[tactic(auto, using(std::proofs::lemmas::Bool::Decides::nat_tests))]
fn run_words<R: Threads + Wait + Sync, S: Shelf, K: Sink, G: Gate>(
    rt: &R,
    alloc: Global,
    words: &[String],
    shelf: &mut S,
    out: &mut K,
    gate: &G,
) -> Status
    ensures usage { (result ≡ Status.Usage) ↔ (command_said words.now ≡ None) }
    ensures caused { IsCaused result (command_said words.now)
        (shelf_call S.files S.faults S.failed_name shelf.old shelf.new)
        (sink_call K.faults K.taken out.old out.new) }
    ensures same_files { S.files shelf.new ≡ S.files shelf.old }
    ensures fetches { OfCalls (S.fetches shelf.old) (S.fetches shelf.new)
        (AreFetchesOf (command_said words.now) (S.files shelf.old)) }
    ensures puts { OfCalls (K.puts out.old) (K.puts out.new) (ArePutsOf result) }
{
    let Some(command) = command_of(words) else {
        return Status::Usage;
    };
    match run_command(rt, alloc, &command, shelf, out, gate) {
        Ok(()) => Status::Done,
        Err(status) => status,
    }
}

/// Does the command that the words are (`Command` has them all), with files from a shelf, and puts its text to a sink.
/// Where several causes of a status hold, the words come first, then the files in the order in which they are read,
/// then the output. Nothing is put before all else is done. Only `run` may wait, and only where several processors act
/// does it call the gate.
pub fn board<R: Threads + Wait + Sync, S: Shelf, K: Sink, G: Gate>(
    rt: &R,
    alloc: Global,
    words: &[String],
    shelf: &mut S,
    out: &mut K,
    gate: &G,
) -> Status
    ensures usage { (result ≡ Status.Usage) ↔ (command_said words.now ≡ None) }
    ensures caused { IsCaused result (command_said words.now)
        (shelf_call S.files S.faults S.failed_name shelf.old shelf.new)
        (sink_call K.faults K.taken out.old out.new) }
    ensures exact { IsExact result (command_said words.now) (S.files shelf.old)
        (¬ Rose (S.faults shelf.old) (S.faults shelf.new)) (¬ Rose (K.faults out.old) (K.faults out.new)) }
    ensures same_files { S.files shelf.new ≡ S.files shelf.old }
    ensures fetches { OfCalls (S.fetches shelf.old) (S.fetches shelf.new)
        (AreFetchesOf (command_said words.now) (S.files shelf.old)) }
    ensures puts { OfCalls (K.puts out.old) (K.puts out.new) (ArePutsOf result) }
{
    // So that the status is the one that words and files ask for: they ask for at most one.
    law_one_status();
    run_words(rt, alloc, words, shelf, out, gate)
}
