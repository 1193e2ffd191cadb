//! The files of a command, read one after the other along the table.

ghost use Rattle.std.specs.Prelude.{◌≡◌, ◌≢◌, IfOk, IfErr, OnOk};
ghost use Rattle.command_words.specs.Commands.{said_by};
ghost use Rattle.command_files.specs.declared.status.Which.{Which};
ghost use Rattle.command_files.specs.declared.status.Status.{Status};
ghost use Rattle.command_files.specs.Table.{limit_of};
ghost use Rattle.command_files.specs.Known.{file_name, AllRead, HasRead};
ghost use Rattle.command_files.specs.Outcomes.{OfFiles, shelf_call, IsRefused};
ghost use Rattle.command_files.specs.Calls.{OfCalls, FetchesOf};
ghost use Rattle.command_files.specs.Steps.{IsPassed, IsNotPassed, ReadsNamed};

use crate::fetch::fetch;
use crate::read::Read;
use crate::status::{Status, Which};
use crate::table::files_of;
use board_outside::Shelf;
use command_words::Command;
use std::alloc::Global;

/// Reads a file of a command, where it has a name. Refused where it cannot be read or is bad.
fn read_next<S: Shelf>(
    alloc: Global,
    shelf: &mut S,
    command: &Command,
    which: Which,
    read: &mut Read,
) -> Result<(), Status>
    ensures passed { OnOk result (IsPassed (S.files shelf.old) read.old which
        (file_name (said_by command.now) read.old which) read.new) }
    ensures refused { IfErr result (IsNotPassed which (file_name (said_by command.now) read.old which)
        (shelf_call S.files S.faults S.failed_name shelf.old shelf.new)) }
    ensures quiet { OnOk result (S.faults shelf.new ≡ S.faults shelf.old) }
    ensures no_fault { IfErr result (λ status. ((of : Which) → status ≢ Status.ReadFault of)
        → S.faults shelf.new ≡ S.faults shelf.old) }
    ensures same_files { S.files shelf.new ≡ S.files shelf.old }
    ensures fetches { OfCalls (S.fetches shelf.old) (S.fetches shelf.new)
        (ReadsNamed result (file_name (said_by command.now) read.old which) (limit_of which)) }
{
    let Some(name) = read.file_name(command, which) else {
        return Ok(());
    };
    let bytes = fetch(alloc, shelf, which, name)?;
    read.learn(alloc, which, bytes)
}

/// Reads the files of a command in their order, each once. Refused at the first that cannot be read or is bad, with its
/// status; those after it are not read.
#[tactic(auto, using(crate::proofs::GoodLemmas::read_files_rules))]
pub fn read_files<S: Shelf>(alloc: Global, shelf: &mut S, command: &Command) -> Result<Read, Status>
    ensures read { IfOk result (λ read. OfFiles (S.files shelf.old)
        (λ files. AllRead (said_by command.now) files read)) }
    ensures whole { IfOk result (HasRead (said_by command.now)) }
    ensures refused { IfErr result (IsRefused (said_by command.now)
        (shelf_call S.files S.faults S.failed_name shelf.old shelf.new)) }
    ensures quiet { OnOk result (S.faults shelf.new ≡ S.faults shelf.old) }
    ensures no_fault { IfErr result (λ status. ((of : Which) → status ≢ Status.ReadFault of)
        → S.faults shelf.new ≡ S.faults shelf.old) }
    ensures same_files { S.files shelf.new ≡ S.files shelf.old }
    ensures fetches { OfCalls (S.fetches shelf.old) (S.fetches shelf.new)
        (FetchesOf (said_by command.now) (S.files shelf.old)) }
{
    let files = files_of(command);
    let mut read = Read::nothing(alloc);
    for which in files {
        read_next(alloc, shelf, command, *which, &mut read)?;
    }
    Ok(read)
}
