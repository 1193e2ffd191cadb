//! The files that a command reads.

ghost use Rattle.std.specs.Prelude.{◌≡◌, ◌≢◌, ◌<◌, ◌≤◌, IfOk, IfErr, OnOk, vec_len};
ghost use Rattle.board_outside.specs.Outside.{OfFile};
ghost use Rattle.command_files.specs.declared.status.Which.{Which};
ghost use Rattle.command_files.specs.declared.status.Status.{Status};
ghost use Rattle.command_files.specs.Table.{limit_of};
ghost use Rattle.command_files.specs.Outcomes.{shelf_call, IsNotTaken};
ghost use Rattle.command_files.specs.Calls.{OfCalls, ReadsBy};

use crate::files::{FileFault, read_file};
use crate::status::{Status, Which};
use board_outside::Shelf;
use std::alloc::Global;

/// The most bytes of a script: 16 MiB.
const SCRIPT_LIMIT: usize = 0x100_0000;
/// The most bytes of a BIOS ROM: 512 KiB.
const ROM_LIMIT: usize = 0x8_0000;
/// The most bytes of a disk: 32 MiB.
const DISK_LIMIT: usize = 0x200_0000;
/// The most bytes of a log: 64 MiB.
const LOG_LIMIT: usize = 0x400_0000;
/// The most bytes of an image: 40 MiB.
const IMAGE_LIMIT: usize = 0x280_0000;
/// The most bytes of input: 1 MiB.
const INPUT_LIMIT: usize = 0x10_0000;

/// The most bytes that a file may have.
fn limit_of(which: Which) -> usize
    ensures limit { result ≡ limit_of which }
{
    match which {
        Which::Script => SCRIPT_LIMIT,
        Which::Rom => ROM_LIMIT,
        Which::Disk => DISK_LIMIT,
        Which::Log => LOG_LIMIT,
        Which::Image => IMAGE_LIMIT,
        Which::Input => INPUT_LIMIT,
    }
}

/// Reads a whole file. TooLong where it has more bytes than its limit, ReadFault where the shelf fails, NoMemory for
/// want of memory.
pub(crate) fn fetch<S: Shelf>(
    alloc: Global,
    shelf: &mut S,
    which: Which,
    name: &str,
) -> Result<Vec<u8>, Status>
    ensures whole { IfOk result (λ v. OfFile (S.files shelf.old) name.now (λ file. v.items ≡ file)) }
    ensures fits { IfOk result (λ v. vec_len v ≤ limit_of which) }
    ensures refused { IfErr result (IsNotTaken which name.now
        (shelf_call S.files S.faults S.failed_name shelf.old shelf.new)) }
    ensures quiet { OnOk result (S.faults shelf.new ≡ S.faults shelf.old) }
    ensures no_fault { IfErr result (λ status. ((of : Which) → status ≢ Status.ReadFault of)
        → S.faults shelf.new ≡ S.faults shelf.old) }
    ensures same_files { S.files shelf.new ≡ S.files shelf.old }
    ensures fetches { OfCalls (S.fetches shelf.old) (S.fetches shelf.new) (ReadsBy result name.now (limit_of which)) }
{
    match read_file(alloc, shelf, name, limit_of(which)) {
        Ok(bytes) => Ok(bytes),
        Err(FileFault::Failed) => Err(Status::ReadFault(which)),
        Err(FileFault::TooLong) => Err(Status::TooLong(which)),
        Err(FileFault::NoMemory) => Err(Status::NoMemory),
    }
}
