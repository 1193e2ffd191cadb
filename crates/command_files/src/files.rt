//! Whole files, read in pieces from a shelf.

ghost use Rattle.std.specs.Prelude.{◌≡◌, ◌≢◌, ◌<◌, ◌≤◌, ◌+◌, ◌++◌, length, take, IfOk, IfErr, OnOk, vec_len};
ghost use Rattle.board_outside.specs.Outside.{Rose, OfFile};
ghost use Rattle.command_files.specs.Files.{IsLongerFront};
ghost use Rattle.command_files.specs.Calls.{OfCalls, FetchesOnce, ReadsBy};

use board_outside::{Failed, Shelf};
use std::alloc::{AllocError, Global};

/// Why a file could not be read.
#[derive(Clone, Copy, PartialEq, Eq)]
pub(crate) enum FileFault {
    /// The shelf failed.
    Failed,
    /// The file is longer than its limit.
    TooLong,
    /// There was no memory.
    NoMemory,
}

impl From<Failed> for FileFault {
    ghost use Rattle.command_files.specs.declared.files.FileFault.{FileFault};

    ghost from_gives = { λ _ fault. fault ≡ FileFault.Failed };

    fn from(_: Failed) -> FileFault {
        FileFault::Failed
    }
}

impl From<AllocError> for FileFault {
    ghost use Rattle.command_files.specs.declared.files.FileFault.{FileFault};

    ghost from_gives = { λ _ fault. fault ≡ FileFault.NoMemory };

    fn from(_: AllocError) -> FileFault {
        FileFault::NoMemory
    }
}

/// How many bytes one call of a shelf reads at most.
const PIECE: usize = 0x1_0000;

/// Zeros, as many as asked for.
fn zeros(alloc: Global, count: usize) -> Result<Vec<u8>, AllocError>
    ensures length { IfOk result (λ v. vec_len v ≡ count) }
{
    vec![in alloc; 0; count]
}

/// Appends a piece to what was read of a file.
fn append(bytes: &mut Vec<u8>, more: &[u8]) -> Result<(), AllocError>
    ensures ok { OnOk result (bytes.new.items ≡ bytes.old.items ++ more.now) }
    ensures len { OnOk result (vec_len bytes.new ≡ vec_len bytes.old + length more.now) }
{
    bytes.extend_from_slice(more)
}

/// Reads on where `bytes` ends, at most as much as `piece` holds, and returns how many bytes were read: none at the end
/// of the file.
fn read_on<S: Shelf>(
    shelf: &mut S,
    name: &str,
    bytes: &mut Vec<u8>,
    piece: &mut [u8],
) -> Result<usize, FileFault>
    requires { 0 < length piece.old }
    ensures front { IfOk result (λ k. OfFile (S.files shelf.old) name.now
        (IsLongerFront bytes.old.items bytes.new.items)) }
    ensures grows { IfOk result (λ k. vec_len bytes.new ≡ vec_len bytes.old + k) }
    ensures end { IfOk result (λ k. k ≡ 0 → OfFile (S.files shelf.old) name.now
        (λ file. length file ≤ vec_len bytes.old)) }
    ensures failed { IfErr result (λ fault. fault ≡ FileFault.Failed → Rose (S.faults shelf.old) (S.faults shelf.new)) }
    ensures names { IfErr result (λ fault. fault ≡ FileFault.Failed → S.failed_name shelf.new ≡ take 255 name.now) }
    ensures only { IfErr result (λ fault. fault ≢ FileFault.TooLong) }
    ensures later { S.faults shelf.old ≤ S.faults shelf.new }
    ensures quiet { OnOk result (S.faults shelf.new ≡ S.faults shelf.old) }
    ensures no_fault { IfErr result (λ fault. fault ≢ FileFault.Failed → S.faults shelf.new ≡ S.faults shelf.old) }
    ensures same_files { S.files shelf.new ≡ S.files shelf.old }
    ensures once { FetchesOnce (S.fetches shelf.old) (S.fetches shelf.new) name.now (vec_len bytes.old) result }
{
    let taken = shelf.fetch(name, bytes.len() as u64, piece)?;
    append(bytes, &piece[..taken])?;
    Ok(taken)
}

/// Reads a file of at most `limit` bytes: until the shelf is at its end, fails, has given more
/// bytes than the limit, or memory is refused.
#[tactic(auto, using(crate::proofs::CallLemmas::reading_failed, crate::proofs::CallLemmas::read_once))]
pub(crate) fn read_file<S: Shelf>(
    alloc: Global,
    shelf: &mut S,
    name: &str,
    limit: usize,
) -> Result<Vec<u8>, FileFault>
    ensures whole { IfOk result (λ v. OfFile (S.files shelf.old) name.now (λ file. v.items ≡ file)) }
    ensures fits { IfOk result (λ v. vec_len v ≤ limit) }
    ensures too_long { IfErr result (λ fault. fault ≡ FileFault.TooLong →
        OfFile (S.files shelf.old) name.now (λ file. limit < length file)) }
    ensures failed { IfErr result (λ fault. fault ≡ FileFault.Failed →
        Rose (S.faults shelf.old) (S.faults shelf.new)) }
    ensures names { IfErr result (λ fault. fault ≡ FileFault.Failed →
        S.failed_name shelf.new ≡ take 255 name.now) }
    ensures later { S.faults shelf.old ≤ S.faults shelf.new }
    ensures quiet { OnOk result (S.faults shelf.new ≡ S.faults shelf.old) }
    ensures no_fault { IfErr result (λ fault. fault ≢ FileFault.Failed → S.faults shelf.new ≡ S.faults shelf.old) }
    ensures same_files { S.files shelf.new ≡ S.files shelf.old }
    ensures fetches { OfCalls (S.fetches shelf.old) (S.fetches shelf.new) (ReadsBy result name.now limit) }
{
    let mut bytes = Vec::new(alloc);
    let mut piece = zeros(alloc, PIECE)?;
    while bytes.len() <= limit {
        let taken = read_on(shelf, name, &mut bytes, &mut piece)?;
        if taken == 0 {
            return Ok(bytes);
        }
    }
    Err(FileFault::TooLong)
}
