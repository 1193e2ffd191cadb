//! The small steps that shelves and sinks share.

ghost use Rattle.std.specs.Prelude.{◌≡◌, ◌≤◌, length, take, drop, ◌++◌, IsOkUnless, IfOk, OnOk, OnErr};
ghost use Rattle.std.specs.Option.{option_map};
ghost use Rattle.board_outside.specs.Files.{file_at, piece_length};

use crate::fault::PutFault;
use arrayvec::ArrayVec;

/// Puts the first 255 bytes of `name` in the place of those that were kept.
pub fn keep_name(kept: &mut ArrayVec<u8, 255>, name: &str)
    ensures name { kept.new.items ≡ take 255 name.now }
{
    kept.clear();
    kept.try_extend_from_slice(front(name.as_bytes(), 255))
        .unwrap();
}

/// The first `count` bytes, or all where there are fewer.
pub fn front(bytes: &[u8], count: usize) -> &[u8]
    ensures front { result.now ≡ take count bytes.now }
    ensures fits { length result.now ≤ count }
{
    if bytes.len() < count {
        return bytes;
    }
    &bytes[..count]
}

/// The bytes of the first file of this name, None where there is none.
pub fn find_file<'a>(files: &'a [(String, Vec<u8>)], name: &str) -> Option<&'a [u8]>
    ensures found { option_map (λ file. file.now) result ≡ file_at files.now name.now }
{
    files
        .iter()
        .find(|file| file.0.as_str() == name)
        .map(|file| file.1.as_slice())
}

/// Copies what `file` has from its byte `at` on into the front of `into`, as much as fits, and
/// returns how many bytes that were.
pub fn copy_piece(file: &[u8], at: u64, into: &mut [u8]) -> usize
    ensures count { result ≡ piece_length file.now at into.old }
    ensures bytes { take result into.new ≡ take result (drop at file.now) }
    ensures beyond { drop result into.new ≡ drop result into.old }
{
    let rest = after(file, at);
    let count = rest.len().min(into.len());
    into[..count].copy_from_slice(&rest[..count]);
    count
}

// What comes after the first `at` bytes.
fn after(bytes: &[u8], at: u64) -> &[u8]
    ensures rest { result.now ≡ drop at bytes.now }
{
    if at >= bytes.len() as u64 {
        return &[];
    }
    &bytes[at as usize..]
}

/// Appends a whole piece, and returns its length. Refused for want of memory alone.
pub fn append_piece(bytes: &mut Vec<u8>, piece: &[u8]) -> Result<usize, PutFault>
    ensures only { IsOkUnless result PutFault.NoMemory }
    ensures whole { IfOk result (λ k. k ≡ length piece.now) }
    ensures takes { OnOk result (bytes.new.items ≡ bytes.old.items ++ piece.now) }
    ensures refuses { OnErr result (bytes.new.items ≡ bytes.old.items) }
{
    bytes.extend_from_slice(piece)?;
    Ok(piece.len())
}
