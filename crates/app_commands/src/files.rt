//! The files of the commands, which are made longer step by step.

use crate::longest_log::log_of_rounds;
use crate::texts::text_of;
use board_base::NoMemory;
use board_outside::SafeShelf;
use call_words::decimal;
use std::alloc::Global;
use std::io::Write;

/// Files by their names.
pub type Files = Vec<(String, Vec<u8>)>;

/// The bytes of a file.
pub fn bytes_of<'a>(files: &'a Files, name: &str) -> &'a [u8] {
    for (own, bytes) in files {
        if own.as_str() == name {
            return bytes;
        }
    }
    &[]
}

/// Makes a file, where there is none of this name.
fn make(alloc: Global, files: &mut Files, name: &str) -> Result<(), NoMemory> {
    if !bytes_of(files, name).is_empty() {
        return Ok(());
    }
    Ok(files.push((name.to_string(alloc)?, Vec::new(alloc)))?)
}

/// Appends bytes so many times.
fn extend(file: &mut Vec<u8>, count: u32, bytes: &[u8]) -> Result<(), NoMemory> {
    for _ in 0..count {
        file.extend_from_slice(bytes)?;
    }
    Ok(())
}

/// Appends bytes to a file so many times.
fn append(
    alloc: Global,
    files: &mut Files,
    name: &str,
    count: &str,
    bytes: &[u8],
) -> Result<(), NoMemory> {
    make(alloc, files, name)?;
    for (own, file) in files {
        if own.as_str() == name {
            extend(file, decimal(count), bytes)?;
        }
    }
    Ok(())
}

/// Appends a text to a file so many times.
pub fn add(alloc: Global, shelf: &mut SafeShelf, name: &str, rest: &str) -> Result<(), NoMemory> {
    let (count, text) = rest.split_once(' ').unwrap_or(("", ""));
    let text = text_of(alloc, text)?;
    append(alloc, &mut shelf.files, name, count, text.as_bytes())
}

/// Appends the bytes of digits to a file so many times.
pub fn put(alloc: Global, shelf: &mut SafeShelf, name: &str, rest: &str) -> Result<(), NoMemory> {
    let (count, digits) = rest.split_once(' ').unwrap_or(("", ""));
    let bytes = call_words::bytes_of(alloc, digits)?;
    append(alloc, &mut shelf.files, name, count, &bytes)
}

/// Appends the bytes of another file to a file so many times.
pub fn join(alloc: Global, shelf: &mut SafeShelf, name: &str, rest: &str) -> Result<(), NoMemory> {
    let (count, other) = rest.split_once(' ').unwrap_or(("", ""));
    let bytes = bytes_of(&shelf.files, other).to_vec(alloc)?;
    append(alloc, &mut shelf.files, name, count, &bytes)
}

/// Makes the log of the longest script.
pub fn log(alloc: Global, shelf: &mut SafeShelf, name: &str, rounds: &str) -> Result<(), NoMemory> {
    let log = log_of_rounds(alloc, decimal(rounds))?;
    append(alloc, &mut shelf.files, name, "1", &log)
}

/// Tells how many bytes a file has.
pub fn size<W: Write>(told: &mut W, shelf: &SafeShelf, name: &str) -> Result<(), NoMemory> {
    let size = bytes_of(&shelf.files, name).len();
    let _ = writeln!(told, "{name} of {size} bytes");
    Ok(())
}

/// Ends a file with line feeds, or cuts it, so that it has this size.
pub fn grow<W: Write>(
    told: &mut W,
    shelf: &mut SafeShelf,
    name: &str,
    size_of: &str,
) -> Result<(), NoMemory> {
    for (own, file) in &mut shelf.files {
        if own.as_str() == name {
            file.resize(decimal(size_of) as usize, b'\n')?;
        }
    }
    size(told, shelf, name)
}
