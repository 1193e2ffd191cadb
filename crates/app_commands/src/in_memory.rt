//! Commands over files in memory, at the limits of what they take: the largest board, the longest script with its log
//! and its image, the most rounds of `make`, and files with as many bytes as they may have, and with one more. Each row
//! behind
//! `memory` is a step:
//!
//!     add NAME COUNT TEXT     appends a text to a file so many times, in which `|` stands for a line feed
//!     put NAME COUNT DIGITS   the same of bytes
//!     join NAME COUNT OTHER   the same of the bytes of another file
//!     log NAME ROUNDS         makes the log of the longest script, done once or twice
//!     grow NAME SIZE          ends a file with line feeds, so that it has this size, which is told
//!     size NAME               tells how many bytes a file has
//!     do COMMAND              tells the exit code, why the command was not done, and all that it puts
//!     keep NAME COMMAND       the same, but what it puts is kept as a file
//!     same NAME COMMAND       the same, but of what it puts is told how long it is, and whether it is a file's bytes
//!     turn NAME COMMAND       sets each byte of a log to each value, and counts where its check does not name the line

use crate::files::bytes_of;
use crate::lines::words_of;
use crate::{files, turn};
use board_base::NoMemory;
use board_commands::{Status, board_in_memory, exit_code, fault_text};
use board_outside::{QuietGate, SafeShelf, SafeSink};
use std::io::Write;
use std::sync::Wait;
use std::thread::Threads;

/// How a command ends. No clause stands here, so that nothing is proved with those of the command.
pub fn end_of<R: AllocGlobal + Threads + Wait + Sync>(
    rt: &R,
    shelf: &mut SafeShelf,
    words: &[String],
    out: &mut SafeSink,
) -> Status {
    board_in_memory(rt, rt.alloc(), words, shelf, out, &QuietGate)
}

/// What a command puts. Its words and its exit code are written, and why it was not done.
fn output_of<R: AllocGlobal + Threads + Wait + Sync, W: Write>(
    rt: &R,
    told: &mut W,
    shelf: &mut SafeShelf,
    line: &str,
) -> Result<Vec<u8>, NoMemory> {
    let words = words_of(rt.alloc(), line)?;
    let mut out = SafeSink::new(rt.alloc());
    let status = end_of(rt, shelf, &words, &mut out);
    let text = fault_text(rt.alloc(), &status)?;
    let _ = writeln!(told, "{line}: {} {}", exit_code(&status), text.as_str());
    Ok(out.bytes)
}

/// Does a command, and writes what it puts.
pub fn show<R: AllocGlobal + Threads + Wait + Sync, W: Write>(
    rt: &R,
    told: &mut W,
    shelf: &mut SafeShelf,
    line: &str,
) -> Result<(), NoMemory> {
    let bytes = output_of(rt, told, shelf, line)?;
    let _ = told.write_all(&bytes);
    Ok(())
}

/// Does a command, and keeps what it puts as a file.
pub fn keep<R: AllocGlobal + Threads + Wait + Sync, W: Write>(
    rt: &R,
    told: &mut W,
    shelf: &mut SafeShelf,
    rest: &str,
) -> Result<(), NoMemory> {
    let (name, line) = rest.split_once(' ').unwrap_or((rest, ""));
    let bytes = output_of(rt, told, shelf, line)?;
    Ok(shelf.files.push((name.to_string(rt.alloc())?, bytes))?)
}

/// Does a command, and writes how many bytes it puts, and whether they are those of a file.
pub fn compare<R: AllocGlobal + Threads + Wait + Sync, W: Write>(
    rt: &R,
    told: &mut W,
    shelf: &mut SafeShelf,
    rest: &str,
) -> Result<(), NoMemory> {
    let (name, line) = rest.split_once(' ').unwrap_or((rest, ""));
    let bytes = output_of(rt, told, shelf, line)?;
    let is_same = bytes.as_slice() == bytes_of(&shelf.files, name);
    let _ = writeln!(told, "{} bytes, the {name}: {is_same}", bytes.len());
    Ok(())
}

/// A step without a command.
fn write<R: AllocGlobal, W: Write>(
    rt: &R,
    told: &mut W,
    shelf: &mut SafeShelf,
    line: &str,
) -> Result<(), NoMemory> {
    let (verb, rest) = line.split_once(' ').unwrap_or((line, ""));
    let (name, rest) = rest.split_once(' ').unwrap_or((rest, ""));
    match verb {
        "add" => files::add(rt.alloc(), shelf, name, rest),
        "put" => files::put(rt.alloc(), shelf, name, rest),
        "join" => files::join(rt.alloc(), shelf, name, rest),
        "log" => files::log(rt.alloc(), shelf, name, rest),
        "grow" => files::grow(told, shelf, name, rest),
        "size" => files::size(told, shelf, name),
        _ => {
            let _ = writeln!(told, "{line}: no step");
            Ok(())
        }
    }
}

/// Does a step.
pub fn step<R: AllocGlobal + Threads + Wait + Sync, W: Write>(
    rt: &R,
    told: &mut W,
    shelf: &mut SafeShelf,
    line: &str,
) -> Result<(), NoMemory> {
    let (verb, rest) = line.split_once(' ').unwrap_or((line, ""));
    match verb {
        "do" => show(rt, told, shelf, rest),
        "keep" => keep(rt, told, shelf, rest),
        "same" => compare(rt, told, shelf, rest),
        "turn" => turn::tell(rt, told, shelf, rest),
        _ => write(rt, told, shelf, line),
    }
}
