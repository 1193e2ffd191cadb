//! A log each byte of which is set to each value.

use crate::files::{Files, bytes_of};
use crate::in_memory::end_of;
use crate::lines::words_of;
use board_base::NoMemory;
use board_commands::Status;
use board_outside::{SafeShelf, SafeSink};
use std::io::Write;
use std::sync::Wait;
use std::thread::Threads;

/// Sets a byte of a file.
fn set(files: &mut Files, name: &str, at: usize, byte: u8) {
    for (own, file) in files {
        if own.as_str() == name
            && let Some(place) = file.get_mut(at)
        {
            *place = byte;
        }
    }
}

/// How many values of a byte are not answered as they must be: by the line where it stands, or for its own value by
/// `Done`.
fn wrong_at<R: AllocGlobal + Threads + Wait + Sync>(
    rt: &R,
    shelf: &mut SafeShelf,
    words: &[String],
    name: &str,
    at: usize,
    byte: u8,
    line: u32,
) -> u32 {
    let mut wrong = 0u32;
    for other in 0..=255 {
        set(&mut shelf.files, name, at, other);
        let status = end_of(rt, shelf, words, &mut SafeSink::new(rt.alloc()));
        let due = if other == byte {
            Status::Done
        } else {
            Status::Differs { line }
        };
        if status != due {
            wrong = wrong.wrapping_add(1);
        }
    }
    set(&mut shelf.files, name, at, byte);
    wrong
}

/// Sets each byte of a log to each value, one at a time, and tells how often a command that checks it is wrong.
pub fn tell<R: AllocGlobal + Threads + Wait + Sync, W: Write>(
    rt: &R,
    told: &mut W,
    shelf: &mut SafeShelf,
    rest: &str,
) -> Result<(), NoMemory> {
    let (name, command) = rest.split_once(' ').unwrap_or((rest, ""));
    let words = words_of(rt.alloc(), command)?;
    let log = bytes_of(&shelf.files, name).to_vec(rt.alloc())?;
    let (mut wrong, mut line) = (0u32, 1u32);
    for (at, byte) in log.iter().enumerate() {
        wrong = wrong.wrapping_add(wrong_at(rt, shelf, &words, name, at, *byte, line));
        if *byte == b'\n' {
            line = line.wrapping_add(1);
        }
    }
    let _ = writeln!(
        told,
        "{name} of {} bytes in each way: {wrong} wrong",
        log.len()
    );
    Ok(())
}
