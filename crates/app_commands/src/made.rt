//! The script that is made, and its images.

use board_base::NoMemory;
use call_words::decimal;
use make_script::{make_disk, make_rom, make_text};
use std::alloc::{AllocError, Global};

/// Tells how many lines a text has and whether it ends with a line feed, and so many of its lines from a place on.
fn push_some_lines(
    text: &mut String,
    script: &str,
    from: &str,
    count: &str,
) -> Result<(), AllocError> {
    let ended = script.ends_with('\n');
    write!(text, "{} lines, {ended}", script.lines().count())?;
    let lines = script.lines().skip(decimal(from) as usize);
    for line in lines.take(decimal(count) as usize) {
        write!(text, "\n{line}")?;
    }
    Ok(())
}

/// Tells lines of the script of so many rounds: the place of the first, and how many.
pub fn tell_lines(alloc: Global, row: &str, text: &mut String) -> Result<(), NoMemory> {
    let (rounds, rest) = row.split_once(' ').unwrap_or(("", ""));
    let (from, count) = rest.split_once(' ').unwrap_or(("", ""));
    let script = make_text(alloc, decimal(rounds))?;
    Ok(push_some_lines(text, script.as_str(), from, count)?)
}

/// Tells how many bytes an image has, and those at some places.
fn push_places(text: &mut String, image: &[u8], places: &str) -> Result<(), AllocError> {
    write!(text, "{} bytes", image.len())?;
    for place in places.split(' ') {
        match image.get(decimal(place) as usize) {
            Some(byte) => write!(text, " {byte:02X}")?,
            None => text.push_str(" none")?,
        }
    }
    Ok(())
}

/// Tells of the ROM that is made.
pub fn tell_rom(alloc: Global, places: &str, text: &mut String) -> Result<(), NoMemory> {
    let rom = make_rom(alloc)?;
    Ok(push_places(text, &rom, places)?)
}

/// Tells of the disk that is made.
pub fn tell_disk(alloc: Global, places: &str, text: &mut String) -> Result<(), NoMemory> {
    let disk = make_disk(alloc)?;
    Ok(push_places(text, &disk, places)?)
}
