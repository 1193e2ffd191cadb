//! Texts and lines, each a row behind `text` and a word. In a text `|` stands for a line feed, `~` for a carriage
//! return and `^` for a tab.
//!
//!     script TEXT · log TEXT        that it is good, or the line at which it is refused, and why
//!     long HEAD;PART;COUNT;END      the same of a script of a head, a part so many times, and an end
//!     item1 LINE · item2 LINE       whether it says something in a script of that version
//!     entry1 LINE · entry2 LINE     the same in a log
//!     again TEXT                    a log's version, how many entries it has, and whether it is written again as it is
//!     numbered FIRST TEXT           its lines, numbered from FIRST on
//!     summary WRITES RANGES TEXT    its summary, with so many map writes and ranges, after a line before
//!     made ROUNDS FROM COUNT        how many lines the script of `make` has, whether it ends, and some of them
//!     rom PLACE.. · disk PLACE..    how many bytes its images have, and some of them

use crate::{log_rows, made};
use board_base::NoMemory;
use call_words::decimal;
use logs::{LogFault, parse_entry, read_log};
use scripts::{ScriptFault, parse_item, read_script};
use std::alloc::Global;

/// More bytes than a text here has.
const MOST_BYTES: usize = 50_000_000;

/// Tells where a script is refused, and why.
fn tell_script(alloc: Global, script: &str, text: &mut String) -> Result<(), NoMemory> {
    if script.len() > MOST_BYTES {
        return Ok(text.push_str("too long")?);
    }
    match read_script(alloc, script.as_bytes()) {
        Ok(_) => Ok(text.push_str("good")?),
        Err(ScriptFault::Bad { line, why }) => Ok(write!(text, "{line} {why}")?),
        Err(ScriptFault::NoMemory) => Err(NoMemory),
    }
}

/// Tells the first line that is none of a log.
fn tell_log(alloc: Global, log: &str, text: &mut String) -> Result<(), NoMemory> {
    if log.len() > MOST_BYTES {
        return Ok(text.push_str("too long")?);
    }
    match read_log(alloc, log.as_bytes()) {
        Ok(_) => Ok(text.push_str("good")?),
        Err(LogFault::Bad { line }) => Ok(write!(text, "{line}")?),
        Err(_) => Err(NoMemory),
    }
}

/// The character for which one stands in a row.
fn character_of(character: char) -> char {
    match character {
        '|' => '\n',
        '~' => '\r',
        '^' => '\t',
        _ => character,
    }
}

/// A text in which other characters stood for some.
pub fn text_of(alloc: Global, row: &str) -> Result<String, NoMemory> {
    let mut text = String::new(alloc);
    for character in row.chars() {
        text.push(character_of(character))?;
    }
    Ok(text)
}

/// A text of a head, a part so many times, and an end.
fn repeated(
    alloc: Global,
    head: &str,
    part: &str,
    count: u32,
    end: &str,
) -> Result<String, NoMemory> {
    let mut text = String::from_str(alloc, head)?;
    for _ in 0..count {
        text.push_str(part)?;
    }
    text.push_str(end)?;
    Ok(text)
}

/// The same of the four parts of a text.
fn long_text(alloc: Global, row: &str) -> Result<String, NoMemory> {
    let parts: Vec<&str> = row.split(';').collect(alloc)?;
    match parts.as_slice() {
        [head, part, count, end] => repeated(alloc, head, part, decimal(count), end),
        _ => Ok(String::new(alloc)),
    }
}

/// Appends whether a line says something.
fn push_answer(text: &mut String, says: bool) -> Result<(), NoMemory> {
    Ok(text.push_str(if says { "yes" } else { "no" })?)
}

/// Appends what a line answers.
fn answer_of_line(call: &str, line: &[u8], text: &mut String) -> Result<(), NoMemory> {
    match call {
        "item1" => push_answer(text, parse_item(1, line).is_some()),
        "item2" => push_answer(text, parse_item(2, line).is_some()),
        "entry1" => push_answer(text, parse_entry(1, line).is_some()),
        "entry2" => push_answer(text, parse_entry(2, line).is_some()),
        _ => Ok(text.push_str("no such call")?),
    }
}

/// Appends what a log answers, or what is made.
fn answer_of_made(alloc: Global, call: &str, row: &str, text: &mut String) -> Result<(), NoMemory> {
    match call {
        "again" => log_rows::tell_again(alloc, row, text),
        "numbered" => log_rows::tell_numbered(alloc, row, text),
        "summary" => log_rows::tell_summary(alloc, row, text),
        "made" => made::tell_lines(alloc, row, text),
        "rom" => made::tell_rom(alloc, row, text),
        "disk" => made::tell_disk(alloc, row, text),
        _ => answer_of_line(call, row.as_bytes(), text),
    }
}

/// Tells where a long script is refused, and why.
fn tell_long(alloc: Global, row: &str, text: &mut String) -> Result<(), NoMemory> {
    let script = long_text(alloc, row)?;
    tell_script(alloc, script.as_str(), text)
}

/// Appends what a text or a line answers.
fn answer(alloc: Global, call: &str, row: &str, text: &mut String) -> Result<(), NoMemory> {
    match call {
        "script" => tell_script(alloc, row, text),
        "log" => tell_log(alloc, row, text),
        "long" => tell_long(alloc, row, text),
        _ => answer_of_made(alloc, call, row, text),
    }
}

/// What a row answers.
pub fn answered(alloc: Global, row: &str) -> Result<String, NoMemory> {
    let mut text = String::new(alloc);
    let (call, row) = row.split_once(' ').unwrap_or((row, ""));
    let row = text_of(alloc, row)?;
    answer(alloc, call, row.as_str(), &mut text)?;
    Ok(text)
}
