//! Logs that are read and written again.

use access_history::History;
use board_base::NoMemory;
use board_spec::Entry;
use call_words::decimal;
use logs::{Log, push_lines, push_log, read_log};
use make_script::push_summary;
use std::alloc::Global;

/// More bytes than a log here has.
const MOST_BYTES: usize = 50_000_000;

/// More entries than a log has of which a summary is told.
const MOST_ENTRIES: u32 = 20;

/// What a log says; none where it is no log, or is too long.
fn log_of(alloc: Global, log: &str) -> Option<Log> {
    if log.len() > MOST_BYTES {
        return None;
    }
    read_log(alloc, log.as_bytes()).ok()
}

/// Tells the version of a log, how many entries it has, and whether it is written again as it is.
pub fn tell_again(alloc: Global, log: &str, text: &mut String) -> Result<(), NoMemory> {
    let Some(read) = log_of(alloc, log) else {
        return Ok(text.push_str("no log")?);
    };
    let mut again = String::new(alloc);
    push_log(&mut again, read.version, &read.entries)?;
    let is_same = again.as_str() == log;
    let count = read.entries.len();
    Ok(write!(text, "version {}, {count} entries, {is_same}", read.version)?)
}

/// Tells the lines of a log, numbered from a number on.
pub fn tell_numbered(alloc: Global, row: &str, text: &mut String) -> Result<(), NoMemory> {
    let (first, log) = row.split_once(' ').unwrap_or(("", ""));
    match log_of(alloc, log) {
        Some(log) => push_lines(text, decimal(first).into(), &log.entries),
        None => Ok(text.push_str("no log")?),
    }
}

/// The history of these entries, as far as there is room for them.
fn history_of(alloc: Global, entries: &[Entry]) -> Result<History, NoMemory> {
    let mut history = History::new(alloc);
    history.reserve(MOST_ENTRIES)?;
    for entry in entries {
        if history.spare() > 0 {
            history.push(entry);
        }
    }
    Ok(history)
}

/// Tells the summary of a log, with so many map writes and ranges, after a line before.
fn push_summed(
    alloc: Global,
    log: &Log,
    writes: &str,
    ranges: &str,
    text: &mut String,
) -> Result<(), NoMemory> {
    let history = history_of(alloc, &log.entries)?;
    text.push_str("before\n")?;
    push_summary(
        text,
        &history.entries(),
        decimal(writes),
        decimal(ranges) as usize,
    )
}

/// The same of a row, which has both numbers before the log.
pub fn tell_summary(alloc: Global, row: &str, text: &mut String) -> Result<(), NoMemory> {
    let (writes, rest) = row.split_once(' ').unwrap_or(("", ""));
    let (ranges, log) = rest.split_once(' ').unwrap_or(("", ""));
    match log_of(alloc, log) {
        Some(log) => push_summed(alloc, &log, writes, ranges, text),
        None => Ok(text.push_str("no log")?),
    }
}
