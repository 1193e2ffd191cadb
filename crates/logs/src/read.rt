//! The log read back: its version and its entries, or the first line that is none of a log.

ghost use Rattle.std.specs.Prelude.{◌≡◌, ◌≢◌, ◌<◌, ◌-◌, ◌^◌, length, reverse, IfOk, IfErr, IfSome, MatchOption, All};
ghost use Rattle.board_prelude.specs.{Entry, line_text, lines_text};
ghost use Rattle.script_spec.specs.ScriptText.{IsVersion};
ghost use Rattle.script_spec.specs.WellFormed.{IsWellFormed};
ghost use Rattle.script_spec.specs.Checks.{IsLogText, IsBadLog};
ghost use Rattle.logs.specs.Reading.{NamesBad, parse_heading, HasEntry, HasNoEntry, IsBadAfter};

use crate::cuts::cut;
use crate::fault::LogFault;
use crate::log::push_entry;
use crate::read_entry::parse_entry;
use board_base::NoMemory;
use board_spec::Entry;
use scripts::is_word;
use std::alloc::Global;

/// What a log says: its version, 1 or 2, and the entries, the oldest first.
#[derive(Drop)]
pub struct Log {
    pub version: u8,
    pub entries: Vec<Entry>,
}

/// The version that a heading names.
fn parse_heading(line: &[u8]) -> Option<u8>
    ensures version { result ≡ parse_heading line.now }
{
    if is_word(line, "access log 1") {
        return Some(1);
    }
    if is_word(line, "access log 2") {
        return Some(2);
    }
    None
}

/// The entry of which this is line `n`. None where no entry of this version has such a line. `text` takes the line as
/// the log would have it.
fn read_entry(
    text: &mut String,
    version: u8,
    n: u32,
    line: &[u8],
) -> Result<Option<Entry>, NoMemory>
    ensures exact { IfOk result (λ read. MatchOption read
        ((entry : Entry) → IsWellFormed version entry → line.now ≢ line_text n entry)
        (λ entry. IsWellFormed version entry × (line.now ≡ line_text n entry))) }
{
    let Some(entry) = parse_entry(version, line) else {
        return Ok(None);
    };
    text.clear();
    push_entry(text, u64::from(n), &entry)?;
    if text.as_bytes() == line {
        Ok(Some(entry))
    } else {
        Ok(None)
    }
}

/// The entry of line `n`, and what stands after its line feed. None where the line is none of the log, or has no end.
fn next_entry<'a>(
    text: &mut String,
    version: u8,
    n: u32,
    rest: &'a [u8],
) -> Result<Option<(Entry, &'a [u8])>, NoMemory>
    ensures exact { IfOk result (λ read. MatchOption read
        (HasNoEntry version n rest.now) (λ p. HasEntry version n rest.now p.0 p.1.now)) }
    ensures shorter { IfOk result (λ read. IfSome read (λ p. length p.1.now < length rest.now)) }
{
    let Some((line, after)) = cut(b'\n', rest) else {
        return Ok(None);
    };
    match read_entry(text, version, n, line)? {
        Some(entry) => Ok(Some((entry, after))),
        None => Ok(None),
    }
}

/// Reads the lines after the heading of a log.
fn read_entries(alloc: Global, version: u8, lines: &[u8]) -> Result<Vec<Entry>, LogFault>
    requires known { IsVersion version }
    requires few { length lines.now < 2 ^ 32 - 1 }
    ensures entries { IfOk result (λ entries. (lines.now ≡ lines_text (reverse entries.items))
        × All (IsWellFormed version) (reverse entries.items)) }
    ensures bad { IfErr result (NamesBad (IsBadAfter version lines.now)) }
{
    let mut entries = Vec::new(alloc);
    let mut text = String::new(alloc);
    let mut rest = lines;
    let mut n = 1;
    while !rest.is_empty() {
        let Some((entry, after)) = next_entry(&mut text, version, n, rest)? else {
            return Err(LogFault::Bad { line: n + 1 });
        };
        entries.push(entry)?;
        rest = after;
        n += 1;
    }
    Ok(entries)
}

/// Reads a log. `Ok` for exactly the texts of logs of well-formed entries, with the version and the entries. Otherwise,
/// where there is memory, it names the first line that, after those before it, begins no such text: one without its
/// line feed, for instance.
#[tactic(auto, using(crate::proofs::ReadLogs::read_log_rules))]
pub fn read_log(alloc: Global, bytes: &[u8]) -> Result<Log, LogFault>
    requires { length bytes.now < 2 ^ 32 - 1 }
    ensures log { IfOk result (λ log. IsLogText log.version (reverse log.entries.items) bytes.now) }
    ensures bad { IfErr result (NamesBad (IsBadLog bytes.now)) }
{
    let Some((heading, lines)) = cut(b'\n', bytes) else {
        return Err(LogFault::Bad { line: 1 });
    };
    let Some(version) = parse_heading(heading) else {
        return Err(LogFault::Bad { line: 1 });
    };
    let entries = read_entries(alloc, version, lines)?;
    Ok(Log { version, entries })
}
