//! Commands over the files of its folder, each a line of standard input, by the whole program: told are its exit code,
//! what standard error is told, and then all that it puts. The files are scripts, logs and images, and the lines of
//! their logs the replies that are due. Some lines are other than the words of a command, cut at each space:
//!
//!     COMMAND >/dev/full     the output is a full disk
//!     COMMAND, interrupted   a signal interrupts each call of a file and of the output
//!     given WORDS            a command line with the program's name, of which the other words are told
//!     unread WORDS           what becomes of such a command line
//!     no-room                a command line for whose words there is no memory
//!     text WORDS             a text or a line by itself (`texts`)
//!     memory STEP            a command over files in memory, or what makes these (`in_memory`)
//!     two-callers            a board that two callers share, and what stands in its history
//!
//! Of a command line the characters `~`, `^`, `!` and `?` stand for the bytes FFh, C3h, A9h and 80h. `#` begins a
//! comment, which is told as it is. At last comes the command of this program's own words, as `board` does it.
#![tactic(auto)]

mod files;
mod in_memory;
mod lines;
mod log_rows;
mod longest_log;
mod made;
mod shaken;
mod texts;
mod turn;
mod two_callers;

use crate::lines::{Bytes, NoRoom, Row, given_by};
use crate::shaken::{Shaken, ShakenFolder};
use board_base::NoMemory;
use board_files::{FileShelf, Folder, OutSink, SystemFolder};
use board_main::{CommandLine, SystemLine, WordFault, run_program};
use board_outside::SafeShelf;
use std::alloc::Global;
use std::fs::File;
use std::io::Write;
use std::process::ExitCode;
use std::rt::Files;
use std::sync::Wait;
use std::thread::Threads;

/// The exit code for want of memory or of input.
const FAILED: u8 = 8;

/// The greatest exit code of a command.
const MOST_CODE: u8 = 9;

/// Does what a command line asks for. No clause stands here, so that nothing else is proved with those of
/// `run_program`.
fn end_of<R, L: CommandLine, F: Folder + Drop, W: Write, E: Write>(
    rt: &R,
    line: &L,
    folder: F,
    output: &mut OutSink<W>,
    errors: &mut OutSink<E>,
) -> ExitCode
where
    R: AllocGlobal + Threads + Wait + Sync,
{
    let mut shelf = FileShelf::new(folder);
    run_program(rt, line, &mut shelf, output, errors)
}

/// Writes an exit code.
fn write_code<T: Write>(told: &mut T, code: ExitCode) {
    for number in 0..=MOST_CODE {
        if code == ExitCode::from(number) {
            let _ = write!(told, "{number} ");
        }
    }
}

/// Writes bytes, and ends their last line if it does not end.
fn write_whole<T: Write>(told: &mut T, bytes: &[u8]) {
    let _ = told.write_all(bytes);
    if !bytes.is_empty() && !bytes.ends_with(b"\n") {
        let _ = writeln!(told, "");
    }
}

/// Does what a command line asks for, and writes its exit code and what standard error is told.
fn run<R, T: Write, L: CommandLine, F: Folder + Drop, W: Write>(
    rt: &R,
    told: &mut T,
    line: &L,
    folder: F,
    output: &mut OutSink<W>,
)
where
    R: AllocGlobal + Threads + Wait + Sync,
{
    let mut errors = OutSink::new(Vec::new(rt.alloc()));
    let code = end_of(rt, line, folder, output, &mut errors);
    write_code(told, code);
    let said = errors.into_inner();
    write_whole(told, &said);
    if said.is_empty() {
        let _ = writeln!(told, "");
    }
}

/// Does what a command line asks for, and then writes what was put.
fn show<R, T: Write, L: CommandLine>(rt: &R, told: &mut T, line: &L)
where
    R: Files + AllocGlobal + Threads + Wait + Sync,
{
    let mut output = OutSink::new(Vec::new(rt.alloc()));
    run(rt, told, line, SystemFolder { rt }, &mut output);
    write_whole(told, &output.into_inner());
}

/// The same, where a signal interrupts each call.
fn show_interrupted<R, T: Write>(rt: &R, told: &mut T, line: &str)
where
    R: Files + AllocGlobal + Threads + Wait + Sync,
{
    let alloc = rt.alloc();
    let mut output = OutSink::new(Shaken::new(Vec::new(alloc)));
    let folder = ShakenFolder { rt };
    run(rt, told, &Row { line, alloc }, folder, &mut output);
    let Shaken { inner, .. } = output.into_inner();
    write_whole(told, &inner);
}

/// Does what a command line asks for, where the output is a full disk.
fn fill<R, T: Write>(rt: &R, told: &mut T, line: &str)
where
    R: Files + AllocGlobal + Threads + Wait + Sync,
{
    let alloc = rt.alloc();
    if let Ok(file) = File::create(rt, "/dev/full") {
        let mut output = OutSink::new(file);
        let folder = SystemFolder { rt };
        run(rt, told, &Row { line, alloc }, folder, &mut output);
    }
}

/// Why the words are not read, in a word.
fn fault_name(fault: WordFault) -> &'static str {
    match fault {
        WordFault::NoText => "NoText",
        WordFault::NoRoom => "NoRoom",
    }
}

/// Writes the words of a command line, or why they are not read.
fn write_words<T: Write, L: CommandLine>(told: &mut T, line: &L) {
    match line.words() {
        Ok(words) => {
            for word in &words {
                let _ = write!(told, "<{}>", word.as_str());
            }
        }
        Err(fault) => {
            let _ = write!(told, "{}", fault_name(fault));
        }
    }
    let _ = writeln!(told, "");
}

/// Does a command, whose words are cut at each space.
fn tell_command<R, T: Write>(rt: &R, told: &mut T, line: &str)
where
    R: Files + AllocGlobal + Threads + Wait + Sync,
{
    if let Some(words) = line.strip_suffix(" >/dev/full") {
        fill(rt, told, words);
        return;
    }
    if let Some(words) = line.strip_suffix(", interrupted") {
        show_interrupted(rt, told, words);
        return;
    }
    let alloc = rt.alloc();
    show(rt, told, &Row { line, alloc });
}

/// Writes what a text answers.
fn write_text<T: Write>(told: &mut T, alloc: Global, row: &str) -> Result<(), NoMemory> {
    let text = texts::answered(alloc, row)?;
    let _ = writeln!(told, "{}", text.as_str());
    Ok(())
}

/// Tells the words of a command line, or what becomes of it.
fn tell_given<R, T: Write>(rt: &R, told: &mut T, line: &str, is_done: bool) -> Result<(), NoMemory>
where
    R: Files + AllocGlobal + Threads + Wait + Sync,
{
    let bytes = given_by(rt.alloc(), line)?;
    let given = (Bytes(&bytes), rt.alloc());
    let line = SystemLine { rt: &given };
    if is_done {
        show(rt, told, &line);
    } else {
        write_words(told, &line);
    }
    Ok(())
}

/// Does what a line asks, and writes what comes of it.
fn answer<R, T: Write>(rt: &R, told: &mut T, line: &str) -> Result<(), NoMemory>
where
    R: Files + AllocGlobal + Threads + Wait + Sync,
{
    let (verb, rest) = line.split_once(' ').unwrap_or((line, ""));
    match verb {
        "text" => write_text(told, rt.alloc(), rest),
        "given" => tell_given(rt, told, line, false),
        "unread" => tell_given(rt, told, line, true),
        "two-callers" => two_callers::tell(rt, told),
        "no-room" => {
            show(rt, told, &NoRoom);
            Ok(())
        }
        _ => {
            tell_command(rt, told, line);
            Ok(())
        }
    }
}

/// Writes a line, and does what it asks.
fn tell<R, T: Write>(
    rt: &R,
    told: &mut T,
    shelf: &mut SafeShelf,
    line: &str,
) -> Result<(), NoMemory>
where
    R: Files + AllocGlobal + Threads + Wait + Sync,
{
    if line.starts_with('#') {
        let _ = writeln!(told, "{line}");
        return Ok(());
    }
    if let Some(step) = line.strip_prefix("memory ") {
        return in_memory::step(rt, told, shelf, step);
    }
    let _ = write!(told, "{line}: ");
    answer(rt, told, line)
}

fn main(rt: HostRuntime) -> ExitCode {
    let mut shelf = SafeShelf {
        files: Vec::new(rt.alloc()),
    };
    for line in rt.lines(rt.alloc()) {
        let Ok(line) = line else {
            return ExitCode::from(FAILED);
        };
        if tell(&rt, &mut rt.stdout(), &mut shelf, line.as_str()).is_err() {
            return ExitCode::from(FAILED);
        }
    }
    end_of(
        &rt,
        &SystemLine { rt: &rt },
        SystemFolder { rt: &rt },
        &mut OutSink::new(rt.stdout()),
        &mut OutSink::new(rt.stderr()),
    )
}
