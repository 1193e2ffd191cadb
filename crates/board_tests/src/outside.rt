//! The outside: each call of it fails in turn, files come in pieces, and the calls are those that are due.

use crate::commands::{ROM_SIZE, SETUP, files_of, status_of};
use crate::told::{MadeFetch, ToldShelf, ToldSink};
use board_commands::{Status, Which};
use board_outside::QuietGate;
use outside_doubles::{MemShelf, MemSink, SlowShelf, SlowSink};
use std::alloc::{AllocError, Global};
use std::process::Abort;
use std::sync::Wait;
use std::thread::Threads;

/// The words of each command here.
const REPLAY: [&str; 2] = ["replay", "s"];

/// The log of a script without statements.
const EMPTY_LOG: &str = "access log 1\n";

/// A script, read in pieces of this size, which fetch and which put fail, what becomes of it, the name that the shelf
/// keeps, and how many bytes are put.
#[derive(Clone, Copy)]
struct FaultCase<'a> {
    script: &'a [u8],
    piece: usize,
    fetch: u32,
    put: u32,
    status: Status,
    name: &'a str,
    count: usize,
}

/// The shelf of a case.
fn shelf_of(rt: &impl Abort, alloc: Global, case: &FaultCase<'_>) -> SlowShelf {
    let files = files_of(rt, alloc, case.script, &[]);
    let failing = [case.fetch].to_vec(alloc).expect(rt, "a list");
    SlowShelf::new(MemShelf::new(files, failing), case.piece.max(1))
}

/// The sink of a case, which takes a byte a call.
fn sink_of(rt: &impl Abort, alloc: Global, case: &FaultCase<'_>) -> SlowSink {
    let failing = [case.put].to_vec(alloc).expect(rt, "a list");
    SlowSink::new(MemSink::new(alloc, failing), 1)
}

/// Whether the shelf kept the name of a case, and the sink took so many bytes of the log.
fn have_kept(shelf: &SlowShelf, out: &SlowSink, case: &FaultCase<'_>) -> bool {
    let put = out.inner.bytes.as_slice();
    shelf.inner.last.as_slice() == case.name.as_bytes()
        && put.len() == case.count
        && EMPTY_LOG.as_bytes().starts_with(put)
}

/// Replays the script of a case, and tells whether it ends as it must.
fn ends_so<R: Threads + Wait + Sync + Abort>(rt: &R, alloc: Global, case: &FaultCase<'_>) -> bool {
    let mut shelf = shelf_of(rt, alloc, case);
    let mut out = sink_of(rt, alloc, case);
    let status = status_of(rt, alloc, &REPLAY, &mut shelf, &mut out, &QuietGate);
    status == case.status && have_kept(&shelf, &out, case)
}

/// A replay in which nothing fails.
fn done() -> FaultCase<'static> {
    FaultCase {
        script: SETUP.as_bytes(),
        piece: ROM_SIZE,
        fetch: 0,
        put: 0,
        status: Status::Done,
        name: "",
        count: 13,
    }
}

/// One in which this fetch of a byte fails. The 33rd finds the end of the script.
fn fetch_case(fetch: u32) -> FaultCase<'static> {
    let (which, name) = if fetch == 34 {
        (Which::Rom, "r64")
    } else {
        (Which::Script, "s")
    };
    FaultCase {
        piece: 1,
        fetch,
        status: Status::ReadFault(which),
        name,
        count: 0,
        ..done()
    }
}

/// One in which this put of a byte fails, of thirteen.
fn put_case(put: u32) -> FaultCase<'static> {
    FaultCase {
        put,
        status: Status::WriteFault,
        count: put.saturating_sub(1) as usize,
        ..done()
    }
}

#[test]
fn each_call_of_the_outside_fails(rt: HostRuntime) {
    for fetch in 1..=34 {
        assert!(rt; ends_so(&rt, rt.alloc(), &fetch_case(fetch)));
    }
    for put in 1..=13 {
        assert!(rt; ends_so(&rt, rt.alloc(), &put_case(put)));
    }
    assert!(rt; ends_so(&rt, rt.alloc(), &FaultCase { put: 14, ..done() }));
}

/// A replay of a script that is cut short, and is refused.
fn cut_case(script: &[u8], status: Status) -> FaultCase<'_> {
    FaultCase {
        script,
        status,
        count: 0,
        ..done()
    }
}

/// A script without its last byte, which names a ROM that is not there.
fn other_rom() -> FaultCase<'static> {
    FaultCase {
        name: "r6",
        ..cut_case(
            "board 1\ncpus 1\nmemory 8\nrom r6".as_bytes(),
            Status::ReadFault(Which::Rom),
        )
    }
}

/// Whether a script is bad at this line, for this reason.
fn is_bad<R: Threads + Wait + Sync + Abort>(
    rt: &R,
    alloc: Global,
    script: &str,
    line: u32,
    why: u8,
) -> bool {
    let status = Status::BadScript { line, why };
    ends_so(rt, alloc, &cut_case(script.as_bytes(), status))
}

#[test]
fn scripts_of_other_lengths(rt: HostRuntime) {
    let alloc = rt.alloc();
    let too_long = vec![in alloc; 0; 0x100_0001].expect(&rt, "a script");
    assert!(rt;
        ends_so(
            &rt,
            alloc,
            &cut_case(&too_long, Status::TooLong(Which::Script))
        )
    );
    let without_line_feed = FaultCase {
        script: "board 1\ncpus 1\nmemory 8\nrom r64".as_bytes(),
        ..done()
    };
    assert!(rt; ends_so(&rt, alloc, &without_line_feed));
    assert!(rt; ends_so(&rt, alloc, &other_rom()));
    assert!(rt; is_bad(&rt, alloc, "board 1\ncpus 1\nmemory 8\nrom ", 4, 3));
    assert!(rt; is_bad(&rt, alloc, "board 1\ncpus 1\nmemory 8", 4, 6));
    assert!(rt; is_bad(&rt, alloc, "boar", 1, 1));
}

/// The fetches of a replay in pieces of 24 KiB: the file, the place, and how many bytes came. The latest comes first.
const FETCHES: &str = "\
r64 65536 Some(0)
r64 49152 Some(16384)
r64 24576 Some(24576)
r64 0 Some(24576)
s 32 Some(0)
s 0 Some(32)
";

/// Fetches in words.
fn in_words(alloc: Global, made: &[MadeFetch]) -> Result<String, AllocError> {
    let mut text = String::new(alloc);
    for fetch in made {
        write!(
            text,
            "{} {} {:?}\n",
            fetch.name.as_str(),
            fetch.at,
            fetch.came
        )?;
    }
    Ok(text)
}

#[test]
fn the_calls_of_a_replay(rt: HostRuntime) {
    let alloc = rt.alloc();
    let case = FaultCase {
        piece: 0x6000,
        ..done()
    };
    let mut shelf = ToldShelf {
        inner: shelf_of(&rt, alloc, &case),
        made: Vec::new(alloc),
        rt: &rt,
        alloc,
    };
    let mut out = ToldSink {
        inner: SlowSink::new(MemSink::new(alloc, Vec::new(alloc)), 5),
        made: Vec::new(alloc),
        rt: &rt,
    };
    let status = status_of(&rt, alloc, &REPLAY, &mut shelf, &mut out, &QuietGate);
    let fetches = in_words(alloc, &shelf.made).expect(&rt, "a text");
    assert!(rt; status == Status::Done);
    assert!(rt; fetches.as_str() == FETCHES);
    assert!(rt; out.made.as_slice() == [Some(3), Some(5), Some(5)].as_slice());
}
