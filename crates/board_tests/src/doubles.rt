//! The shelves and sinks of these tests: when they fail, and what they move.

use crate::commands::{Files, add_file};
use arrayvec::ArrayVec;
use board_outside::{
    Failed, Gate, PutFault, QuietGate, SafeShelf, SafeSink, Shelf, Sink, keep_name,
};
use outside_doubles::{MemShelf, MemSink, SlowShelf, SlowSink};
use std::alloc::Global;
use std::process::Abort;

// 260 bytes: ten times the alphabet.
const LONG: &str = "abcdefghijklmnopqrstuvwxyzabcdefghijklmnopqrstuvwxyzabcdefghijklmnopqrstuvwxyz\
abcdefghijklmnopqrstuvwxyzabcdefghijklmnopqrstuvwxyzabcdefghijklmnopqrstuvwxyz\
abcdefghijklmnopqrstuvwxyzabcdefghijklmnopqrstuvwxyzabcdefghijklmnopqrstuvwxyz\
abcdefghijklmnopqrstuvwxyz";

// The bytes of a file.
const SCRIPT: &str = "0 r b 0";

// 32 bytes, no two alike.
const DIGITS: &str = "0123456789abcdefghijklmnopqrstuv";

// Whether one fetch answers so, and the shelf then has so many faults and this name.
fn reads_so(
    shelf: &mut MemShelf,
    name: &str,
    at: u64,
    want: Option<&str>,
    faults: u64,
    kept: &str,
) -> bool {
    reads(shelf, name, at, want)
        && shelf.faults == faults
        && shelf.last.as_slice() == kept.as_bytes()
}

#[test]
fn a_shelf_fails_by_its_list_and_at_missing_names(rt: HostRuntime) {
    let mut shelf = shelf_of(&rt, rt.alloc(), "script", SCRIPT, 1);
    let shelf = &mut shelf;
    assert!(rt; reads_so(shelf, "script", 0, None, 1, "script"));
    assert!(rt; reads_so(shelf, "script", 0, Some("0 r "), 1, "script"));
    assert!(rt; reads_so(shelf, "script", 4, Some("b 0"), 1, "script"));
    assert!(rt; reads_so(shelf, "script", 7, Some(""), 1, "script"));
    assert!(rt; reads_so(shelf, "script", u64::MAX, Some(""), 1, "script"));
    assert!(rt; reads_so(shelf, "rom", 0, None, 2, "rom"));
    assert!(rt; reads_so(shelf, "script", 6, Some("0"), 2, "rom"));
}

#[test]
fn a_safe_shelf_reads_a_missing_name_as_empty(rt: HostRuntime) {
    let mut shelf = SafeShelf {
        files: files(&rt, rt.alloc(), "script", SCRIPT),
    };
    assert!(rt; reads(&mut shelf, "script", 4, Some("b 0")));
    assert!(rt; reads(&mut shelf, "rom", 0, Some("")));
}

// Whether one put answers so, and the sink then has these bytes and so many faults.
fn puts_so(sink: &mut MemSink, want: Result<usize, PutFault>, bytes: &str, faults: u64) -> bool {
    puts(sink, b"log") == want && sink.bytes.as_slice() == bytes.as_bytes() && sink.faults == faults
}

#[test]
fn a_sink_fails_by_its_list(rt: HostRuntime) {
    let mut sink = sink_of(&rt, rt.alloc(), 2);
    assert!(rt; puts_so(&mut sink, Ok(3), "log", 0));
    assert!(rt; puts_so(&mut sink, Err(PutFault::Failed), "log", 1));
    assert!(rt; puts_so(&mut sink, Ok(3), "loglog", 1));
    let mut safe = SafeSink::new(rt.alloc());
    assert!(rt; puts(&mut safe, b"log") == Ok(3));
    assert!(rt; safe.bytes.as_slice() == b"log".as_slice());
}

// A shelf with one file, and a sink, of which this call fails, or none where it is 0.
fn shelf_of(rt: &impl Abort, alloc: Global, name: &str, text: &str, fetch: u32) -> MemShelf {
    let failing = [fetch].to_vec(alloc).expect(rt, "a list");
    MemShelf::new(files(rt, alloc, name, text), failing)
}

fn sink_of(rt: &impl Abort, alloc: Global, put: u32) -> MemSink {
    MemSink::new(alloc, [put].to_vec(alloc).expect(rt, "a list"))
}

// Whether so many bytes came over, and shelf and sink have so many faults.
fn have_moved(shelf: &SlowShelf, sink: &SlowSink, count: usize, faults: (u64, u64)) -> bool {
    let moved = sink.inner.bytes.as_slice();
    moved.len() == count
        && DIGITS.as_bytes().starts_with(moved)
        && shelf.inner.faults == faults.0
        && sink.inner.faults == faults.1
        && shelf.inner.last.is_empty() == (faults.0 == 0)
}

// Whether a slow copy ends so, where this fetch or this put fails.
fn copies_so(
    rt: &impl Abort,
    alloc: Global,
    fetch: u32,
    put: u32,
    count: usize,
    faults: (u64, u64),
) -> bool {
    let mut shelf = SlowShelf::new(shelf_of(rt, alloc, "digits", DIGITS, fetch), 1);
    let mut sink = SlowSink::new(sink_of(rt, alloc, put), 1);
    copy(&mut shelf, &mut sink, "digits");
    have_moved(&shelf, &sink, count, faults)
}

#[test]
fn a_slow_copy_ends_at_its_fault(rt: HostRuntime) {
    let alloc = rt.alloc();
    assert!(rt; copies_so(&rt, alloc, 0, 0, 32, (0, 0)));
    assert!(rt; copies_so(&rt, alloc, 1, 0, 0, (1, 0)));
    assert!(rt; copies_so(&rt, alloc, 2, 0, 1, (1, 0)));
    assert!(rt; copies_so(&rt, alloc, 32, 0, 31, (1, 0)));
    assert!(rt; copies_so(&rt, alloc, 33, 0, 32, (1, 0)));
    assert!(rt; copies_so(&rt, alloc, 34, 0, 32, (0, 0)));
    assert!(rt; copies_so(&rt, alloc, 0, 1, 0, (0, 1)));
    assert!(rt; copies_so(&rt, alloc, 0, 17, 16, (0, 1)));
    assert!(rt; copies_so(&rt, alloc, 0, 32, 31, (0, 1)));
    assert!(rt; copies_so(&rt, alloc, 0, 33, 32, (0, 0)));
}

#[test]
fn counts_stand_still_at_their_last_values(rt: HostRuntime) {
    let mut shelf = shelf_of(&rt, rt.alloc(), "script", SCRIPT, u32::MAX);
    let mut sink = sink_of(&rt, rt.alloc(), u32::MAX);
    shelf.calls = u32::MAX - 1;
    sink.calls = u32::MAX - 1;
    shelf.faults = u64::MAX - 1;
    sink.faults = u64::MAX - 1;
    for _ in 0..3 {
        assert!(rt; reads(&mut shelf, "script", 0, None));
        assert!(rt; puts(&mut sink, b"log") == Err(PutFault::Failed));
        assert!(rt; shelf.calls == u32::MAX && shelf.faults == u64::MAX);
        assert!(rt; sink.calls == u32::MAX && sink.faults == u64::MAX);
    }
}

// Whether so many bytes of a name are kept, the first ones.
fn keeps(name: &str, length: usize) -> bool {
    let mut kept = ArrayVec::new();
    keep_name(&mut kept, name);
    kept.len() == length && name.as_bytes().starts_with(kept.as_slice())
}

// The same where another name was kept before.
fn keeps_after(first: &str, name: &str, length: usize) -> bool {
    let mut kept = ArrayVec::new();
    keep_name(&mut kept, first);
    keep_name(&mut kept, name);
    kept.len() == length && name.as_bytes().starts_with(kept.as_slice())
}

#[test]
fn a_kept_name_has_at_most_255_bytes(rt: HostRuntime) {
    assert!(rt; keeps(LONG, 255));
    assert!(rt; keeps_after(LONG, "rom", 3));
    assert!(rt; keeps_after("rom", "", 0));
}

#[test]
fn a_quiet_gate_holds_nobody() {
    QuietGate.before(0, 1);
    QuietGate.after(0, 1);
}

// One file.
fn files(rt: &impl Abort, alloc: Global, name: &str, text: &str) -> Files {
    let mut files = Vec::new(alloc);
    add_file(rt, alloc, &mut files, name, text.as_bytes());
    files
}

// Copies a file of at most 32 bytes, piece by piece, up to its end or the first fault.
fn copy<S: Shelf, K: Sink>(shelf: &mut S, sink: &mut K, name: &str) {
    for at in 0..33 {
        let mut into = [0; 4];
        let Ok(count) = shelf.fetch(name, at, &mut into) else {
            return;
        };
        if count == 0 || sink.put(&into[..count]).is_err() {
            return;
        }
    }
}

// Whether one fetch into four bytes answers so: None stands for Failed.
fn reads<S: Shelf>(shelf: &mut S, name: &str, at: u64, want: Option<&str>) -> bool {
    let mut into = [0; 4];
    match shelf.fetch(name, at, &mut into) {
        Ok(count) => want.is_some_and(|text| text.as_bytes() == &into[..count]),
        Err(Failed) => want.is_none(),
    }
}

fn puts<K: Sink>(sink: &mut K, piece: &[u8; 3]) -> Result<usize, PutFault> {
    sink.put(piece)
}
