//! Runs of two processors: the orders that a gate forces, those that none does, and the check of their logs.

use crate::commands::{answer, files_of, status_of};
use crate::holding_gate::HoldingGate;
use crate::holding_gate::Moment::{self, After, Before};
use board_commands::Status;
use board_outside::{QuietGate, SafeShelf, SafeSink};
use outside_doubles::{MemShelf, SlowShelf};
use std::alloc::Global;
use std::process::Abort;
use std::sync::Wait;
use std::thread::Threads;

/// Two processors, of which one looks while the other opens a window.
const TWO_PROCESSORS: &str = "\
board 1
cpus 2
memory 8
rom r64
phase
0 out d 0CF8 80000058
phase
0 out b 0CFD 10
1 look r 000F0000
";

/// The log of their replay.
const IN_FILE_ORDER: &str = "\
access log 1
1 0.1 out d 0CF8 80000058 = - confadd -
2 0.2 out b 0CFD 10 = - config:00.0.59 -
3 1.1 look r 000F0000 = 1 000F0000 000FFFFF shadow:0
";

/// The other legal log.
const LOOKED_FIRST: &str = "\
access log 1
1 0.1 out d 0CF8 80000058 = - confadd -
2 1.1 look r 000F0000 = 0 000F0000 000FFFFF rom
3 0.2 out b 0CFD 10 = - config:00.0.59 -
";

/// A log in which the look sees the window before it is opened.
const LOOKED_AHEAD: &str = "\
access log 1
1 0.1 out d 0CF8 80000058 = - confadd -
2 1.1 look r 000F0000 = 1 000F0000 000FFFFF shadow:0
3 0.2 out b 0CFD 10 = - config:00.0.59 -
";

/// Two processors that do the same, and look first.
const SIDE_BY_SIDE: &str = "\
board 1
cpus 2
memory 8
rom r64
phase
0 look r 000F0000
1 look r 000F0000
0 r b 000F0001
1 r b 000F0002
";

/// Runs a script with a gate that holds moments, of which none must be held in vain, and tells whether the log is this
/// one, where only one may come.
fn is_forced<R: Threads + Wait + Sync + Abort>(
    rt: &R,
    alloc: Global,
    script: &str,
    holds: &'static [(Moment, Moment)],
    log: Option<&str>,
) -> bool {
    let gate = HoldingGate::new(holds);
    let mut shelf = SafeShelf {
        files: files_of(rt, alloc, script.as_bytes(), &[]),
    };
    let mut out = SafeSink::new(alloc);
    let status = status_of(rt, alloc, &["run", "s"], &mut shelf, &mut out, &gate);
    status == Status::Done && gate.is_passed() && is_log(&out.bytes, log)
}

/// Whether a text is this log, where one is due.
fn is_log(text: &[u8], log: Option<&str>) -> bool {
    match log {
        Some(log) => text == log.as_bytes(),
        None => true,
    }
}

/// The statement of one processor ends before that of the other begins.
const WRITE_FIRST: [(Moment, Moment); 1] = [(After(0, 2), Before(1, 1))];

const LOOK_FIRST: [(Moment, Moment); 1] = [(After(1, 1), Before(0, 2))];

const OTHER_FIRST: [(Moment, Moment); 1] = [(After(1, 1), Before(0, 1))];

/// Both begin before either goes on.
const TOGETHER: [(Moment, Moment); 2] = [
    (Before(0, 1), Before(1, 1)),
    (Before(1, 1), Before(0, 1)),
];

#[test]
fn a_gate_forces_each_order(rt: HostRuntime) {
    let alloc = rt.alloc();
    assert!(rt;
        is_forced(
            &rt,
            alloc,
            TWO_PROCESSORS,
            &WRITE_FIRST,
            Some(IN_FILE_ORDER)
        )
    );
    assert!(rt; is_forced(&rt, alloc, TWO_PROCESSORS, &LOOK_FIRST, Some(LOOKED_FIRST)));
    assert!(rt; is_forced(&rt, alloc, SIDE_BY_SIDE, &TOGETHER, None));
    assert!(rt; is_forced(&rt, alloc, SIDE_BY_SIDE, &OTHER_FIRST, None));
}

#[test]
fn a_run_has_one_of_the_two_logs(rt: HostRuntime) {
    let script = TWO_PROCESSORS.as_bytes();
    let (status, log) = answer(&rt, rt.alloc(), &["run", "s"], script, &[]);
    let log = log.as_slice();
    assert!(rt; status == Status::Done);
    assert!(rt; log == IN_FILE_ORDER.as_bytes() || log == LOOKED_FIRST.as_bytes());
}

/// Whether the check of a log that comes byte by byte ends so, and puts this.
fn checks_so<R: Threads + Wait + Sync + Abort>(
    rt: &R,
    alloc: Global,
    log: &str,
    due: Status,
    text: &str,
) -> bool {
    let files = files_of(rt, alloc, TWO_PROCESSORS.as_bytes(), log.as_bytes());
    let mut shelf = SlowShelf::new(MemShelf::new(files, Vec::new(alloc)), 1);
    let mut out = SafeSink::new(alloc);
    let words = ["check", "s", "i"];
    let status = status_of(rt, alloc, &words, &mut shelf, &mut out, &QuietGate);
    status == due && out.bytes.as_slice() == text.as_bytes()
}

#[test]
fn logs_that_come_byte_by_byte(rt: HostRuntime) {
    let alloc = rt.alloc();
    let (third, first) = (Status::Differs { line: 3 }, Status::Differs { line: 1 });
    assert!(rt; checks_so(&rt, alloc, IN_FILE_ORDER, Status::Done, "legal 3\n"));
    assert!(rt; checks_so(&rt, alloc, LOOKED_FIRST, Status::Done, "legal 3\n"));
    assert!(rt; checks_so(&rt, alloc, LOOKED_AHEAD, third, ""));
    assert!(rt; checks_so(&rt, alloc, "", first, ""));
}
