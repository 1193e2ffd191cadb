//! Runs of eight processors, each with more than eight statements in a phase, and then each alone in phases of its own.

use crate::commands::{answer, files_of, status_of};
use crate::counting_gate::CountingGate;
use board_commands::Status;
use board_outside::{SafeShelf, SafeSink};
use std::alloc::{AllocError, Global};
use std::process::Abort;
use std::sync::Wait;
use std::thread::Threads;

/// The setup of eight processors.
const SETUP: &str = "board 1\ncpus 8\nmemory 8\nrom r64\n";

/// The processors.
const ACTORS: [&str; 8] = ["0", "1", "2", "3", "4", "5", "6", "7"];

/// What each processor does in turn.
const STATEMENTS: [&str; 3] = [
    " w b 00000010 05\n",
    " look r 000F0000\n",
    " r b 00000010\n",
];

/// How often each processor does so in each of two phases.
const ROUNDS: [usize; 2] = [3, 1];

/// How many statements each processor has: those of the rounds, and one in each phase of its own.
const EACH: u32 = 14;

/// The script.
fn script(alloc: Global) -> Result<String, AllocError> {
    let mut text = String::from_str(alloc, SETUP)?;
    for rounds in ROUNDS {
        text.push_str("phase\n")?;
        for _ in 0..rounds {
            push_round(&mut text)?;
        }
    }
    push_phases_of_one(&mut text)?;
    Ok(text)
}

/// Adds each statement once for each processor.
fn push_round(text: &mut String) -> Result<(), AllocError> {
    for statement in STATEMENTS {
        for actor in ACTORS {
            text.push_str(actor)?;
            text.push_str(statement)?;
        }
    }
    Ok(())
}

/// Adds two phases for each processor, in which it acts alone: it reads in one and looks in the other.
fn push_phases_of_one(text: &mut String) -> Result<(), AllocError> {
    for statement in [" r b 00000010\n", " look r 000F0000\n"] {
        for actor in ACTORS {
            text.push_str("phase\n")?;
            text.push_str(actor)?;
            text.push_str(statement)?;
        }
    }
    Ok(())
}

/// Runs the script, where each processor's statements are counted, and gives its log.
fn counted<R: Threads + Wait + Sync + Abort>(rt: &R, alloc: Global, script: &[u8]) -> Vec<u8> {
    let gate = CountingGate::new();
    let mut shelf = SafeShelf {
        files: files_of(rt, alloc, script, &[]),
    };
    let mut out = SafeSink::new(alloc);
    let status = status_of(rt, alloc, &["run", "s"], &mut shelf, &mut out, &gate);
    assert!(rt; status == Status::Done);
    assert!(rt; gate.has_counted(EACH));
    out.bytes
}

#[test]
fn eight_processors_together_and_each_alone(rt: HostRuntime) {
    let alloc = rt.alloc();
    let script = script(alloc).expect(&rt, "a script");
    let script = script.as_bytes();
    let log = counted(&rt, alloc, script);
    let (status, text) = answer(&rt, alloc, &["check", "s", "i"], script, &log);
    assert!(rt; status == Status::Done && text.as_slice() == "legal 112\n".as_bytes());
}
