//! What of a board neither a command nor the library for C tells: each line of standard input is a call, a word and
//! what it is given, and is told with what it answers. `#` begins a comment, which is told as it is.
//!
//!     image bare|cards|step BYTES     where an image is bad, beyond what stands before its bytes
//!     chipset-state DISK BYTES CARD.. the state of a chipset as bytes: where it is bad, or that it is saved so
//!     serial-state DISK BYTES CARD..  the same with a serial port
//!     serial REQUEST..                a board with a UART on COM1, and the log of what the board itself was asked
//!     master PRESET STEP..            the registers of the bus master, over a board on which doublewords were written
//!     edges CARDS STEP..              the next edges of the map above addresses
//!     touches CARDS PLACE..           whether the map depends on a byte of a store
//!     changes CARDS STORE..           the first and the last address of what a store may change in the map
//!     space BYTE RESET MASK VALUE     a byte of configuration space, before and after a write and a reset
//!     confadd STEP..                  the configuration address, and what it selects
//!     kept MIB STRETCH PLACE..        how many bytes of each MiB a memory keeps
#![tactic(auto)]

mod calls;
mod config;
mod image;
mod kept;
mod map;
mod master;
mod serial;
mod setup;
mod state;
mod told;

use board_base::NoMemory;
use std::alloc::Global;
use std::io::Write;
use std::process::ExitCode;

/// The exit code for want of memory or of input.
const FAILED: u8 = 8;

/// What a line answers.
fn answered(alloc: Global, line: &str) -> Result<String, NoMemory> {
    let words: Vec<&str> = line.split(' ').collect(alloc)?;
    let mut text = String::new(alloc);
    if let Some((call, words)) = words.split_first() {
        calls::answer(alloc, call, words, &mut text)?;
    }
    Ok(text)
}

/// Tells a line and its answer.
fn tell_row<W: Write>(alloc: Global, out: &mut W, line: &str) -> Result<(), NoMemory> {
    if line.starts_with('#') {
        let _ = writeln!(out, "{line}");
        return Ok(());
    }
    let text = answered(alloc, line)?;
    let _ = writeln!(out, "{line}: {}", text.as_str());
    Ok(())
}

fn main(rt: HostRuntime) -> ExitCode {
    let alloc = rt.alloc();
    for line in rt.lines(alloc) {
        let Ok(line) = line else {
            return ExitCode::from(FAILED);
        };
        if tell_row(alloc, &mut rt.stdout(), line.as_str()).is_err() {
            return ExitCode::from(FAILED);
        }
    }
    ExitCode::from(0)
}
