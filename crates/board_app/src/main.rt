//! The program `board`, which is that of `board_main` over the system's words, files and output.
#![tactic(auto)]

use board_files::{FileShelf, OutSink, Patient, SystemFolder};
use board_main::{SystemLine, run_program};
use std::process::ExitCode;

fn main(rt: HostRuntime) -> ExitCode {
    let mut shelf = FileShelf::new(SystemFolder { rt: &rt });
    let mut out = OutSink::new(Patient::new(&rt, rt.stdout()));
    let mut errors = OutSink::new(Patient::new(&rt, rt.stderr()));
    run_program(
        &rt,
        &SystemLine { rt: &rt },
        &mut shelf,
        &mut out,
        &mut errors,
    )
}
