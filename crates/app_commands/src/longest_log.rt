//! The log of the longest script.

use board_base::NoMemory;
use std::alloc::Global;
use std::fmt::Write;

/// How many phases the script has, the most of a script.
const PHASES: u32 = 1_000;
/// How many statements each phase has, so that they are the most of a script, 250,000.
const STATEMENTS: u32 = 250;
/// How many processors do a phase each by turns.
const CPUS: u32 = 8;
/// How many statements of the script each of them does.
const OWN: u64 = 31_250;

/// Appends the line of a read, which is a wide access in four parts.
fn push_line(log: &mut String, number: u64, cpu: u32, own: u64) -> Result<(), NoMemory> {
    Ok(write!(
        log,
        "{number} {cpu}.{own} r q 00001001 = 0000000000000000 dram:0 - dram:0 - dram:0 - dram:0 -\n"
    )?)
}

/// The log of the longest script, done so many times.
pub fn log_of_rounds(alloc: Global, rounds: u32) -> Result<Vec<u8>, NoMemory> {
    let mut log = "access log 2\n".to_string(alloc)?;
    let mut number = 0u64;
    for round in 0..rounds {
        for phase in 0..PHASES {
            for place in 1..=STATEMENTS {
                number = number.wrapping_add(1);
                let own = u64::from(round) * OWN + u64::from(phase / CPUS * STATEMENTS + place);
                push_line(&mut log, number, phase % CPUS, own)?;
            }
        }
    }
    Ok(log.as_bytes().to_vec(alloc)?)
}
