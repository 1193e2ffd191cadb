//! The MC146818 real time clock with its 128 bytes, at ports 70h and 71h.
#![tactic(auto)]

mod cmos;
mod control;
mod register;
mod second;
mod shown;
mod state;

pub use cmos::{CLOCK_BYTES, Cmos};
pub use second::law_seconds_follow;
pub use state::{CLOCK_STATE_BYTES, law_one_clock};
