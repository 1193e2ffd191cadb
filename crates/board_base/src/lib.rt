//! The types that every part of the board uses: accesses, what answers them, and dates.
#![tactic(auto)]

mod access;
pub mod bits;
mod moment;
mod no_memory;
mod steps;
mod target;

pub use access::{Access, Kind, PortAccess, WideAccess, Width};
pub use moment::Moment;
pub use no_memory::NoMemory;
pub use steps::Steps;
pub use target::{Area, Denial, Dev, Reg, Target};
