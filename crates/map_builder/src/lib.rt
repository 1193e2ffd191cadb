//! The memory map as one list of ranges, built from the registers on which it depends; and the lists of ranges and of
//! windows of addresses that it is built of.
#![tactic(auto)]

mod build;
mod changed;
mod find;
mod flat_map;
pub mod laws;
mod list;
mod range;
mod ranges;
mod rows;
mod state;
mod unchanged;
mod widths;
mod windows;

pub use build::MOST_RANGES;
pub use find::index_of;
pub use flat_map::FlatMap;
pub use list::FixedList;
pub use range::{Changed, LAST_ADDRESS, Range, Span};
pub use ranges::{CAPACITY, Ranges, range_at};
pub use state::{law_one_map, law_same_map};
pub use windows::{Windows, bounds_of, joined, sort_into};
