//! The bytes behind the addresses, and the bus cycles of an access that is wide or not aligned.
#![tactic(auto)]

mod cut;
mod join;
mod memory;
mod row;
mod stores;

pub use cut::{Cycle, cycles_of};
pub use join::{read_cycles, write_cycles};
pub use memory::{decoded, decoded_elsewhere, read, target_in, write};
pub use row::{parts_in_row, read_row, row_of_all, write_row};
pub use stores::Stores;
