//! The pair of 8259A interrupt controllers of a PC, the levels of its sixteen lines, and the order of their priorities.
#![tactic(auto)]

mod chip;
mod level_set;
mod lines;
mod pair;
mod priority;
mod state;

pub use level_set::LevelSet;
pub use lines::Lines;
pub use pair::{Ack, PicPair};
pub use priority::{LEVEL_COUNT, first_of, level_at};
pub use state::{law_one_lines, law_one_pair};
