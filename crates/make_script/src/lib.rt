//! The script that is made for a number of rounds, with the images that it names, and the summary of a history.
//! Each function that appends leaves what the text had: where memory runs out, a part of the new words may stand
//! after it.
#![tactic(auto)]

mod counts;
mod images;
pub mod laws;
mod script;
mod summary;

pub use images::{make_disk, make_rom};
pub use logs::Line;
pub use script::make_text;
pub use summary::push_summary;
