//! Published copies of the memory map: one publisher changes it, and viewers look at the newest map without waiting.
//! What a viewer finds never goes back.
#![tactic(auto)]

mod front;
pub mod laws;
mod list;
mod mark;
mod names;
mod newest;
mod publisher;
mod sends;
mod shown;
mod sight;
mod viewer;

pub use board_base::{Kind, NoMemory};
pub use board_spec::{Look, MapChange};
pub use front::{Front, ListRule};
pub use map_builder::FlatMap;
pub use mark::Mark;
pub use publisher::{Publisher, open};
pub use viewer::{Note, Viewer};
