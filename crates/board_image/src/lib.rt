//! Images of boards: the setup of a board, and the events of its processors, as bytes. The replies follow from these,
//! so a board that is loaded from its image goes on as the board that was saved.
#![tactic(auto)]

mod card_reader;
mod event_reader;
mod event_writer;
mod fault;
mod format;
mod head;
mod image;
pub mod laws;
mod loader;
mod pieces;
mod reader;
mod tag;
mod writer;

pub use board_spec::Statement;
pub use card_reader::cards;
pub use fault::ImageFault;
pub use format::{IO_BASE, MAGIC, OUTSIDE_BASE, VERSION};
pub use image::Image;
pub use loader::load;
pub use pieces::ImageBytes;
pub use reader::read_image;
pub use tag::Tag;
pub use writer::{push_card, save};
