//! Bytes as fields: read from the front one after another, each checked as it is read, and added at the end. Numbers
//! have their low byte first.
#![tactic(auto)]

mod fault;
mod fields;
mod pages;
mod push;

pub use fault::{Bad, Fault};
pub use fields::Fields;
pub use pages::{MEMORY_PAGE, push_memory, push_page, push_pages};
pub use push::{
    push_byte, push_bytes, push_flag, push_half, push_optional_byte, push_optional_word, push_word,
};
