//! The outside as the system gives it: files as a shelf, and a writer as a sink.
//!
//! Both are generic, so that their contracts speak of bytes: of those that a folder holds and a reader has left, and of
//! those that a writer took. Of real files and of standard output nothing is known.
#![tactic(auto)]

mod file_shelf;
mod folder;
mod out_sink;
mod patient;
mod tries;

pub use file_shelf::FileShelf;
pub use folder::{Folder, SystemFolder};
pub use out_sink::OutSink;
pub use patient::Patient;
