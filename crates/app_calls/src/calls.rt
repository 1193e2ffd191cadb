//! Which call a line is, by its word.

use crate::{config, image, kept, map, master, serial, state};
use board_base::NoMemory;
use std::alloc::Global;

/// Appends what a part of the board answers by itself.
fn answer_of_part(
    alloc: Global,
    call: &str,
    words: &[&str],
    text: &mut String,
) -> Result<(), NoMemory> {
    match call {
        "kept" => kept::tell(alloc, words, text),
        "edges" => map::tell_edges(words, text),
        "touches" => map::tell_touches(words, text),
        "changes" => map::tell_changes(words, text),
        "space" => config::tell_space(words, text),
        "confadd" => config::tell_address(words, text),
        _ => Ok(text.push_str("no such call")?),
    }
}

/// Does what a call asks, and appends the answer.
pub fn answer(
    alloc: Global,
    call: &str,
    words: &[&str],
    text: &mut String,
) -> Result<(), NoMemory> {
    match call {
        "image" => image::tell(alloc, words, text),
        "chipset-state" => state::tell_chipset(alloc, words, text),
        "serial-state" => state::tell_serial(alloc, words, text),
        "serial" => serial::tell(alloc, words, text),
        "master" => master::tell(alloc, words, text),
        _ => answer_of_part(alloc, call, words, text),
    }
}
