//! A command over any shelf, sink and gate, and the files that the tests give it.

use board_commands::{Status, board};
use board_outside::{Gate, QuietGate, SafeShelf, SafeSink, Shelf, Sink};
use std::alloc::Global;
use std::process::Abort;
use std::sync::Wait;
use std::thread::Threads;

/// Files by their names.
pub type Files = Vec<(String, Vec<u8>)>;

/// The setup of a script without cards.
pub const SETUP: &str = "board 1\ncpus 1\nmemory 8\nrom r64\n";

/// The size of the ROM that it names.
pub const ROM_SIZE: usize = 0x1_0000;

/// Words, each a `String`.
fn words_of(rt: &impl Abort, alloc: Global, texts: &[&str]) -> Vec<String> {
    let mut words = Vec::new(alloc);
    for text in texts {
        let word = String::from_str(alloc, text).expect(rt, "a word");
        words.push(word).expect(rt, "words");
    }
    words
}

/// The bytes of the ROM: the byte at offset o is o mod 256.
pub fn rom(rt: &impl Abort, alloc: Global) -> Vec<u8> {
    let mut bytes = vec![in alloc; 0; ROM_SIZE].expect(rt, "a ROM");
    for offset in 0..bytes.len() {
        bytes[offset] = (offset % 256) as u8;
    }
    bytes
}

/// Adds a file.
pub fn add_file(rt: &impl Abort, alloc: Global, files: &mut Files, name: &str, bytes: &[u8]) {
    let name = String::from_str(alloc, name).expect(rt, "a name");
    let bytes = bytes.to_vec(alloc).expect(rt, "a file");
    files.push((name, bytes)).expect(rt, "files");
}

/// The files of a command: a script `s`, the ROM `r64`, and a log or an image `i`.
pub fn files_of(rt: &impl Abort, alloc: Global, script: &[u8], input: &[u8]) -> Files {
    let rom = rom(rt, alloc);
    let mut files = Vec::new(alloc);
    add_file(rt, alloc, &mut files, "s", script);
    add_file(rt, alloc, &mut files, "r64", &rom);
    add_file(rt, alloc, &mut files, "i", input);
    files
}

/// Does the command of these words. No clause stands here, so that no test is proved with those of `board`.
pub fn status_of<R: Threads + Wait + Sync + Abort, S: Shelf, K: Sink, G: Gate>(
    rt: &R,
    alloc: Global,
    words: &[&str],
    shelf: &mut S,
    out: &mut K,
    gate: &G,
) -> Status {
    let words = words_of(rt, alloc, words);
    board(rt, alloc, &words, shelf, out, gate)
}

/// How the command of these words ends over files in memory, and what it puts.
pub fn answer<R: Threads + Wait + Sync + Abort>(
    rt: &R,
    alloc: Global,
    words: &[&str],
    script: &[u8],
    input: &[u8],
) -> (Status, Vec<u8>) {
    let mut shelf = SafeShelf {
        files: files_of(rt, alloc, script, input),
    };
    let mut out = SafeSink::new(alloc);
    let status = status_of(rt, alloc, words, &mut shelf, &mut out, &QuietGate);
    (status, out.bytes)
}
