//! A board that keeps no history: a byte is written and read back.

use crate::fitted::fitted;
use board_base::{Access, Kind, Width};
use board_core::{BoardOpen, Replay};
use board_spec::{Entry, Event};
use std::alloc::Global;

/// A byte at 1000h.
const BYTE: Access = Access {
    kind: Kind::Read,
    addr: 0x1000,
    width: Width::One,
    smm: false,
    value: 0,
};

/// Writes a byte at 1000h of a board with this ROM, and gives the entry of the read after it.
pub fn read_back(alloc: Global, rom: Vec<u8>, byte: u8) -> Result<Entry, BoardOpen> {
    let mut replay = Replay::open(alloc, fitted(alloc, rom, None))?;
    let write = Access {
        kind: Kind::Write,
        value: byte.into(),
        ..BYTE
    };
    replay.step(0, &Event::Memory(write));
    Ok(replay.step(0, &Event::Memory(BYTE)))
}
