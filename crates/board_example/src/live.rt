//! The shared board: a caller does an event in a turn, and the board is taken back.

ghost use Rattle.std.specs.Prelude.{◌≡◌, []};

use crate::FIRST_FETCH;
use board_core::Board;
use board_live::{Live, LiveOpen};
use board_spec::Event;
use std::alloc::Global;
use std::sync::Wait;

/// Shares a fresh board with one caller, which fetches its first bytes, and gives the board back, with what it did.
/// Further callers would each be on a thread of their own. It may wait.
pub fn shared<R: Wait>(rt: &R, alloc: Global, board: Board) -> Result<Board, LiveOpen>
    requires fresh { board.entries ≡ [] }
{
    let (live, mut cpus) = Live::open(rt, alloc, board, 1)?;
    let _answered = cpus[0].bus(&live, rt, &Event::Memory(FIRST_FETCH));
    Ok(live.close(rt, cpus))
}
