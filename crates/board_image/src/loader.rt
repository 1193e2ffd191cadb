//! Makes a board from an image.

ghost use Rattle.std.specs.Prelude.{◌≡◌, List, [], IfOk};
ghost use Rattle.board_prelude.specs.{Entry, IsSetup, IsLegal, IsReplayOf, statements_of};
ghost use Rattle.board_image.specs.ImageBytes.{IsImage};

use crate::image::Image;
use board_base::NoMemory;
use board_core::{Board, BoardOpen, Setup};
use board_spec::laws::law_one_replay;
use std::alloc::Global;

/// A fresh board.
fn fresh(alloc: Global, setup: Setup) -> Result<Board, NoMemory>
    requires fitted { IsSetup setup }
    ensures fresh { IfOk result (λ board. board ≡ record { setup = setup; entries = []; spare = 0 }) }
{
    match Board::open(alloc, setup) {
        Ok(board) => Ok(board),
        Err(BoardOpen::NoMemory) => Err(NoMemory),
        Err(_) => unreachable!(),
    }
}

/// The board of an image that `read_image` gave: it has done the steps of the image. So a board that was saved and
/// loaded has the history that it had, and goes on from there.
pub fn load(alloc: Global, image: Image) -> Result<Board, NoMemory>
    requires image { IsImage image.setup image.steps }
    ensures setup { IfOk result (λ board. board.setup ≡ image.setup) }
    ensures replay { IfOk result (λ board. IsReplayOf image.setup image.steps board.entries) }
    ensures saved { IfOk result (λ board. (history : List Entry) → IsLegal image.setup history
        → statements_of history ≡ image.steps → board.entries ≡ history) }
    ensures spare { IfOk result (λ board. board.spare ≡ 0) }
{
    let Image { setup, steps } = image;
    let mut board = fresh(alloc, setup)?;
    board.reserve(steps.len() as u32)?;
    board.steps(&steps);
    // No other history is legal and has these steps.
    law_one_replay();
    Ok(board)
}
