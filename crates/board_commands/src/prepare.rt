//! The board of the script that a command read.

ghost use Rattle.std.specs.Prelude.{◌≡◌, ◌≤◌, Some, IfOk};
ghost use Rattle.scripts.specs.Script.{said_of};
ghost use Rattle.command_texts.specs.Fresh.{IsFreshFor};
ghost use Rattle.command_files.specs.Known.{HasBoard, board_of};

use board_base::NoMemory;
use board_core::{Board, BoardOpen};
use command_files::Read;
use command_texts::open_board;
use scripts::Script;
use std::alloc::Global;

/// A script that was read, its board as after power-on, and the log or the input that was read with it.
#[derive(Drop)]
pub(crate) struct Prepared {
    pub script: Script,
    pub board: Board,
    pub log: Vec<u8>,
    pub input: Vec<u8>,
}

/// Opens the board of the script that was read, with the ROM and the disk that were read.
pub(crate) fn prepare(alloc: Global, read: Read) -> Result<Prepared, NoMemory>
    requires board { HasBoard read }
    ensures script { IfOk result (λ prepared. read.script ≡ Some (said_of prepared.script)) }
    ensures setup { IfOk result (λ prepared. prepared.board.setup ≡ board_of read (said_of prepared.script)) }
    ensures fresh { IfOk result (λ prepared. IsFreshFor (said_of prepared.script) prepared.board) }
    ensures few_mib { IfOk result (λ prepared. prepared.board.setup.mib ≤ 64) }
    ensures log { IfOk result (λ prepared. prepared.log.items ≡ read.log) }
    ensures input { IfOk result (λ prepared. prepared.input.items ≡ read.input) }
{
    let Read {
        script,
        rom,
        disk,
        log,
        input,
        image: _,
    } = read;
    let Some(script) = script else { unreachable!() };
    match open_board(alloc, &script, rom, disk) {
        Ok(board) => Ok(Prepared {
            script,
            board,
            log,
            input,
        }),
        Err(BoardOpen::NoMemory) => Err(NoMemory),
        Err(BoardOpen::BadRom) => unreachable!(),
        Err(BoardOpen::BadDisk) => unreachable!(),
    }
}
