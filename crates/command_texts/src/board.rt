//! The board that a script asks for.

ghost use Rattle.std.specs.Prelude.{◌≡◌, [], length, option_map, IfOk, IfErr, OnOk};
ghost use Rattle.board_spec.specs.Setup.{IsRomSize, IsDisk, IsCardList};
ghost use Rattle.script_spec.specs.ScriptRange.{IsInRangeScript};
ghost use Rattle.scripts.specs.Script.{said_of};
ghost use Rattle.command_texts.specs.Fitted.{IsNotOpened};
ghost use Rattle.script_spec.specs.Boards.{fitted};

use board_base::NoMemory;
use board_core::{Board, BoardOpen, Setup};
use pci_bars::CardSpec;
use scripts::Script;
use std::alloc::Global;

/// A copy of these cards, for a board to keep.
fn copies(alloc: Global, cards: &[CardSpec]) -> Result<Vec<CardSpec>, NoMemory>
    requires listed { IsCardList cards.now }
    ensures equal { IfOk result (λ copies. copies.items ≡ cards.now) }
{
    let mut copies = Vec::new(alloc);
    for card in cards {
        copies.push(card.copy())?;
    }
    Ok(copies)
}

/// The board of a script with these images, as after power-on. The ROM has 64, 128, 256 or 512 KiB. Refused where the
/// disk is not of 1 to 65,536 whole sectors, and for want of memory.
pub fn open_board(
    alloc: Global,
    script: &Script,
    rom: Vec<u8>,
    disk: Option<Vec<u8>>,
) -> Result<Board, BoardOpen>
    requires in_range { IsInRangeScript (said_of script.now) }
    requires size { IsRomSize (length rom.items) }
    ensures fresh { IfOk result (λ board. board ≡ record {
      setup = fitted (said_of script.now) rom.items (option_map (λ bytes. bytes.items) disk);
      entries = [];
      spare = 0;
    }) }
    ensures refused { IfErr result (IsNotOpened (option_map (λ bytes. bytes.items) disk)) }
    ensures disk { OnOk result (IsDisk (option_map (λ bytes. bytes.items) disk)) }
{
    let setup = Setup {
        mib: script.mib,
        cards: copies(alloc, &script.cards)?,
        rom,
        disk,
    };
    Board::open(alloc, setup)
}
