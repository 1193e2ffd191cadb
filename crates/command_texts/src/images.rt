//! The commands `save` and `resume`: the image of a board, and the log of a board that goes on from its image.

ghost use Rattle.std.specs.Prelude.{◌≡◌, ◌≤◌, ◌↔◌, ◌++◌, true, IfOk};
ghost use Rattle.board_spec.specs.Orders.{IsReplayOf};
ghost use Rattle.script_spec.specs.ScriptRange.{IsInRangeScript, statements_in};
ghost use Rattle.scripts.specs.Script.{said_of};
ghost use Rattle.board_image.specs.ImageBytes.{IsImage};
ghost use Rattle.command_texts.specs.Fresh.{IsFreshFor};
ghost use Rattle.command_texts.specs.Images.{IsSaveText, IsResumeText};
ghost use Rattle.script_spec.specs.Boards.{IsForBoard};

use crate::replay::{do_statements, log_of_board, replay_script};
use board_base::NoMemory;
use board_core::{Board, Setup};
use board_image::{Image, ImageBytes, load, save};
use board_spec::laws::law_lock;
use logs::Text;
use pci_bars::CardSpec;
use scripts::Script;
use std::alloc::Global;

/// The version of the log of a resumed board, whatever the version of the script: version 2 has all kinds of
/// statements, and the image can hold any of them.
const LOG_VERSION: u8 = 2;

/// Whether two cards are equal.
#[tactic(auto, using(crate::proofs::Cards::is_same_card_rules))]
fn is_same_card(card: &CardSpec, other: &CardSpec) -> bool
    ensures same { (result ≡ true) ↔ (card.now ≡ other.now) }
{
    if card.dev != other.dev || card.vga != other.vga || card.rom != other.rom {
        return false;
    }
    card.bases == other.bases
}

/// Whether two lists have equal cards in the same order.
fn are_same_cards(cards: &[CardSpec], others: &[CardSpec]) -> bool
    ensures same { (result ≡ true) ↔ (cards.now ≡ others.now) }
{
    if cards.len() != others.len() {
        return false;
    }
    for (index, card) in cards.iter().enumerate() {
        if !is_same_card(card, &others[index]) {
            return false;
        }
    }
    true
}

/// Whether a script is for a board with this setup: both have the same memory and the same cards, and both have a disk
/// or neither has.
pub fn is_same_board(setup: &Setup, script: &Script) -> bool
    ensures same { (result ≡ true) ↔ IsForBoard setup.now (said_of script.now) }
{
    setup.mib == script.mib
        && setup.disk.is_some() == script.disk.is_some()
        && are_same_cards(&setup.cards, &script.cards)
}

/// The bytes of an image as a text.
fn text_of_image(alloc: Global, image: ImageBytes) -> Result<Text, NoMemory>
    ensures text { IfOk result (λ text. text ≡ image) }
{
    let (front, rom, disk, steps) = image.into_pieces();
    let mut text = Text::of_bytes(alloc, front)?;
    text.push_bytes(rom)?;
    text.push_bytes(disk)?;
    text.push_bytes(steps)?;
    Ok(text)
}

/// The image of the board of a script after the script's replay.
pub fn image_of_replay(alloc: Global, board: &mut Board, script: &Script) -> Result<Text, NoMemory>
    requires few_mib { board.old.setup.mib ≤ 64 }
    requires fresh { IsFreshFor (said_of script.now) board.old }
    ensures text { IfOk result (λ text. IsSaveText board.old.setup (said_of script.now) text) }
{
    replay_script(board, script)?;
    let image = save(alloc, board.setup(), board.history())?;
    text_of_image(alloc, image)
}

/// The board of an image, which has then done the statements of a script too.
#[tactic(auto, using(crate::proofs::Done::replay_goes_on, crate::proofs::Done::length_of_replay))]
fn resumed(alloc: Global, image: Image, script: &Script) -> Result<Board, NoMemory>
    requires image { IsImage image.setup image.steps }
    requires in_range { IsInRangeScript (said_of script.now) }
    requires same { IsForBoard image.setup (said_of script.now) }
    ensures setup { IfOk result (λ board. board.setup ≡ image.setup) }
    ensures replay { IfOk result (λ board. IsReplayOf image.setup
        (image.steps ++ statements_in (said_of script.now)) board.entries) }
{
    let mut board = load(alloc, image)?;
    do_statements(&mut board, script)?;
    Ok(board)
}

/// The log of a board that goes on from an image with the statements of a script: first the steps of the image, then
/// the script's. The ROM and the disk are those of the image. The image's memory is given back before the log takes its
/// own.
pub fn log_of_resumed(alloc: Global, image: Image, script: &Script) -> Result<Text, NoMemory>
    requires image { IsImage image.setup image.steps }
    requires in_range { IsInRangeScript (said_of script.now) }
    requires same { IsForBoard image.setup (said_of script.now) }
    ensures text { IfOk result (IsResumeText image (said_of script.now)) }
{
    let board = resumed(alloc, image, script)?;
    law_lock();
    log_of_board(alloc, LOG_VERSION, &board)
}
