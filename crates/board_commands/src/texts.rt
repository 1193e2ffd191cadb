//! The text of each command, from what it read.

ghost use Rattle.std.specs.Prelude.{ℕ, List, IfOk, IfErr};
ghost use Rattle.command_texts.specs.Replays.{IsReplayText, IsMapText, IsLegalText};
ghost use Rattle.command_texts.specs.Transfers.{IsTransferText};
ghost use Rattle.command_texts.specs.Images.{IsSaveText};
ghost use Rattle.command_texts.specs.Serial.{IsSerialText};
ghost use Rattle.command_texts.specs.Blame.{IsBlameText};
ghost use Rattle.command_words.specs.Words.{IsTransfer, IsCommand, Check, Resume};
ghost use Rattle.command_words.specs.Commands.{said_alone, said_by};
ghost use Rattle.command_files.specs.Known.{HasBoard, HasImage, HasRead};
ghost use Rattle.command_files.specs.Asked.{CanBeDone};
ghost use Rattle.board_commands.specs.Texts.{OnBoard, IsRunText, IsTextFor};
ghost use Rattle.board_commands.specs.Statuses.{HasNoText};

use crate::prepare::{Prepared, prepare};
use crate::run::log_of_run;
use board_base::NoMemory;
use board_outside::Gate;
use command_files::{Read, Status};
use command_texts::{
    blame_after_replay, image_of_replay, is_same_board, log_of_replay, log_of_resumed,
    map_after_replay, sent_in_replay, summary_of_made, transfer_after_replay, verdict_on_log,
};
use command_words::{Alone, Command, Transfer};
use logs::Text;
use std::alloc::Global;
use std::sync::Wait;
use std::thread::Threads;

/// The log of the replay of a script.
fn replay(alloc: Global, read: Read) -> Result<Text, NoMemory>
    requires board { HasBoard read }
    ensures text { IfOk result (OnBoard read IsReplayText) }
{
    let Prepared { script, board, .. } = prepare(alloc, read)?;
    log_of_replay(alloc, board, &script)
}

/// The address map after the replay of a script.
fn map(alloc: Global, read: Read) -> Result<Text, NoMemory>
    requires board { HasBoard read }
    ensures text { IfOk result (OnBoard read IsMapText) }
{
    let Prepared { script, board, .. } = prepare(alloc, read)?;
    map_after_replay(alloc, board, &script)
}

/// How a transfer of the bus master ends that is done after the replay of a script.
fn transfer(alloc: Global, transfer: &Transfer, read: Read) -> Result<Text, NoMemory>
    requires board { HasBoard read }
    requires asked { IsTransfer transfer.now }
    ensures text { IfOk result (OnBoard read (λ setup script. IsTransferText setup script transfer.now)) }
{
    let Prepared { script, board, .. } = prepare(alloc, read)?;
    transfer_after_replay(alloc, board, &script, transfer)
}

/// The image of the board after the replay of a script.
fn save(alloc: Global, read: Read) -> Result<Text, NoMemory>
    requires board { HasBoard read }
    ensures text { IfOk result (OnBoard read IsSaveText) }
{
    let mut prepared = prepare(alloc, read)?;
    image_of_replay(alloc, &mut prepared.board, &prepared.script)
}

/// The bytes that the serial port sends during the replay of a script, while it receives the input.
fn serial(alloc: Global, read: Read) -> Result<Text, NoMemory>
    requires board { HasBoard read }
    ensures text { IfOk result (OnBoard read (λ setup script. IsSerialText setup script read.input)) }
{
    let Prepared {
        script,
        board,
        input,
        ..
    } = prepare(alloc, read)?;
    sent_in_replay(alloc, board, &script, &input)
}

/// The address map after the replay of a script, with the map writes that made it.
fn blame(alloc: Global, read: Read) -> Result<Text, NoMemory>
    requires board { HasBoard read }
    ensures text { IfOk result (OnBoard read IsBlameText) }
{
    let Prepared { script, board, .. } = prepare(alloc, read)?;
    blame_after_replay(alloc, board, &script)
}

/// How many entries a log has, where it is that of a legal and complete history of a script.
fn verdict(alloc: Global, read: Read) -> Result<Text, Status>
    requires board { HasBoard read }
    ensures text { IfOk result (OnBoard read (λ setup script. IsLegalText setup script read.log)) }
    ensures stops { (script log : List ℕ) → IfErr result (HasNoText (Check script log) read) }
{
    let Prepared {
        script,
        board,
        log,
        ..
    } = prepare(alloc, read)?;
    let text = verdict_on_log(alloc, board, &script, &log)?;
    Ok(text)
}

/// The log of the board of an image that goes on with a script. OtherBoard where the script is for another board.
fn resume(alloc: Global, read: Read) -> Result<Text, Status>
    requires image { HasImage read }
    ensures text { (image script : List ℕ) → IfOk result (IsTextFor (Resume image script) read) }
    ensures done { (image script : List ℕ) → IfOk result (λ _. CanBeDone (Resume image script) read) }
    ensures stops { (image script : List ℕ) → IfErr result (HasNoText (Resume image script) read) }
{
    let Read { script, image, .. } = read;
    let Some(script) = script else { unreachable!() };
    let Some(image) = image else { unreachable!() };
    if !is_same_board(&image.setup, &script) {
        return Err(Status::OtherBoard);
    }
    Ok(log_of_resumed(alloc, image, &script)?)
}

/// The text of a command that waits for nobody, from what it read.
fn text_alone(alloc: Global, command: &Alone, read: Read) -> Result<Text, Status>
    requires called { IsCommand (said_alone command.now) }
    requires read { HasRead (said_alone command.now) read }
    ensures text { IfOk result (IsTextFor (said_alone command.now) read) }
    ensures done { IfOk result (λ _. CanBeDone (said_alone command.now) read) }
    ensures stops { IfErr result (HasNoText (said_alone command.now) read) }
{
    let text = match command {
        Alone::Check { .. } => return verdict(alloc, read),
        Alone::Resume { .. } => return resume(alloc, read),
        Alone::Replay(_) => replay(alloc, read),
        Alone::Map(_) => map(alloc, read),
        Alone::Make(rounds) => summary_of_made(alloc, *rounds),
        Alone::Dma {
            transfer: asked,
            ..
        } => transfer(alloc, asked, read),
        Alone::Save(_) => save(alloc, read),
        Alone::Serial { .. } => serial(alloc, read),
        Alone::Blame(_) => blame(alloc, read),
    };
    Ok(text?)
}

/// The log of a run of a script, with a thread for each processor.
fn run<R: Threads + Wait + Sync, G: Gate>(
    rt: &R,
    alloc: Global,
    read: Read,
    gate: &G,
) -> Result<Text, NoMemory>
    requires board { HasBoard read }
    ensures text { IfOk result (OnBoard read IsRunText) }
{
    let Prepared { script, board, .. } = prepare(alloc, read)?;
    log_of_run(rt, alloc, board, script, gate)
}

/// The text of a command, from what it read. Only that of `run` may wait.
pub(crate) fn text_of<R: Threads + Wait + Sync, G: Gate>(
    rt: &R,
    alloc: Global,
    command: &Command,
    read: Read,
    gate: &G,
) -> Result<Text, Status>
    requires called { IsCommand (said_by command.now) }
    requires read { HasRead (said_by command.now) read }
    ensures text { IfOk result (IsTextFor (said_by command.now) read) }
    ensures done { IfOk result (λ _. CanBeDone (said_by command.now) read) }
    ensures stops { IfErr result (HasNoText (said_by command.now) read) }
{
    match command {
        Command::Run(_) => Ok(run(rt, alloc, read, gate)?),
        Command::Alone(alone) => text_alone(alloc, alone, read),
    }
}
