//! The command `make`: the program makes a script of many rounds, replays it and sums it up.

ghost use Rattle.std.specs.Prelude.{◌≡◌, ◌≤◌, [], IfOk};
ghost use Rattle.script_spec.specs.ScriptText.{IsScriptText};
ghost use Rattle.script_spec.specs.ScriptRange.{IsInRangeScript};
ghost use Rattle.scripts.specs.Script.{said_of};
ghost use Rattle.make_script.specs.MakeText.{make_text};
ghost use Rattle.make_script.specs.Laws.{most_rounds};
ghost use Rattle.command_texts.specs.Replays.{HasSummary, IsMakeText, made_setup_of};

use crate::board::open_board;
use crate::replay::replay_script;
use board_base::NoMemory;
use board_core::{Board, BoardOpen};
use logs::Text;
use make_script::laws::{law_made_script, law_make_text};
use make_script::{make_disk, make_rom, make_text, push_summary};
use scripts::{Script, ScriptFault, read_script};
use std::alloc::Global;

/// The made script of so many rounds, read from its text.
#[tactic(auto, using(crate::proofs::MadeScripts::made_script_rules))]
fn made_script(alloc: Global, rounds: u32) -> Result<Script, NoMemory>
    requires most { rounds ≤ most_rounds }
    ensures says { IfOk result (λ script. IsScriptText (make_text rounds) (said_of script)) }
    ensures in_range { IfOk result (λ script. IsInRangeScript (said_of script)) }
{
    law_make_text();
    let text = make_text(alloc, rounds)?;
    match read_script(alloc, text.as_bytes()) {
        Ok(script) => Ok(script),
        Err(ScriptFault::Bad { .. }) => unreachable!(),
        Err(ScriptFault::NoMemory) => Err(NoMemory),
    }
}

/// The board of the made script, with the ROM and the disk that are made for it.
#[tactic(auto, using(std::proofs::lemmas::Bool::Decides::nat_tests))]
fn made_board(alloc: Global, script: &Script) -> Result<Board, NoMemory>
    requires in_range { IsInRangeScript (said_of script.now) }
    ensures fresh { IfOk result (λ board. board ≡ record {
      setup = made_setup_of (said_of script.now);
      entries = [];
      spare = 0;
    }) }
{
    law_made_script();
    let rom = make_rom(alloc)?;
    let disk = make_disk(alloc)?;
    match open_board(alloc, script, rom, Some(disk)) {
        Ok(board) => Ok(board),
        Err(BoardOpen::NoMemory) => Err(NoMemory),
        Err(BoardOpen::BadRom) => unreachable!(),
        Err(BoardOpen::BadDisk) => unreachable!(),
    }
}

/// The summary of what a board did, and of its address map.
fn summary_of(alloc: Global, board: &Board) -> Result<Text, NoMemory>
    ensures summary { IfOk result (λ text. HasSummary board.now.setup board.now.entries text) }
{
    let mut text = String::new(alloc);
    let map = board.map();
    push_summary(
        &mut text,
        &board.history().entries(),
        map.version(),
        map.ranges().len(),
    )?;
    let text = Text::whole(alloc, text)?;
    Ok(text)
}

/// The summary of the replay of the made script of so many rounds, 1 to 20,000. No file is read.
#[tactic(auto, using(crate::proofs::MadeScripts::made_result, std::proofs::lemmas::Bool::Decides::nat_tests))]
pub fn summary_of_made(alloc: Global, rounds: u32) -> Result<Text, NoMemory>
    requires most { rounds ≤ most_rounds }
    ensures text { IfOk result (λ text. IsMakeText rounds text) }
{
    let script = made_script(alloc, rounds)?;
    let mut board = made_board(alloc, &script)?;
    replay_script(&mut board, &script)?;
    summary_of(alloc, &board)
}
