//! Every map write of the made script: the map after it is the one built from scratch.

ghost use Rattle.std.specs.Prelude.{◌≡◌, [], OnOk, IfOk};
ghost use Rattle.board_spec.specs.Setup.{IsCardList};
ghost use Rattle.board_core.specs.Steps.{AreInRange};
ghost use Rattle.script_spec.specs.ScriptRange.{IsInRangeScript};
ghost use Rattle.scripts.specs.Script.{said_of};

use board_core::{Board, Setup};
use board_spec::Statement;
use board_spec::limits::MOST_STATEMENTS;
use make_script::{make_disk, make_rom, make_text};
use map_builder::FlatMap;
use pci_bars::CardSpec;
use scripts::{Script, read_script};
use std::alloc::Global;
use std::process::Abort;
use std::test::Fail;

/// More bytes than the made text has.
const TEXT_LIMIT: usize = 0x10_0000;

/// The script of so many rounds, read from its text.
fn made_script(rt: &impl Abort, alloc: Global, rounds: u32) -> Result<Script, Fail>
    ensures in_range { IfOk result (λ script. IsInRangeScript (said_of script)) }
{
    let text = make_text(alloc, rounds)?;
    assert!(rt; text.as_bytes().len() < TEXT_LIMIT);
    Ok(read_script(alloc, text.as_bytes())?)
}

/// Cards like these, for a board to keep.
fn copies(alloc: Global, cards: &[CardSpec]) -> Result<Vec<CardSpec>, Fail>
    requires listed { IsCardList cards.now }
    ensures equal { IfOk result (λ copies. copies.items ≡ cards.now) }
{
    let mut copies = Vec::new(alloc);
    for card in cards {
        copies.push(card.copy())?;
    }
    Ok(copies)
}

/// The board that the script is made for, with the images that are made.
fn made_board(alloc: Global, script: &Script) -> Result<Board, Fail>
    requires in_range { IsInRangeScript (said_of script.now) }
    ensures cards { IfOk result (λ board. board.setup.cards ≡ (said_of script.now).cards) }
{
    let setup = Setup {
        mib: script.mib,
        cards: copies(alloc, &script.cards)?,
        rom: make_rom(alloc)?,
        disk: Some(make_disk(alloc)?),
    };
    Ok(Board::open(alloc, setup)?)
}

/// Does statements on a board, and each of their map writes on a copy of its map too.
fn follow(
    rt: &impl Abort,
    board: &mut Board,
    map: &mut FlatMap,
    statements: &[Statement],
) -> Result<(), Fail>
    requires in_range { AreInRange board.old.setup statements.now }
    ensures setup { OnOk result (board.new.setup ≡ board.old.setup) }
{
    for statement in statements {
        assert!(rt; board.history().len() < MOST_STATEMENTS as u32);
        board.reserve(1)?;
        if let Some(change) = board.map_change(&statement.event) {
            assert!(rt; map.version() < MOST_STATEMENTS as u32);
            map.apply(&change);
            let anew = FlatMap::from_scratch(map.regs().copy());
            assert_eq!(rt; map.ranges(), anew.ranges());
        }
        board.step(statement.actor, &statement.event);
    }
    Ok(())
}

/// The same with each phase of a script.
fn follow_script(
    rt: &impl Abort,
    board: &mut Board,
    map: &mut FlatMap,
    script: &Script,
) -> Result<(), Fail>
    requires in_range { IsInRangeScript (said_of script.now) }
    requires cards { board.old.setup.cards ≡ (said_of script.now).cards }
{
    for phase in &script.phases {
        follow(rt, board, map, phase)?;
    }
    Ok(())
}

#[test]
fn made_maps_are_built_as_from_scratch(rt: HostRuntime) -> Result<(), Fail> {
    let script = made_script(&rt, rt.alloc(), 2_000)?;
    let mut board = made_board(rt.alloc(), &script)?;
    let mut map = board.map().copy();
    follow_script(&rt, &mut board, &mut map, &script)?;
    assert_eq!(rt; map.version(), 10);
    assert_eq!(rt; map.ranges(), board.map().ranges());
    Ok(())
}
