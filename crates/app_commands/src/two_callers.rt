//! Two callers share a board, and what is refused for want of memory is asked for once more. So whichever allocation
//! is refused, the same is told: `tests/each-failure` refuses each in turn.

ghost use Rattle.std.specs.Prelude.{◌≡◌, ◌+◌, ◌<◌, ◌≤◌, [], length, All, IfOk};
ghost use Rattle.board_prelude.specs.{Setup as Fitting, IsInRange};
ghost use Rattle.board_live.specs.Known.{most_each};
ghost use Rattle.board_live.specs.Bus.{IsNoLook};
ghost use Rattle.board_live.specs.Callers.{IsCallerOf, IsSameCaller, AreAllOf, AreOpened, mine_of};

use board_base::{NoMemory, PortAccess, Width};
use board_core::{Board, BoardOpen, Setup};
use board_live::{Cpu, Live, LiveOpen};
use board_spec::Event;
use std::alloc::Global;
use std::io::Write;
use std::sync::Wait;
use std::thread::{Threads, for_each_mut};

/// Selects the registers 58h to 5Bh of the host bridge.
fn select() -> Event
    ensures in_range { (setup : Fitting) → IsInRange setup result }
    ensures no_look { IsNoLook result }
{
    Event::Port(PortAccess {
        write: true,
        port: 0xCF8,
        width: Width::Four,
        value: 0x8000_0058,
    })
}

/// Opens F0000h to FFFFFh for reads and writes, by PAM0, register 59h: a write that changes the map.
fn open_window() -> Event
    ensures in_range { (setup : Fitting) → IsInRange setup result }
    ensures no_look { IsNoLook result }
{
    Event::Port(PortAccess {
        write: true,
        port: 0xCFD,
        width: Width::One,
        value: 0x30,
    })
}

/// A board of 1 MiB without cards and without a disk.
fn open_board(alloc: Global) -> Result<Board, NoMemory>
    ensures fresh { IfOk result (λ board. board.entries ≡ []) }
{
    let setup = Setup {
        mib: 1,
        cards: Vec::new(alloc),
        rom: vec![in alloc; 0; 0x1_0000]?,
        disk: None,
    };
    match Board::open(alloc, setup) {
        Ok(board) => Ok(board),
        Err(BoardOpen::NoMemory) => Err(NoMemory),
        Err(BoardOpen::BadRom) => unreachable!(),
        Err(BoardOpen::BadDisk) => unreachable!(),
    }
}

/// Shares a board among two callers. Where memory is refused, it tries once more.
fn share<R: Wait>(rt: &R, alloc: Global, board: Board) -> Result<(Live, Vec<Cpu>), NoMemory>
    requires fresh { board.entries ≡ [] }
    ensures opened { IfOk result (λ opened. AreOpened board 2 opened.0 opened.1.items) }
{
    match Live::open(rt, alloc, board, 2) {
        Ok(opened) => Ok(opened),
        Err(LiveOpen { board }) => match Live::open(rt, alloc, board, 2) {
            Ok(opened) => Ok(opened),
            Err(_) => Err(NoMemory),
        },
    }
}

/// Does an event. Where memory is refused, it tries once more.
fn ask<R: Wait>(cpu: &mut Cpu, live: &Live, rt: &R, event: &Event)
    requires own { IsCallerOf live.now cpu.old }
    requires event { (setup : Fitting) → IsInRange setup event.now }
    requires no_look { IsNoLook event.now }
    requires room { length (mine_of cpu.old) < most_each }
    ensures own { IsCallerOf live.now cpu.new }
    ensures same { IsSameCaller cpu.old cpu.new }
    ensures more { length (mine_of cpu.new) ≤ length (mine_of cpu.old) + 1 }
{
    if cpu.bus(live, rt, event).is_err() {
        let _again = cpu.bus(live, rt, event);
    }
}

/// Selects PAM0, and writes it twice.
fn write_window<R: Wait>(cpu: &mut Cpu, live: &Live, rt: &R)
    requires own { IsCallerOf live.now cpu.old }
    requires new { mine_of cpu.old ≡ [] }
    ensures own { IsCallerOf live.now cpu.new }
    ensures same { IsSameCaller cpu.old cpu.new }
    ensures few { length (mine_of cpu.new) ≤ 3 }
{
    ask(cpu, live, rt, &select());
    ask(cpu, live, rt, &open_window());
    ask(cpu, live, rt, &open_window());
}

/// All callers write, one after another.
fn all_write<R: Threads + Wait + Sync>(rt: &R, live: &Live, cpus: &mut [Cpu])
    requires all { AreAllOf live.now cpus.old }
    requires new { All (λ cpu. mine_of cpu ≡ []) cpus.old }
    ensures all { AreAllOf live.now cpus.new }
{
    for_each_mut(
        rt,
        cpus,
        1,
        &|_i: usize, cpu: &mut Cpu|
            requires { IsCallerOf live.now cpu.old × (mine_of cpu.old ≡ []) }
            ensures { IsCallerOf live.entry.now cpu.new × IsSameCaller cpu.old cpu.new }
        { write_window(cpu, live, rt) },
    );
}

/// The board that two callers shared.
fn shared<R: Threads + Wait + Sync>(rt: &R, alloc: Global) -> Result<Board, NoMemory> {
    let board = open_board(alloc)?;
    let (live, mut cpus) = share(rt, alloc, board)?;
    all_write(rt, &live, &mut cpus);
    Ok(live.close(rt, cpus))
}

/// Tells the version of the map and each entry of the board that two callers shared.
pub fn tell<R: AllocGlobal + Threads + Wait + Sync, W: Write>(
    rt: &R,
    told: &mut W,
) -> Result<(), NoMemory> {
    let board = shared(rt, rt.alloc())?;
    let _ = writeln!(told, "version {}", board.map().version());
    let entries = board.history().entries();
    for index in 0..entries.len() {
        let _ = writeln!(told, "{:?}", entries.entry(index));
    }
    Ok(())
}
