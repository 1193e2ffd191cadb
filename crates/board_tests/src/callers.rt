//! What callers on threads of their own did at one board is in its history, whatever the schedule.

ghost use Rattle.std.specs.Prelude.{◌≡◌, ◌+◌, ◌<◌, ◌≤◌, [], length, All};
ghost use Rattle.board_prelude.specs.{Setup as Fitting, IsInRange};
ghost use Rattle.board_live.specs.Known.{most_each};
ghost use Rattle.board_live.specs.Bus.{IsNoLook};
ghost use Rattle.board_live.specs.Callers.{IsCallerOf, IsSameCaller, AreAllOf, mine_of};

use crate::plain::{PAM0, plain_board};
use access_history::Entries;
use board_base::{Dev, Kind, PortAccess, Target, Width};
use board_core::Board;
use board_live::{Cpu, Live};
use board_spec::{Entry, Event, Reply};
use std::alloc::Global;
use std::sync::Wait;
use std::test::Fail;
use std::thread::{Threads, for_each_mut};

/// Selects the registers 58h to 5Bh of the host bridge.
fn select() -> Event
    ensures in_range { (setup : Fitting) → IsInRange setup result }
    ensures no_look { IsNoLook result }
{
    Event::Port(PortAccess {
        write: true,
        port: 0xCF8,
        width: Width::Four,
        value: 0x8000_0058,
    })
}

/// Writes PAM0, register 59h, which governs F0000h to FFFFFh.
fn pam0(value: u8) -> Event
    ensures in_range { (setup : Fitting) → IsInRange setup result }
    ensures no_look { IsNoLook result }
{
    Event::Port(PortAccess {
        write: true,
        port: 0xCFD,
        width: Width::One,
        value: value.into(),
    })
}

/// The reply to a write that this target took.
fn written(target: Target) -> Reply {
    Reply::Bus {
        value: None,
        target,
        denial: None,
    }
}

/// What a caller's entry of this number is: it selects PAM0 and writes it, by turns, and writes 0, 1 and so on.
fn is_right(entry: &Entry) -> bool {
    if entry.seq % 2 == 1 {
        return entry.event == select() && entry.reply == written(Target::Device(Dev::Confadd));
    }
    let value = ((entry.seq / 2).wrapping_sub(1) % 256) as u8;
    entry.event == pam0(value) && entry.reply == written(Target::Config(PAM0))
}

/// Whether each of `n` callers has so many right entries, numbered from 1, and nobody else has any.
fn are_right(entries: &Entries<'_>, n: u8, each: u32) -> bool {
    let mut counts = [0_u32; 256];
    for i in 0..entries.len() {
        let entry = entries.entry(i);
        let actor = usize::from(entry.actor);
        counts[actor] = counts[actor].wrapping_add(1);
        if actor >= usize::from(n) || entry.seq != counts[actor] || !is_right(&entry) {
            return false;
        }
    }
    for actor in 0..usize::from(n) {
        if counts[actor] != each {
            return false;
        }
    }
    true
}

/// Does an event. It tells whether there was memory.
fn done<R: Wait>(cpu: &mut Cpu, live: &Live, rt: &R, event: &Event) -> bool
    requires own { IsCallerOf live.now cpu.old }
    requires event { (setup : Fitting) → IsInRange setup event.now }
    requires no_look { IsNoLook event.now }
    requires room { length (mine_of cpu.old) < most_each }
    ensures own { IsCallerOf live.now cpu.new }
    ensures same { IsSameCaller cpu.old cpu.new }
    ensures more { length (mine_of cpu.new) ≤ length (mine_of cpu.old) + 1 }
{
    match cpu.bus(live, rt, event) {
        Ok(_) => true,
        Err(_) => false,
    }
}

/// Selects and writes PAM0. It tells whether a look then shows more map writes than the caller had made.
fn write_once<R: Wait>(cpu: &mut Cpu, live: &Live, rt: &R, value: u8) -> bool
    requires own { IsCallerOf live.now cpu.old }
    requires room { length (mine_of cpu.old) + 1 < most_each }
    ensures own { IsCallerOf live.now cpu.new }
    ensures same { IsSameCaller cpu.old cpu.new }
    ensures more { length (mine_of cpu.new) ≤ length (mine_of cpu.old) + 2 }
{
    if !done(cpu, live, rt, &select()) {
        return false;
    }
    if !done(cpu, live, rt, &pam0(value)) {
        return false;
    }
    cpu.look(0xF_0000, Kind::Read, false).version > u32::from(value)
}

/// Selects and writes PAM0 some times. It ends early where a look shows too few map writes.
fn write_often<R: Wait>(cpu: &mut Cpu, live: &Live, rt: &R, times: u8)
    requires own { IsCallerOf live.now cpu.old }
    requires room { mine_of cpu.old ≡ [] }
    ensures own { IsCallerOf live.now cpu.new }
    ensures same { IsSameCaller cpu.old cpu.new }
{
    for value in 0..times {
        if !write_once(cpu, live, rt, value) {
            return;
        }
    }
}

/// All callers write, each on a thread of its own.
fn all_write<R: Threads + Wait + Sync>(rt: &R, live: &Live, cpus: &mut [Cpu], times: u8)
    requires some { 0 < length cpus.old }
    requires all { AreAllOf live.now cpus.old }
    requires new { All (λ cpu. mine_of cpu ≡ []) cpus.old }
    ensures all { AreAllOf live.now cpus.new }
{
    let count = cpus.len();
    for_each_mut(
        rt,
        cpus,
        count,
        &|_i: usize, cpu: &mut Cpu|
            requires { IsCallerOf live.now cpu.old × (mine_of cpu.old ≡ []) }
            ensures { IsCallerOf live.entry.now cpu.new × IsSameCaller cpu.old cpu.new }
        { write_often(cpu, live, rt, times) },
    );
}

/// The board that so many callers shared, each of which wrote some times.
fn shared_by<R: Threads + Wait + Sync>(
    rt: &R,
    alloc: Global,
    n: u8,
    times: u8,
) -> Result<Board, Fail>
    requires few { (1 ≤ n) × (n ≤ 8) }
{
    let board = plain_board(alloc, 1)?;
    match Live::open(rt, alloc, board, n) {
        Err(_) => Err("there was no memory".into()),
        Ok((live, mut cpus)) => {
            all_write(rt, &live, &mut cpus, times);
            Ok(live.close(rt, cpus))
        }
    }
}

#[test]
fn two_callers(rt: HostRuntime) -> Result<(), Fail> {
    let board = shared_by(&rt, rt.alloc(), 2, 100)?;
    assert!(rt; are_right(&board.history().entries(), 2, 200));
    assert!(rt; board.map().version() == 200);
    Ok(())
}

#[test]
fn eight_callers(rt: HostRuntime) -> Result<(), Fail> {
    let board = shared_by(&rt, rt.alloc(), 8, 50)?;
    assert!(rt; are_right(&board.history().entries(), 8, 100));
    assert!(rt; board.map().version() == 400);
    Ok(())
}
