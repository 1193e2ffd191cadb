//! The board while it is shared.
ghost use Rattle.std.specs.Prelude.{◌≡◌, ◌+◌, ◌<◌, ◌≤◌, [], length, map, slice_index_or, vec_capacity, All, IfOk};
ghost use Rattle.std.specs.Prelude.{IfErr};
ghost use Rattle.std.specs.List.{Any, range_with_len};
ghost use mathlib.Core.List.{IsPrefix};
ghost use Rattle.bus_turn.specs.Passes.{IsIdle, IsSameCaller as IsSamePass, number_of, splits_of, seen_of as seen_in};
ghost use Rattle.bus_turn.specs.Passes.{mine_of as mine_in, joined_of};
ghost use Rattle.bus_turn.specs.Turns.{IsOf};
ghost use Rattle.board_live.specs.Known.{AreFew};
ghost use Rattle.board_live.specs.Passes.{IsFresh, IsViewerFor, callers_in};

use crate::cpu::Cpu;
use crate::shared::Shared;
use crate::sharing::{shared, unshared};
use board_core::{Board, Steps};
use bus_turn::{Pass, Turn, TurnOpen};
use map_publish::Viewer;
use std::alloc::{AllocFailed, Global};
use std::sync::Wait;

/// A board that callers share by turns. `board_example::live` has an example.
pub struct Live<B: Steps = Board> {
    pub turn: Turn<Shared<B>>,
}

/// There was no memory. The board comes back.
#[derive(Drop)]
pub struct LiveOpen<B = Board> {
    pub board: B,
}

impl<B> LiveOpen<B> {
    /// Gives the board back from the heap.
    fn of(board: Box<B>) -> LiveOpen<B>
        ensures board { result.board ≡ board.value }
    {
        LiveOpen {
            board: Box::into_inner(board),
        }
    }
}

/// The place of the caller that has number 0.
fn place_of_first<B: Steps>(cpus: &[Cpu<B>]) -> usize
    requires first { Any (λ cpu. cpu.number ≡ 0) cpus.now }
    ensures place { result < length cpus.now }
    ensures first { (d : _) → (slice_index_or cpus.now result d).number ≡ 0 }
{
    for place in 0..cpus.len() {
        if cpus[place].number == 0 {
            return place;
        }
    }
    unreachable!()
}

impl<B: Steps> Live<B> {
    ghost use Rattle.board_live.specs.Callers.{IsCallerOf, IsNewOf, AreOpened, AreAllOf, ClosesBoard};
    ghost use Rattle.board_live.specs.Joins.{IsJoined};

    /// Shares a board among 1 to 8 callers, which are numbered from 0. Each entry of its history is of one of them, and
    /// none has more than 250,000. Refused for want of memory. Then it may wait, to end the published copies.
    pub fn open<R: Wait>(
        rt: &R,
        alloc: Global,
        board: B,
        n: u8,
    ) -> Result<(Live<B>, Vec<Cpu<B>>), LiveOpen<B>>
        requires few { AreFew n (B.standing board).entries }
        ensures opened { IfOk result (λ opened. AreOpened (B.standing board) n opened.0 opened.1.items) }
        ensures refused { IfErr result (λ refused. refused.board ≡ board) }
    {
        let board = match Box::new(alloc, board) {
            Ok(board) => board,
            Err(AllocFailed { value: board }) => return Err(LiveOpen { board }),
        };
        let Ok(cpus) = Vec::with_capacity(alloc, usize::from(n)) else {
            return Err(LiveOpen::of(board));
        };
        let map = board.map().copy();
        let Ok((publisher, viewers)) = map_publish::open(rt, alloc, map, u32::from(n)) else {
            cpus.destroy_empty();
            return Err(LiveOpen::of(board));
        };
        let publisher = match Box::new(alloc, publisher) {
            Ok(publisher) => publisher,
            Err(AllocFailed { value: publisher }) => {
                cpus.destroy_empty();
                publisher.close(rt);
                return Err(LiveOpen::of(board));
            }
        };
        match Turn::open(alloc, shared(board, publisher, n)) {
            Err(TurnOpen { value }) => {
                cpus.destroy_empty();
                let board = unshared(rt, value);
                Err(LiveOpen { board })
            }
            Ok((turn, pass)) => {
                let live = Live { turn };
                let cpus = live.callers(pass, viewers, cpus);
                Ok((live, cpus))
            }
        }
    }

    /// The callers of a turn that was just opened: one for each viewer. There is room for them.
    fn callers(&self, pass: Pass<Shared<B>>, viewers: Vec<Viewer>, cpus: Vec<Cpu<B>>) -> Vec<Cpu<B>>
        requires own { IsOf self.now.turn pass }
        requires idle { IsIdle pass }
        requires first { (number_of pass ≡ 0) × (splits_of pass ≡ 0) }
        requires fresh { IsFresh pass }
        requires viewers { All (IsViewerFor pass) viewers.items }
        requires count { length viewers.items ≡ callers_in pass }
        requires few { (1 ≤ callers_in pass) × (callers_in pass ≤ 8) }
        requires room { (cpus.items ≡ []) × (callers_in pass ≤ vec_capacity cpus) }
        ensures own { All (IsCallerOf self.now) result.items }
        ensures new { All (IsNewOf pass) result.items }
        ensures numbers { map (λ cpu. cpu.number) result.items ≡ range_with_len 0 (callers_in pass) }
    {
        let (mut pass, mut viewers, mut cpus) = (pass, viewers, cpus);
        let first = viewers.pop().unwrap();
        while let Some(viewer) = viewers.pop() {
            let further = self.turn.split(&mut pass);
            let number = cpus.len() as u8 + 1;
            cpus.push(Cpu::new(number, further, viewer)).unwrap();
        }
        cpus.insert(0, Cpu::new(0, pass, first)).unwrap();
        cpus
    }

    /// Ends the sharing, with all callers, and gives the board. It may wait for the turn.
    pub fn close<R: Wait>(self, rt: &R, cpus: Vec<Cpu<B>>) -> B
        requires cpus { AreAllOf self cpus.items }
        ensures cpus { All (ClosesBoard (B.standing result)) cpus.items }
        ensures entries { All (λ entry. Any (λ cpu. cpu.number ≡ entry.actor) cpus.items)
            (B.standing result).entries }
    {
        let mut cpus = cpus;
        let place = place_of_first(&cpus);
        let mut first = cpus.remove(place);
        first.catch_up(&self, rt);
        let Cpu {
            number: _number,
            mut pass,
            viewer: _viewer,
        } = first;
        self.join(rt, &mut pass, cpus);
        let Live { turn } = self;
        unshared(rt, turn.close(pass))
    }

    /// Joins the passes of callers into another, after each has learnt what is published.
    fn join<R: Wait>(&self, rt: &R, pass: &mut Pass<Shared<B>>, cpus: Vec<Cpu<B>>)
        requires own { IsOf self.now.turn pass.old }
        requires idle { IsIdle pass.old }
        requires cpus { All (IsCallerOf self.now) cpus.items }
        ensures own { IsOf self.now.turn pass.new }
        ensures idle { IsIdle pass.new }
        ensures same { IsSamePass pass.old pass.new × (splits_of pass.new ≡ splits_of pass.old)
            × (mine_in pass.new ≡ mine_in pass.old) }
        ensures count { length (joined_of pass.new) ≡ length (joined_of pass.old) + length cpus.items }
        ensures seen { IsPrefix (seen_in pass.old) (seen_in pass.new) }
        ensures joined { All (IsJoined pass.new) cpus.items }
    {
        let mut cpus = cpus;
        while let Some(cpu) = cpus.pop() {
            let mut cpu = cpu;
            cpu.catch_up(self, rt);
            let Cpu {
                number: _number,
                pass: other,
                viewer: _viewer,
            } = cpu;
            self.turn.join(pass, other);
        }
        cpus.destroy_empty();
    }
}
