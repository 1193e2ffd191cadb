//! A caller of the shared board.
ghost use Rattle.std.specs.Prelude.{◌≡◌, ◌+◌, ◌<◌, length, IfOk, OnErr};
ghost use Rattle.board_spec.specs.InRange.{IsInRange};
ghost use Rattle.bus_turn.specs.Passes.{IsIdle, number_of, splits_of};
ghost use Rattle.map_publish.specs.Lists.{opened_of};
ghost use Rattle.board_live.specs.Known.{IsMapOpened};
ghost use Rattle.board_live.specs.Passes.{IsPassOf, IsFresh, IsViewerFor, callers_in, setup_in, opened_in};
ghost use Rattle.board_live.specs.Props.{Opens-prop};
ghost use Rattle.board_live.specs.PassProps.{IsPassOf-prop};

use crate::live::Live;
use crate::shared::{Answered, Shared};
use crate::turns::{enter, leave};
use board_base::{Kind, NoMemory};
use board_core::{Board, Steps};
use board_spec::{Event, Look};
use bus_turn::Pass;
use map_publish::Viewer;
use std::sync::Wait;

/// A caller: its number, its pass of the turn, and its viewer of the published map. It is not `Drop`: `Live::close`
/// ends it.
pub struct Cpu<B: Steps = Board> {
    pub number: u8,
    pub pass: Pass<Shared<B>>,
    pub viewer: Viewer,
    pub ghost passed: { IsPassOf number viewer.front.seen.book pass } by { IsPassOf-prop number
        viewer.front.seen.book pass },
    pub ghost idle: { IsIdle pass },
    pub ghost opens: { IsMapOpened (setup_in pass) (opened_in pass) (opened_of viewer.front.seen.log) } by { Opens-prop
        (setup_in pass) (opened_in pass) (opened_of viewer.front.seen.log) },
}

impl<B: Steps> Cpu<B> {
    ghost use Rattle.board_live.specs.Callers.{IsCallerOf, IsNewOf, IsSameCaller, setup_of, mine_of, known_of};
    ghost use Rattle.board_live.specs.Bus.{AddsByBus, AddsNone, IsNoLook};
    ghost use Rattle.map_publish.specs.Laws.{IsLookAfter};
    ghost use Rattle.board_live.specs.Known.{Extends, most_each};

    /// A caller that has seen what was opened.
    pub(crate) fn new(number: u8, pass: Pass<Shared<B>>, viewer: Viewer) -> Cpu<B>
        requires idle { IsIdle pass }
        requires number { number_of pass ≡ number }
        requires caller { number < callers_in pass }
        requires fresh { IsFresh pass }
        requires splits { number ≡ 0 → splits_of pass + 1 ≡ callers_in pass }
        requires viewer { IsViewerFor pass viewer }
        ensures number { result.number ≡ number }
        ensures pass { result.pass ≡ pass }
        ensures new { IsNewOf pass result }
    {
        Cpu {
            number,
            pass,
            viewer,
        }
    }

    /// Does an event at the shared board, in one turn. It waits for the turn, and for viewers that look at an older
    /// map. The event is in range and is no look, and the caller has fewer than 250,000 entries. Refused for want of
    /// memory; then no entry was added, and nothing was published.
    pub fn bus<R: Wait>(
        &mut self,
        live: &Live<B>,
        rt: &R,
        event: &Event,
    ) -> Result<Answered, NoMemory>
        requires own { IsCallerOf live.now self.old }
        requires event { IsInRange (setup_of self.old) event.now }
        requires no_look { IsNoLook event.now }
        requires room { length (mine_of self.old) < most_each }
        ensures own { IsCallerOf live.now self.new }
        ensures same { IsSameCaller self.old self.new }
        ensures added { IfOk result (λ answered. AddsByBus event.now answered self.old self.new) }
        ensures refused { OnErr result (AddsNone self.old self.new) }
    {
        let mut held = enter(&live.turn, rt, &mut self.pass, &mut self.viewer);
        match held.value.step(rt, self.number, event) {
            Ok(answered) => {
                live.turn.commit(&mut self.pass, &mut held);
                leave(&live.turn, &mut self.pass, &mut self.viewer, held);
                Ok(answered)
            }
            Err(NoMemory) => {
                leave(&live.turn, &mut self.pass, &mut self.viewer, held);
                Err(NoMemory)
            }
        }
    }

    /// Looks at the newest map that it finds: how many map writes led to it, and the longest interval round an address
    /// in which this kind of access has one area. It neither waits nor takes memory, and needs no turn.
    pub fn look(&mut self, addr: u32, kind: Kind, smm: bool) -> Look
        ensures pass { (self.new.number ≡ self.old.number) × (self.new.pass ≡ self.old.pass) }
        ensures later { Extends (known_of self.old) (known_of self.new) }
        ensures look { IsLookAfter (setup_of self.new) (known_of self.new) addr kind smm result }
    {
        self.viewer.look(addr, kind, smm)
    }

    /// How many map writes the caller knows.
    pub fn version(&self) -> u32
        ensures version { result ≡ length (known_of self.now) }
    {
        self.viewer.version()
    }

    /// Takes a turn without an event, after which the caller knows all that is published.
    pub(crate) fn catch_up<R: Wait>(&mut self, live: &Live<B>, rt: &R)
        requires own { IsCallerOf live.now self.old }
        ensures own { IsCallerOf live.now self.new }
        ensures same { IsSameCaller self.old self.new }
        ensures seen { AddsNone self.old self.new }
    {
        let held = enter(&live.turn, rt, &mut self.pass, &mut self.viewer);
        leave(&live.turn, &mut self.pass, &mut self.viewer, held);
    }
}
