//! A board that records no history.
ghost use Rattle.std.specs.Prelude.{◌≡◌, [], map, reverse};
ghost use Rattle.board_prelude.specs.{IsLegal};
ghost use Rattle.board_core.specs.Kept.{HasPlayed};
ghost use Rattle.board_core.specs.Unrecorded.{actors_of};

use crate::Replay;
use crate::past::Past;
use crate::steps::Steps;
use addr_decode::MapChange;
use board_base::NoMemory;
use board_spec::{Entry, Event, Reply};
use map_builder::FlatMap;
use std::alloc::Global;
use std::marker::Model;

/// A board that records no history. Contracts see the same of it as of a `Board`. Of each entry it keeps the
/// processor's number alone.
#[derive(Drop)]
pub struct UnrecordedBoard {
    replay: Replay,
    /// The processor of each entry, the oldest first.
    actors: Vec<u8>,
    spare: u32,
    /// The history.
    past: Past<Entry>,
}

impl Model for UnrecordedBoard {
    ghost use Rattle.std.specs.Prelude.{vec_capacity};
    ghost use Rattle.board_core.specs.Kept.{Standing};
    ghost use Rattle.board_core.specs.Unrecorded.{IsPlayed};

    ghost Value = { Standing };

    ghost view = { λ board. record {
      setup = board.replay.chipset.setup;
      entries = board.past.entries;
      spare = board.spare;
    } };

    ghost invariant = { λ board. IsPlayed board.replay board.past.entries board.actors.items board.spare
        (vec_capacity board.actors) };
}

impl UnrecordedBoard {
    /// The board that a replay without entries stands for, without room for any.
    pub fn new(alloc: Global, replay: Replay) -> UnrecordedBoard
        requires fresh { HasPlayed replay [] }
        ensures fresh { result ≡ record { setup = replay.chipset.setup; entries = []; spare = 0 } }
    {
        UnrecordedBoard {
            replay,
            actors: Vec::new(alloc),
            spare: 0,
            past: Past::new(),
        }
    }

    /// The processor of each entry, the oldest first.
    pub fn actors(&self) -> &[u8]
        ensures actors { result.now ≡ actors_of self.now.entries }
        ensures legal { IsLegal self.now.setup self.now.entries }
    {
        &self.actors
    }
}

impl Steps for UnrecordedBoard {
    ghost standing = { λ board. board };

    fn count(&self) -> u32 {
        self.actors.len() as u32
    }

    fn reserve(&mut self, n: u32) -> Result<(), NoMemory> {
        if n > self.spare {
            self.actors.reserve(n as usize)?;
            self.spare = n;
        }
        Ok(())
    }

    fn step(&mut self, actor: u8, event: &Event) -> Reply {
        let reply = self.replay.answer(actor, event);
        let seq = self.replay.last_of(actor);
        self.actors.push(actor).unwrap();
        self.spare -= 1;
        self.past = self.past.and(&Entry {
            actor,
            seq,
            event: *event,
            reply,
        });
        reply
    }

    fn map_change(&self, event: &Event) -> Option<MapChange> {
        self.replay.map_change(event)
    }

    fn map(&self) -> &FlatMap {
        self.replay.map()
    }
}
