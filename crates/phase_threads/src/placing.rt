//! The order of a run beside the history of its board.

ghost use Rattle.std.specs.Prelude.{◌≡◌, ◌<◌, ◌≤◌, List, All, length, map, take, drop, reverse, OnOk};
ghost use Rattle.board_prelude.specs.{Entry as AnEntry, Setup, IsLegal};
ghost use Rattle.run_order.specs.Over.{AreActorsOf};
ghost use Rattle.run_order.specs.Placing.{placed};
ghost use Rattle.phase_threads.specs.Placed.{entries_of, IsUpToCount};

use board_base::NoMemory;
use run_order::{RunOrder, Works, has_looks};
use std::alloc::Global;

/// The order of a run, as far as it has come. While nobody has looked there is none, since it is the board's own.
#[derive(Drop)]
pub(crate) struct Placing {
    /// How many entries it will have at most.
    pub most: usize,
    pub order: Option<RunOrder>,
}

impl Placing {
    /// Adds what a phase did. `actors` are the processors of the entries of the board's own history, that of the oldest
    /// first, which had `opened` entries before. While nobody looks nothing is kept.
    pub(crate) fn add(
        &mut self,
        alloc: Global,
        version: u32,
        opened: usize,
        actors: &[u8],
        works: Works<'_>,
    ) -> Result<(), NoMemory>
        requires gained { opened ≤ length actors.now }
        requires up_to { IsUpToCount self.old.order opened }
        requires earlier { All (λ actor. actor < 8) (take opened actors.now) }
        requires callers { All (λ actor. actor < length works.items) (drop opened actors.now) }
        ensures placed { OnOk result ((setup : Setup) (bus : List AnEntry) → AreActorsOf actors.now bus
            → IsLegal setup (reverse bus) → entries_of self.new.order (reverse bus)
            ≡ placed version (drop opened bus) (map (λ done. done.now) works.entry.items)
            (entries_of self.old.order (reverse (take opened bus)))) }
        ensures up_to { OnOk result (IsUpToCount self.new.order (length actors.now)) }
    {
        if let Some(order) = &mut self.order {
            return order.place(version, &actors, works);
        }
        if !has_looks(&works) {
            return Ok(());
        }
        let before = &actors[..opened];
        let mut order = RunOrder::begin(alloc, self.most, &before)?;
        order.place(version, &actors, works)?;
        self.order = Some(order);
        Ok(())
    }
}
