//! The order of the entries of a run, with the looks of all processors.

ghost use Rattle.std.specs.Prelude.{◌≡◌, ◌-◌, ◌+◌, ◌<◌, ◌≤◌, List, [], ◌∷◌, length, map, drop, reverse, slice_index_or};
ghost use Rattle.std.specs.Prelude.{All, max, IsFalse, IsOk, IfOk, OnOk, OnErr};
ghost use Rattle.board_prelude.specs.{Entry, Saw, Setup, IsLegal, entries_by, next_entry};
ghost use Rattle.board_spec.specs.declared.event.Event.TheVariants.{Look as LookAt};
ghost use Rattle.run_order.specs.Over.{AreActorsOf, IsPlacedBelow, entry_of, nowhere, over};
ghost use Rattle.run_order.specs.Placing.{with_looks, left_after, with_all_looks, all_left, placed};
ghost use Rattle.run_order.specs.Room.{in_all, most, looks_in, all_looks_in};
ghost use Rattle.run_order.specs.Settled.{IsSettledBut};

use crate::actors::Actors;
use crate::done::Done;
use crate::entry::RunEntry;
use crate::next::{NextLook, due_look, has_look, looks_in, noted, without_first};
use arrayvec::ArrayVec;
use board_base::NoMemory;
use std::alloc::Global;
use std::marker::Model;

/// How many processors a board has at most.
pub(crate) const MOST_PROCESSORS: usize = 8;

/// How many entries a run has at most.
const MOST_ENTRIES: usize = u32::MAX as usize;

/// What each processor did in a phase, the oldest first, from processor 0 on.
pub type Works<'a> = ArrayVec<&'a [Done], MOST_PROCESSORS>;

/// The order of the entries of a run: the places of those of the bus's history, and the looks. Contracts see its
/// entries, the newest first, how many more it has room for, and how many of the bus's history are among them.
#[derive(Drop)]
pub struct RunOrder {
    entries: Vec<RunEntry>,
    spare: usize,
    bus: u32,
    /// How many entries each processor has.
    counts: [u32; MOST_PROCESSORS],
}

impl Model for RunOrder {
    ghost use Rattle.std.specs.Prelude.{reverse, vec_capacity};
    ghost use Rattle.run_order.specs.Room.{Order, IsOrder};

    ghost Value = { Order };

    ghost view = { λ order. record { entries = reverse order.entries.items; spare = order.spare; bus = order.bus } };

    ghost invariant = { λ order. IsOrder
        (record { entries = reverse order.entries.items; spare = order.spare; bus = order.bus })
        (vec_capacity order.entries) order.counts };
}

/// Whether a processor looked in a phase.
#[tactic(auto, using(crate::proofs::Counts::nobody_looked))]
pub fn has_looks(works: &Works) -> bool
    ensures none { IsFalse result → all_looks_in (map (λ done. done.now) works.now.items) ≡ 0 }
{
    works.iter().any(|done| has_look(done))
}

/// How many entries a phase adds: those of the bus, which are `later`, and the looks.
fn entries_in(later: usize, works: &Works) -> usize
    ensures count { result < most → result ≡ later + all_looks_in (map (λ done. done.now) works.now.items) }
    ensures small { result ≤ later + all_looks_in (map (λ done. done.now) works.now.items) }
{
    let mut count = later;
    for done in works.iter() {
        count = count.saturating_add(looks_in(done));
    }
    count
}

impl RunOrder {
    /// An order without entries.
    pub fn new(alloc: Global) -> RunOrder
        ensures empty { result ≡ record { entries = []; spare = 0; bus = 0 } }
    {
        RunOrder {
            entries: Vec::new(alloc),
            spare: 0,
            bus: 0,
            counts: [0; MOST_PROCESSORS],
        }
    }

    /// The order in which a bus has its entries, whose processors are given, that of the oldest first. It has room for
    /// `most` entries in all. Refused for want of memory, or where there would be 2^32 entries.
    pub fn begin<A: Actors>(alloc: Global, most: usize, actors: &A) -> Result<RunOrder, NoMemory>
        requires callers { All (λ actor. actor < 8) (A.actors actors.now) }
        ensures same { IfOk result (λ order. (setup : Setup) (bus : List Entry) → AreActorsOf (A.actors actors.now) bus
            → IsLegal setup (reverse bus) → over bus order.entries ≡ reverse bus) }
        ensures bus { IfOk result (λ order. order.bus ≡ length (A.actors actors.now)) }
        ensures room { IfOk result (λ order. most ≤ in_all order) }
    {
        let mut order = RunOrder::new(alloc);
        order.reserve(most.max(actors.len()))?;
        for i in 0..actors.len() {
            order.push_bus(actors.actor(i));
        }
        Ok(order)
    }

    /// All entries, the oldest first.
    pub fn entries(&self) -> &[RunEntry]
        ensures entries { result.now ≡ reverse self.now.entries }
        ensures within { All (IsPlacedBelow self.now.bus) result.now }
    {
        &self.entries
    }

    /// The processors of all entries, that of the oldest first.
    pub fn actors(&self, alloc: Global) -> Result<Vec<u8>, NoMemory>
        ensures actors { IfOk result (λ actors. (bus : List Entry)
            → AreActorsOf actors.items (reverse (over bus self.now.entries))) }
    {
        let mut actors = Vec::with_capacity(alloc, self.entries.len())?;
        for entry in &self.entries {
            actors.push(entry.actor())?;
        }
        Ok(actors)
    }

    /// Adds the entries that the bus's history gained in a phase and the looks of all processors at their places.
    /// `actors` are the processors of the bus's history with them, that of the oldest first, and `version` is that of
    /// the map before the phase. Of the room that there was it uses what it needs, and keeps the rest. Where there is
    /// no memory, or there would be 2^32 entries, nothing changes.
    pub fn place<A: Actors>(
        &mut self,
        version: u32,
        actors: &A,
        mut works: Works,
    ) -> Result<(), NoMemory>
        requires gained { self.old.bus ≤ length (A.actors actors.now) }
        requires callers { All (λ actor. actor < length works.items) (drop self.old.bus (A.actors actors.now)) }
        ensures placed { OnOk result ((bus : List Entry) → AreActorsOf (A.actors actors.now) bus
            → over bus self.new.entries ≡ placed version (drop self.old.bus bus)
            (map (λ done. done.now) works.entry.items) (over bus self.old.entries)) }
        ensures bus { OnOk result (self.new.bus ≡ length (A.actors actors.now)) }
        ensures within { All (IsPlacedBelow self.old.bus) self.old.entries }
        ensures keeps { OnOk result (in_all self.old ≤ in_all self.new) }
        ensures unplaced { OnErr result (self.new ≡ self.old) }
        ensures room { length (drop self.old.bus (A.actors actors.now))
            + all_looks_in (map (λ done. done.now) works.entry.items) ≤ self.old.spare → IsOk result }
    {
        self.reserve(entries_in(actors.len() - self.bus as usize, &works))?;
        self.place_all(version, actors, works.as_mut_slice());
        Ok(())
    }

    /// Makes room for at least `n` more entries, where those of the run with them stay below 2^32.
    fn reserve(&mut self, n: usize) -> Result<(), NoMemory>
        ensures ok { OnOk result (self.new ≡ record self.old { spare = max self.old.spare n }) }
        ensures few { OnOk result (n < most) }
        ensures err { OnErr result (self.new ≡ self.old) }
        ensures room { n ≤ self.old.spare → IsOk result }
    {
        if n > MOST_ENTRIES - self.entries.len() {
            return Err(NoMemory);
        }
        if n > self.spare {
            self.entries.reserve(n)?;
            self.spare = n;
        }
        Ok(())
    }

    /// The number that a processor's next entry has.
    fn next_number(&self, actor: u8) -> u32
        requires actor { actor < 8 }
        requires room { 1 ≤ self.now.spare }
        ensures number { (bus : List Entry) → result ≡ length (entries_by actor (over bus self.now.entries)) + 1 }
    {
        self.counts[usize::from(actor)] + 1
    }

    /// Adds an entry of a processor, in the room that was reserved. Then the entries of the bus's history up to `bus`
    /// are among them.
    fn push(&mut self, actor: u8, entry: RunEntry, bus: u32)
        requires actor { actor < 8 }
        requires own { (of_bus : List Entry) → (entry_of of_bus entry).actor ≡ actor }
        requires within { IsPlacedBelow bus entry }
        requires least { self.old.bus ≤ bus }
        requires next { bus ≤ self.old.bus + 1 }
        requires room { 1 ≤ self.old.spare }
        ensures pushed { self.new ≡ record {
          entries = entry ∷ self.old.entries;
          spare = self.old.spare - 1;
          bus = bus;
        } }
    {
        self.entries.push(entry).unwrap();
        self.spare -= 1;
        self.bus = bus;
        self.counts[usize::from(actor)] += 1;
    }

    /// Adds the next entry of the bus's history in the room that was reserved, numbered as its processor's next.
    fn push_bus(&mut self, actor: u8)
        requires actor { actor < 8 }
        requires room { 1 ≤ self.old.spare }
        ensures pushed { (bus : List Entry) → over bus self.new.entries
            ≡ next_entry (over bus self.old.entries) actor (slice_index_or bus self.old.bus nowhere).event
            (slice_index_or bus self.old.bus nowhere).reply ∷ over bus self.old.entries }
        ensures bus { self.new.bus ≡ self.old.bus + 1 }
        ensures spare { self.new.spare ≡ self.old.spare - 1 }
        ensures keeps { in_all self.new ≡ in_all self.old }
    {
        let seq = self.next_number(actor);
        let place = self.bus;
        self.push(actor, RunEntry::Bus { actor, seq, place }, place + 1);
    }

    /// Adds a look in the room that was reserved, numbered as its processor's next.
    fn push_look(&mut self, actor: u8, next: &NextLook<'_>)
        requires actor { actor < 8 }
        requires room { 1 ≤ self.old.spare }
        ensures pushed { (bus : List Entry) → over bus self.new.entries
            ≡ next_entry (over bus self.old.entries) actor (LookAt next.now.kind next.now.addr next.now.smm)
            (Saw next.now.look) ∷ over bus self.old.entries }
        ensures bus { self.new.bus ≡ self.old.bus }
        ensures spare { self.new.spare ≡ self.old.spare - 1 }
        ensures keeps { in_all self.new ≡ in_all self.old }
    {
        let entry = RunEntry::Look {
            actor,
            seq: self.next_number(actor),
            kind: next.kind,
            smm: next.smm,
            addr: next.addr,
            look: next.look,
        };
        self.push(actor, entry, self.bus);
    }

    /// Adds the looks that come first in what a processor did, as far as they are of this version or of one before.
    /// What is left comes back.
    fn looks<'a>(&mut self, version: u32, actor: u8, done: &'a [Done]) -> &'a [Done]
        requires actor { actor < 8 }
        requires room { looks_in done.now ≤ self.old.spare }
        ensures placed { (bus : List Entry) → over bus self.new.entries
            ≡ with_looks version actor done.now (over bus self.old.entries) }
        ensures left { result.now ≡ left_after version done.now }
        ensures bus { self.new.bus ≡ self.old.bus }
        ensures room { self.new.spare + looks_in done.now ≡ self.old.spare + looks_in result.now }
        ensures keeps { in_all self.new ≡ in_all self.old }
    {
        let mut rest = done;
        while let Some(next) = due_look(version, rest) {
            self.push_look(actor, &next);
            rest = next.after;
        }
        rest
    }

    /// The same for each processor.
    fn all_looks(&mut self, version: u32, rests: &mut [&[Done]])
        requires few { length rests.old ≤ 8 }
        requires room { all_looks_in (map (λ done. done.now) rests.old) ≤ self.old.spare }
        ensures placed { (bus : List Entry) → over bus self.new.entries
            ≡ with_all_looks version 0 (map (λ done. done.now) rests.old) (over bus self.old.entries) }
        ensures left { map (λ done. done.now) rests.new ≡ all_left version (map (λ done. done.now) rests.old) }
        ensures bus { self.new.bus ≡ self.old.bus }
        ensures room { self.new.spare + all_looks_in (map (λ done. done.now) rests.old)
            ≡ self.old.spare + all_looks_in (map (λ done. done.now) rests.new) }
        ensures keeps { in_all self.new ≡ in_all self.old }
    {
        for actor in 0..rests.len() {
            rests[actor] = self.looks(version, actor as u8, rests[actor]);
        }
    }

    /// Adds the looks that are due after an entry of this processor. The version was `before`, and then no look was
    /// due; so while the version stays, none but this processor's is.
    fn next_looks(&mut self, before: u32, version: u32, actor: u8, rests: &mut [&[Done]])
        requires few { length rests.old ≤ 8 }
        requires actor { actor < length rests.old }
        requires room { all_looks_in (map (λ done. done.now) rests.old) ≤ self.old.spare }
        requires settled { version ≡ before → IsSettledBut version actor (map (λ done. done.now) rests.old) }
        ensures placed { (bus : List Entry) → over bus self.new.entries
            ≡ with_all_looks version 0 (map (λ done. done.now) rests.old) (over bus self.old.entries) }
        ensures left { map (λ done. done.now) rests.new ≡ all_left version (map (λ done. done.now) rests.old) }
        ensures bus { self.new.bus ≡ self.old.bus }
        ensures room { self.new.spare + all_looks_in (map (λ done. done.now) rests.old)
            ≡ self.old.spare + all_looks_in (map (λ done. done.now) rests.new) }
        ensures keeps { in_all self.new ≡ in_all self.old }
    {
        if version != before {
            self.all_looks(version, rests);
            return;
        }
        let place = usize::from(actor);
        rests[place] = self.looks(version, actor, rests[place]);
    }

    /// Adds what a phase has, in the room that was reserved.
    fn place_all<A: Actors>(&mut self, version: u32, actors: &A, rests: &mut [&[Done]])
        requires gained { self.old.bus ≤ length (A.actors actors.now) }
        requires few { length rests.old ≤ 8 }
        requires callers { All (λ actor. actor < length rests.old) (drop self.old.bus (A.actors actors.now)) }
        requires room { length (drop self.old.bus (A.actors actors.now))
            + all_looks_in (map (λ done. done.now) rests.old) ≤ self.old.spare }
        ensures placed { (bus : List Entry) → AreActorsOf (A.actors actors.now) bus
            → over bus self.new.entries ≡ placed version (drop self.old.bus bus)
            (map (λ done. done.now) rests.old) (over bus self.old.entries) }
        ensures bus { self.new.bus ≡ length (A.actors actors.now) }
        ensures keeps { in_all self.new ≡ in_all self.old }
    {
        let mut version = version;
        let start = self.bus as usize;
        let count = actors.len() - start;
        self.all_looks(version, rests);
        for i in 0..count {
            let actor = actors.actor(start + i);
            let place = usize::from(actor);
            let before = version;
            version = noted(before, rests[place]);
            rests[place] = without_first(rests[place]);
            self.push_bus(actor);
            self.next_looks(before, version, actor, rests);
        }
    }
}
