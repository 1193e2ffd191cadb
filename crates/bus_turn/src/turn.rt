//! The calls of a turn.
ghost use Rattle.std.specs.Prelude.{◌≡◌, ◌++◌, ◌∷◌, ◌+◌, ◌<◌, [], All, Some, IfOk, IfErr, length, drop, ◌≤◌};
ghost use mathlib.Core.List.{IsPrefix};
ghost use Rattle.bus_turn.specs.Views.{own_by, commits};
ghost use Rattle.bus_turn.specs.Passes.{IsIdle, IsHolding, IsSameCaller, HasSameJoined, number_of, splits_of};
ghost use Rattle.bus_turn.specs.Passes.{opened_of, part_of, seen_of, mine_of, joined_of, IsFirst, IsFurther};

use crate::kept::Kept;
use crate::plays::{Absorb, Branch, Call, Count, Draw, Give, Look, Said};
use crate::view::{Order, Pass, View};
use atomic_table::{Refused, Table};
use std::alloc::{AllocFailed, Global};
use std::marker::Brand;
use std::snapshot::Snapshot;
use std::sync::Wait;
use std::{hint, thread};

// The words: the next ticket, the ticket that is served, and the number of entries. Each goes round at 2^64.
const TICKET: usize = 0;

const SERVING: usize = 1;

const COUNT: usize = 2;

// A caller that waits spins between two looks at the words, each time twice as often: from some 300 nanoseconds to
// some 10 microseconds, during which whoever takes turns has the words to itself.
const FIRST_SPINS: u32 = 64;

const LAST_SPINS: u32 = 2_048;

// How often it spins to see whether the turn stays free: longer than a caller needs from one turn to its next.
const FREE_SPINS: u32 = 32;

// A caller that finds the turn taken looks again this often before it draws a ticket all the same: for some 10
// milliseconds.
const MOST_LOOKS: u32 = 1_000;

/// A value that callers share by turns. The slot has the value, or nothing while a caller holds the turn.
#[derive(Drop)]
pub struct Turn<T: Kept> {
    table: Table<Option<T>, View<T::Entry, T::Fixed>, Snapshot<T>, Order, Global>,
    ghost sized: { (table.shared.table_id.words ≡ 3) × (table.shared.table_id.slots ≡ 1) },
}

/// The value, while a caller holds the turn. It cannot be dropped, so a turn that was taken is given back.
pub struct Held<T> {
    pub value: T,
}

/// There was no memory. The value comes back.
#[derive(Drop)]
pub struct TurnOpen<T> {
    pub value: T,
}

impl<T: Kept> Turn<T> {
    ghost use Rattle.bus_turn.specs.Plays.{Closes};
    ghost use Rattle.bus_turn.specs.Turns.{IsOf};

    /// Shares a value by turns, and gives the pass of the first caller, whose number is 0. Refused for want of memory.
    pub fn open(alloc: Global, value: T) -> Result<(Turn<T>, Pass<T>), TurnOpen<T>>
        ensures own { IfOk result (λ r. IsOf r.0 r.1 × IsIdle r.1) }
        ensures first { IfOk result (λ r. IsFirst (T.entries value) (T.fixed value) r.1) }
        ensures refused { IfErr result (λ r. r.value ≡ value) }
    {
        let about = Snapshot::of(&value);
        let count = u64::from(value.count());
        let mut slots = Vec::new(alloc);
        if let Err(AllocFailed { value: Some(value) }) = slots.push(Some(value)) {
            slots.destroy_empty();
            return Err(TurnOpen { value });
        }
        match Table::new(alloc, &[0, 0, count], slots, &about) {
            Ok((table, pass)) => Ok((Turn { table }, pass)),
            Err(Refused { mut slots }) => {
                let value = slots.pop().unwrap().unwrap();
                slots.destroy_empty();
                Err(TurnOpen { value })
            }
        }
    }

    /// A pass for a further caller, which has seen what the first has. Its number is the next one.
    pub fn split(&self, pass: &mut Pass<T>) -> Pass<T>
        requires own { IsOf self.now pass.old }
        requires idle { IsIdle pass.old }
        requires first { number_of pass.old ≡ 0 }
        requires few { splits_of pass.old < 255 }
        ensures own { IsOf self.now pass.new × IsOf self.now result }
        ensures idle { IsIdle pass.new × IsIdle result }
        ensures further { IsFurther pass.new result }
        ensures splits { splits_of pass.new ≡ splits_of pass.old + 1 }
        ensures same { IsSameCaller pass.old pass.new }
        ensures seen { (seen_of pass.new ≡ seen_of pass.old) × (mine_of pass.new ≡ mine_of pass.old)
            × (joined_of pass.new ≡ joined_of pass.old) }
    {
        self.table.shared.split_seat::<Branch>(pass)
    }

    // The next ticket, where nobody holds the turn or has a ticket for it.
    fn free_ticket(&self) -> Option<u64> {
        let serving = self.table.shared.peek(SERVING);
        if self.table.shared.peek(TICKET) == serving {
            Some(serving)
        } else {
            None
        }
    }

    // Whether the turn is free, and nobody takes it for a while. Then no caller takes turn after turn.
    fn stays_free(&self) -> bool {
        let ticket = self.free_ticket();
        if ticket.is_none() {
            return false;
        }
        spin(FREE_SPINS);
        self.free_ticket() == ticket
    }

    // Waits, but not without end, until nobody holds the turn or has a ticket for it. Whoever draws a ticket then is
    // running, so that no others wait for a thread that the system has put aside. A caller that takes turn after turn
    // is left to it, since the value then stays in its processor's cache.
    fn wait_for_free_turn(&self) {
        if self.free_ticket().is_some() {
            return;
        }
        let mut spins = FIRST_SPINS;
        for _ in 0..MOST_LOOKS {
            spins = wait_a_little(spins);
            if self.stays_free() {
                return;
            }
        }
    }

    /// Waits for the turn, and hands out the value. Its list begins with all that the pass has seen.
    pub fn take<R: Wait>(&self, rt: &R, pass: &mut Pass<T>) -> Held<T>
        requires own { IsOf self.now pass.old }
        requires idle { IsIdle pass.old }
        ensures own { IsOf self.now pass.new }
        ensures holds { IsHolding pass.new }
        ensures list { seen_of pass.new ≡ T.entries result.value }
        ensures begins { IsPrefix (seen_of pass.old) (T.entries result.value) }
        ensures opened { IsPrefix (opened_of pass.old) (T.entries result.value) }
        ensures mine { own_by T.actor (number_of pass.old) (drop (length (opened_of pass.old)) (T.entries result.value))
            ≡ mine_of pass.old }
        ensures part { part_of pass.old ≡ Some (T.fixed result.value) }
        ensures same { IsSameCaller pass.old pass.new × HasSameJoined pass.old pass.new
            × (mine_of pass.new ≡ mine_of pass.old) }
    {
        self.wait_for_free_turn();
        let ticket = self.table.shared.fetch_add::<Draw>(pass, TICKET, 1);
        let mut spins = FIRST_SPINS;
        for _ in rt.forever() {
            let serving = self.table.shared.load::<Call>(pass, SERVING);
            if serving == ticket {
                let value = self.table.shared.exchange(pass, 0, None).unwrap();
                return Held { value };
            }
            spins = wait_a_little(spins);
        }
        unreachable!()
    }

    /// Counts the entry that was added to the held list since the turn was taken, or since the last commit.
    pub fn commit(&self, pass: &mut Pass<T>, held: &mut Held<T>)
        requires own { IsOf self.now pass.old }
        requires holds { IsHolding pass.old }
        requires adds { (e : T.Entry) × (T.entries held.old.value ≡ seen_of pass.old ++ e ∷ [])
            × (T.actor e ≡ number_of pass.old) }
        requires part { part_of pass.old ≡ Some (T.fixed held.old.value) }
        ensures own { IsOf self.now pass.new }
        ensures holds { IsHolding pass.new }
        ensures list { seen_of pass.new ≡ T.entries held.old.value }
        ensures mine { mine_of pass.new ≡ mine_of pass.old ++ drop (length (seen_of pass.old))
            (T.entries held.old.value) }
        ensures same { IsSameCaller pass.old pass.new × HasSameJoined pass.old pass.new }
        ensures held { held.new ≡ held.old }
    {
        self.commit_said::<Brand>(pass, held);
    }

    fn commit_said<W: Said<T::Entry>>(&self, pass: &mut Pass<T>, held: &Held<T>)
        requires own { IsOf self.now pass.old }
        requires holds { IsHolding pass.old }
        requires adds { (e : T.Entry) × (W.added ≡ e ∷ []) × (T.entries held.now.value ≡ seen_of pass.old ++ e ∷ [])
            × (T.actor e ≡ number_of pass.old) }
        ensures own { IsOf self.now pass.new }
        ensures view { pass.new.me ≡ (commits pass.old.me.0 W.added, pass.old.me.1) }
    {
        self.table.shared.fetch_add::<Count<W>>(pass, COUNT, 1);
    }

    /// Gives the turn back, after each added entry was committed.
    pub fn give(&self, pass: &mut Pass<T>, held: Held<T>)
        requires own { IsOf self.now pass.old }
        requires holds { IsHolding pass.old }
        requires list { T.entries held.value ≡ seen_of pass.old }
        requires part { part_of pass.old ≡ Some (T.fixed held.value) }
        ensures own { IsOf self.now pass.new }
        ensures idle { IsIdle pass.new }
        ensures same { IsSameCaller pass.old pass.new × HasSameJoined pass.old pass.new }
        ensures seen { (seen_of pass.new ≡ seen_of pass.old) × (mine_of pass.new ≡ mine_of pass.old) }
    {
        let Held { value } = held;
        let empty = self.table.shared.exchange(pass, 0, Some(value));
        let None = empty else { unreachable!() };
        self.table.shared.fetch_add::<Give>(pass, SERVING, 1);
    }

    /// Takes in what another pass has seen and added. That pass is gone.
    pub fn join(&self, pass: &mut Pass<T>, other: Pass<T>)
        requires own { IsOf self.now pass.old × IsOf self.now other }
        requires idle { IsIdle pass.old × IsIdle other }
        ensures own { IsOf self.now pass.new }
        ensures idle { IsIdle pass.new }
        ensures seen { IsPrefix (seen_of pass.old) (seen_of pass.new) × IsPrefix (seen_of other) (seen_of pass.new) }
        ensures joined { joined_of pass.new ≡ joined_of pass.old ++ (number_of other, mine_of other) ∷ joined_of other }
        ensures same { IsSameCaller pass.old pass.new × (splits_of pass.new ≡ splits_of pass.old)
            × (mine_of pass.new ≡ mine_of pass.old) }
    {
        self.table.shared.join_seat::<Absorb>(pass, other);
        self.table.shared.load::<Look>(pass, SERVING);
    }

    /// Ends the sharing, with the pass of `open` into which all others were joined, and gives the value.
    pub fn close(self, pass: Pass<T>) -> T
        requires own { IsOf self pass }
        requires idle { IsIdle pass }
        requires first { number_of pass ≡ 0 }
        requires joined { length (joined_of pass) ≡ splits_of pass }
        ensures begins { IsPrefix (seen_of pass) (T.entries result) }
        ensures opened { IsPrefix (opened_of pass) (T.entries result) }
        ensures mine { own_by T.actor (number_of pass) (drop (length (opened_of pass)) (T.entries result))
            ≡ mine_of pass }
        ensures joined { All (λ other. own_by T.actor other.0 (drop (length (opened_of pass)) (T.entries result))
            ≡ other.1) (joined_of pass) }
        ensures callers { All (λ e. T.actor e ≤ splits_of pass) (drop (length (opened_of pass)) (T.entries result)) }
        ensures part { part_of pass ≡ Some (T.fixed result) }
    {
        self.end(pass)
    }

    fn end(self, pass: Pass<T>) -> T
        requires own { IsOf self pass }
        requires idle { IsIdle pass }
        requires first { number_of pass ≡ 0 }
        requires joined { length (joined_of pass) ≡ splits_of pass }
        ensures closes { Closes T.entries T.actor T.fixed pass.me.0 result }
    {
        let Turn { table } = self;
        let mut closed = table.close_with(pass);
        let value = closed.take(0).unwrap();
        closed.free();
        value
    }
}

fn spin(spins: u32) {
    for _ in 0..spins {
        hint::spin_loop();
    }
}

// Waits between two looks, and returns how often to spin before the next. A caller that has spun longest also gives the
// processor away, since whoever holds the turn may have none.
fn wait_a_little(spins: u32) -> u32 {
    spin(spins);
    if spins < LAST_SPINS {
        return spins * 2;
    }
    thread::yield_now();
    spins
}
