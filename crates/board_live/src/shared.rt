//! What the callers share by turns: the board, and the publisher of its memory map.
ghost use Rattle.std.specs.Prelude.{◌≡◌, ◌<◌, ◌≤◌, ◌++◌, length, reverse, IfOk, OnOk, OnErr};
ghost use mathlib.Core.List.{IsPrefix};
ghost use Rattle.board_prelude.specs.{IsInRange, entries_by, option_to_list, entry_limit};
ghost use Rattle.map_publish.specs.Lists.{opened_of, changes_of, version_after};
ghost use Rattle.board_live.specs.Known.{oldest, ArePublished, IsMapOpened, most_each, AreFew};
ghost use Rattle.board_live.specs.Props.{Opens-prop, AreFew-prop};

use board_base::NoMemory;
use board_core::{Board, Setup, Steps};
use board_spec::{Entry, Event, MapChange, Reply};
use bus_turn::Kept;
use map_publish::Publisher;
use std::collections::LinkedList;
use std::sync::Wait;

/// A reply of the board, and the number of entries before this one.
#[derive(Clone, Copy, PartialEq, Eq, Debug)]
pub struct Answered {
    pub reply: Reply,
    pub place: u32,
}

/// What no turn changes: the setup, the number of callers, the entries of the opened board, the newest first, and whose
/// published copies they are. No value of it is made: it is for contracts alone.
pub struct Origin {
    pub setup: Setup,
    pub callers: u8,
    pub entries: LinkedList<Entry>,
    pub number: u64,
    pub log_name: u64,
    pub cells_name: u64,
}

/// The board, with the publisher of its map, for 1 to 8 callers. Each caller has at most 250,000 entries. It is not
/// `Drop`, as its publisher is not.
pub struct Shared<B: Steps = Board> {
    /// On the heap, as the publisher is, since a turn moves this value and both are large.
    pub board: Box<B>,
    pub publisher: Box<Publisher>,
    /// How many entries the board had when it was opened.
    pub opened: u32,
    /// How many callers there are.
    pub callers: u8,
    pub ghost within: { opened ≤ length (B.standing board.value).entries },
    pub ghost few: { AreFew callers (B.standing board.value).entries } by { AreFew-prop callers
        (B.standing board.value).entries },
    pub ghost published: { ArePublished (B.standing board.value).setup opened (B.standing board.value).entries
        publisher.value.front.seen.log },
    pub ghost opens: { IsMapOpened (B.standing board.value).setup (oldest opened (B.standing board.value).entries)
        (opened_of publisher.value.front.seen.log) } by { Opens-prop (B.standing board.value).setup
            (oldest opened (B.standing board.value).entries) (opened_of publisher.value.front.seen.log) },
}

impl<B: Steps> Kept for Shared<B> {
    type Entry = Entry;

    type Fixed = Origin;

    ghost use Rattle.board_live.specs.Steps.{board_of, opened_with};

    ghost entries = { λ shared. reverse (board_of shared).entries };

    ghost actor = { λ entry. entry.actor };

    ghost fixed = { λ shared. opened_with shared };

    fn count(&self) -> u32 {
        self.board.count()
    }
}

/// Publishes a map write, where there is one.
fn publish<R: Wait>(
    publisher: &mut Publisher,
    rt: &R,
    change: Option<MapChange>,
) -> Result<(), NoMemory>
    requires room { version_after publisher.old.front.seen.log < entry_limit }
    ensures own { publisher.new.front.seen.book ≡ publisher.old.front.seen.book }
    ensures ok { OnOk result (changes_of publisher.new.front.seen.log
        ≡ option_to_list change ++ changes_of publisher.old.front.seen.log) }
    ensures refused { OnErr result (publisher.new.front.seen.log ≡ publisher.old.front.seen.log) }
    ensures later { IsPrefix publisher.old.front.seen.log publisher.new.front.seen.log }
{
    match change {
        Some(change) => publisher.change(rt, &change),
        None => Ok(()),
    }
}

impl<B: Steps> Shared<B> {
    ghost use Rattle.board_live.specs.Steps.{AddsEntry, IsSameBoard, board_of};

    /// Makes room, publishes the map write where the event is one, and steps the board. Refused for want of memory;
    /// then the history and what is published are as before.
    pub fn step<R: Wait>(&mut self, rt: &R, number: u8, event: &Event) -> Result<Answered, NoMemory>
        requires number { number < self.old.callers }
        requires few { length (entries_by number (board_of self.old).entries) < most_each }
        requires event { IsInRange (board_of self.old).setup event.now }
        ensures same { IsSameBoard self.old self.new }
        ensures steps { IfOk result (λ answered.
            AddsEntry number event.now answered (board_of self.old) (board_of self.new)) }
        ensures refused { OnErr result ((board_of self.new).entries ≡ (board_of self.old).entries) }
        ensures later { IsPrefix self.old.publisher.value.front.seen.log self.new.publisher.value.front.seen.log }
        ensures unpublished { OnErr result
            (self.new.publisher.value.front.seen.log ≡ self.old.publisher.value.front.seen.log) }
    {
        let place = self.board.count();
        self.board.reserve(1)?;
        let change = self.board.map_change(event);
        publish(&mut self.publisher, rt, change)?;
        let reply = self.board.step(number, event);
        Ok(Answered { reply, place })
    }
}
