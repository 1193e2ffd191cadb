//! Entries go into a history at one end, and come out whole.

use crate::plain::acknowledged;
use Step::{Push, Reserve};
use access_history::{Entries, Entry, Event, History, Reply};
use board_base::{Denial, Kind, NoMemory, Reg, Target, WideAccess};
use board_spec::{Part, Parts};
use std::alloc::Global;

/// What is done with a history: it gets room for so many entries, or one comes, of a processor and with a vector.
#[derive(Clone, Copy)]
enum Step {
    Reserve(u32),
    Push(u8, u32),
}

/// Steps, and how many entries there are after each and room for how many more.
const STEPS: [(Step, u32, u32); 5] = [
    (Reserve(3), 0, 3),
    (Push(0, 0x08), 1, 2),
    (Push(1, 0x0B), 2, 1),
    (Reserve(2), 2, 2),
    (Reserve(1), 2, 2),
];

/// More entries than the steps make.
const MANY: u32 = 100;

fn act(history: &mut History, step: Step) -> Result<(), NoMemory> {
    match step {
        Reserve(room) => reserve(history, room),
        Push(actor, vector) => {
            push(history, &acknowledged(actor, vector));
            Ok(())
        }
    }
}

fn reserve(history: &mut History, room: u32) -> Result<(), NoMemory> {
    if history.len() < MANY && room < MANY {
        return history.reserve(room);
    }
    Err(NoMemory)
}

fn push(history: &mut History, entry: &Entry) {
    if history.spare() > 0 {
        history.push(entry);
    }
}

/// Whether a history has so many entries, and room for so many more.
fn has(history: &History, len: u32, spare: u32) -> bool {
    history.len() == len && history.spare() == spare
}

/// Whether a history has this entry at a place.
fn has_at(history: &History, i: u32, entry: &Entry) -> bool {
    i < history.len() && history.entry(i) == *entry
}

/// Whether these are the entries.
fn are(kept: &Entries<'_>, entries: &[Entry]) -> bool {
    if kept.len() != entries.len() {
        return false;
    }
    for i in 0..entries.len() {
        if kept.entry(i) != entries[i] {
            return false;
        }
    }
    true
}

#[test]
fn entries_stand_in_the_order_in_which_they_came(rt: HostRuntime) {
    let mut history = History::new(rt.alloc());
    assert!(rt; has(&history, 0, 0));
    for (step, len, spare) in STEPS {
        act(&mut history, step).expect(&rt, "room");
        assert!(rt; has(&history, len, spare));
    }
    assert!(rt; has_at(&history, 0, &acknowledged(0, 0x08)));
    assert!(rt; has_at(&history, 1, &acknowledged(1, 0x0B)));
    assert!(rt; history.entries().len() == 2);
}

/// A part in main memory, that no register denied.
const fn in_row(row: u8) -> Part {
    Part {
        target: Target::Dram(row),
        denial: None,
    }
}

/// A part that nothing answers, by reason of a PAM register.
const ABORTED: Part = Part {
    target: Target::Abort,
    denial: Some(Denial::Register(Reg {
        dev: 0,
        fun: 0,
        off: 0x59,
    })),
};

/// A wide access of processor 2, and its reply.
const fn wide(kind: Kind, value: u64, reply: Option<u64>, parts: Parts) -> Entry {
    Entry {
        actor: 2,
        seq: 1,
        event: Event::Wide(WideAccess {
            kind,
            bytes: 8,
            smm: false,
            addr: 0x000F_FFFD,
            value,
        }),
        reply: Reply::Parts {
            parts,
            value: reply,
        },
    }
}

/// Wide accesses with two, four and three parts, and an acknowledge between them.
fn entries() -> [Entry; 4] {
    [
        wide(
            Kind::Read,
            0,
            Some(0x8877_6655_4433_2211),
            Parts::Two(in_row(0), ABORTED),
        ),
        acknowledged(0, 0x08),
        wide(
            Kind::Write,
            0x0102_0304_0506_0708,
            None,
            Parts::Four(ABORTED, in_row(1), in_row(2), in_row(3)),
        ),
        wide(
            Kind::Read,
            0,
            Some(0xFFFF_FFFF),
            Parts::Three(in_row(4), ABORTED, in_row(5)),
        ),
    ]
}

/// A history with room for four entries, as far as these fill it.
fn history_of(alloc: Global, entries: &[Entry]) -> Result<History, NoMemory> {
    let mut history = History::new(alloc);
    history.reserve(4)?;
    for entry in entries {
        push(&mut history, entry);
    }
    Ok(history)
}

#[test]
fn wide_accesses_keep_their_parts(rt: HostRuntime) {
    let entries = entries();
    let history = history_of(rt.alloc(), &entries).expect(&rt, "room");
    let kept = history.entries();
    assert!(rt; kept.len() == 4);
    assert!(rt; are(&kept, &entries));
    assert!(rt; are(&kept.from(2), &entries[2..]));
    assert!(rt; are(&kept.before(1), &entries[..1]));
}
