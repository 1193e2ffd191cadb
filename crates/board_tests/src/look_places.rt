//! The places of looks, by hand.

ghost use Rattle.std.specs.Prelude.{◌<◌, ◌≤◌, length, All, IsTrue};
ghost use Rattle.run_order.specs.Over.{IsPlacedBelow};

use crate::plain::PAM0;
use access_history::{Entries, History};
use arrayvec::ArrayVec;
use board_base::{Area, Dev, Kind, PortAccess, Target, Width};
use board_spec::{Entry, Event, Look, Reply};
use run_order::{Actors, Done, RunEntry, RunOrder, Works};
use std::alloc::{AllocError, Global};
use std::process::Abort;

/// A run a line, of phases with `;` between them. A phase has four words: the version of the map before it; the calls
/// that the bus's history gained; what each processor did, with `/` between the processors; and the entries that come
/// of it. A call is a processor and `P`, a pulse, or `O`, the first map write. What was done is `L`, a look at F0000h,
/// `P` or `O`, with the version of the map after it. An entry is its processor, its number, and the version of a look.
/// `none` is no call.
///
/// A look before its processor's first statement, in the first phase and in the second. Processor 1 looks while
/// processor 0 opens the window: it saw the map before, or the map after. The look's processor made its call after the
/// map write, so the look stands after that call. It made its call before the map write, so the look stands after the
/// write. In the same place: in order of processor, and each processor's in its own order. Eight processors, of which
/// the last makes the one call, and a phase of looks alone.
const RUNS: &str = "\
0 0P L0,P0 010,02-;0 0O L0,O1 030,04-
0 0P,0O P0,O1/L0 110,01-,02-
0 0P,0O P0,O1/L1 01-,02-,111
0 0O,1P,0P O1,P1/P1,L1 01-,11-,121,02-
0 1P,0P,0O,0P P0,O1,P1/P0,L1 11-,01-,02-,121,03-
0 1O L1,L1/L0,O1,L1/L0,L1 110,210,12-,011,021,131,221
0 7O //////L1/L0,O1 710,72-,611;1 none //////L1/L1 621,731
";

/// How many calls there are at most.
const MOST_CALLS: u32 = 100;

/// Opens the window at F0000h for reads.
const OPEN_WINDOW: Event = Event::Port(PortAccess {
    write: true,
    port: 0xCFD,
    width: Width::One,
    value: 0x10,
});

/// The number that a digit says.
fn digit(byte: u8) -> u8 {
    byte.wrapping_sub(b'0')
}

/// A look at F0000h, where the ROM answers before the first map write, and shadow memory after it.
fn looked(version: u32) -> Done {
    Done::Looked {
        kind: Kind::Read,
        addr: 0xF_0000,
        smm: false,
        look: Look {
            version,
            lo: 0xF_0000,
            hi: 0xF_FFFF,
            area: if version == 0 {
                Area::Rom
            } else {
                Area::Shadow(0)
            },
        },
    }
}

/// The event of a call.
fn event_of(call: u8) -> Event {
    if call == b'O' {
        OPEN_WINDOW
    } else {
        Event::Pulses(1)
    }
}

/// What a processor did.
fn done_of(call: u8, version: u8) -> Done {
    let version = u32::from(digit(version));
    if call == b'L' {
        return looked(version);
    }
    Done::Went {
        event: event_of(call),
        version,
    }
}

/// The bus's entry of a call. Its number there does not count looks.
fn entry_of(actor: u8, call: u8) -> Entry {
    Entry {
        actor,
        seq: 1,
        event: event_of(call),
        reply: Reply::Bus {
            value: None,
            target: if call == b'O' {
                Target::Config(PAM0)
            } else {
                Target::Device(Dev::Pit)
            },
            denial: None,
        },
    }
}

/// Adds a call to the bus's history, where it has room.
fn add_call(bus: &mut History, call: &str)
    ensures longer { length bus.old.entries ≤ length bus.new.entries }
{
    if bus.spare() == 0 {
        return;
    }
    if let [actor, call] = call.as_bytes() {
        bus.push(&entry_of(digit(*actor), *call));
    }
}

/// Adds calls to the bus's history, as far as it has room.
fn add_calls(bus: &mut History, calls: &str)
    ensures longer { length bus.old.entries ≤ length bus.new.entries }
{
    for call in calls.split(',') {
        add_call(bus, call);
    }
}

/// What a processor did, one after another.
fn list_of(alloc: Global, list: &str) -> Result<Vec<Done>, AllocError> {
    let mut dones = Vec::new(alloc);
    for word in list.split(',') {
        if let [call, version] = word.as_bytes() {
            dones.push(done_of(*call, *version))?;
        }
    }
    Ok(dones)
}

/// What each processor did.
fn lists_of(alloc: Global, lists: &str) -> Result<Vec<Vec<Done>>, AllocError> {
    let mut all = Vec::new(alloc);
    for list in lists.split('/') {
        all.push(list_of(alloc, list)?)?;
    }
    Ok(all)
}

fn works_of<'a>(rt: &impl Abort, lists: &'a [Vec<Done>]) -> Works<'a> {
    let mut works = ArrayVec::new();
    for done in lists {
        if works.is_full() {
            panic!(rt; "more than eight processors");
        }
        works.push(done.as_slice());
    }
    works
}

fn have_callers<A: Actors>(actors: &A, works: &Works) -> bool
    ensures callers { IsTrue result → All (λ actor. actor < length works.now.items) (A.actors actors.now) }
{
    let count = works.len();
    for i in 0..actors.len() {
        if usize::from(actors.actor(i)) >= count {
            return false;
        }
    }
    true
}

/// Appends an entry's processor and number, and the version of a look.
fn push_entry(text: &mut String, entry: &Entry) -> Result<(), AllocError> {
    if !text.is_empty() {
        text.push(',')?;
    }
    write!(text, "{}{}", entry.actor, entry.seq)?;
    match entry.reply {
        Reply::Saw(look) => write!(text, "{}", look.version),
        _ => text.push('-'),
    }
}

/// The entries of an order from a place on, in words.
fn placed(
    alloc: Global,
    bus: &Entries<'_>,
    entries: &[RunEntry],
    from: usize,
) -> Result<String, AllocError>
    requires within { All (IsPlacedBelow (length bus.now)) entries.now }
{
    let mut text = String::new(alloc);
    for i in from..entries.len() {
        push_entry(&mut text, &entries[i].over(bus))?;
    }
    Ok(text)
}

/// Runs phases one after another, and compares what each added.
fn run(rt: &impl Abort, alloc: Global, phases: &str) {
    let mut order = RunOrder::new(alloc);
    let mut history = History::new(alloc);
    history.reserve(MOST_CALLS).expect(rt, "room");
    for phase in phases.split(';') {
        let (version, rest) = phase.split_once(' ').unwrap_or(("", ""));
        let (calls, rest) = rest.split_once(' ').unwrap_or(("", ""));
        let (works, due) = rest.split_once(' ').unwrap_or(("", ""));
        let before = order.entries().len();
        add_calls(&mut history, calls);
        let bus = history.entries();
        let lists = lists_of(alloc, works).expect(rt, "lists");
        let works = works_of(rt, &lists);
        if !have_callers(&bus, &works) {
            panic!(rt; "a call of no processor");
        }
        order
            .place(u32::from(version == "1"), &bus, works)
            .expect(rt, "places");
        let added = placed(alloc, &bus, order.entries(), before).expect(rt, "a text");
        assert!(rt; added.as_str() == due, "{due}");
    }
}

#[test]
fn looks_stand_at_their_places(rt: HostRuntime) {
    for phases in RUNS.lines() {
        run(&rt, rt.alloc(), phases);
    }
}
