//! Logs that are put together in pieces.

ghost use Rattle.std.specs.Prelude.{◌≡◌, ◌<◌, [], IfOk, OnOk, length};
ghost use Rattle.run_log.specs.Lines.{AreLinesOf};

use board_base::{Access, Area, Kind, NoMemory, Target, Width};
use board_spec::{Entry, Event, Look, Reply};
use logs::{Text, push_log};
use run_log::{Lines, log_of_lines};
use std::alloc::Global;
use std::process::Abort;

/// How many processors there are.
const PROCESSORS: u8 = 3;

/// A read by each processor in turn, and now and then a look at an address where nobody answers.
fn entry_of(i: u32) -> Entry
    ensures actor { result.actor < 3 }
{
    let actor = (i % u32::from(PROCESSORS)) as u8;
    let seq = i / u32::from(PROCESSORS) + 1;
    if i % 5 == 4 {
        return Entry {
            actor,
            seq,
            event: Event::Look {
                kind: Kind::Fetch,
                addr: 0xFFFF_FFFF,
                smm: true,
            },
            reply: Reply::Saw(Look {
                version: 5,
                lo: 0xE000_0000,
                hi: 0xFFFF_FFFF,
                area: Area::Abort,
            }),
        };
    }
    let access = Access {
        kind: Kind::Read,
        addr: i,
        width: Width::One,
        smm: false,
        value: 0,
    };
    Entry {
        actor,
        seq,
        event: Event::Memory(access),
        reply: Reply::Bus {
            value: Some(i % 256),
            target: Target::Dram(0),
            denial: None,
        },
    }
}

/// The lines of no entries, of each processor.
fn no_lines(alloc: Global) -> Result<Vec<Lines>, NoMemory>
    ensures lines { IfOk result (λ lines. AreLinesOf lines.items [] []) }
    ensures all { IfOk result (λ lines. length lines.items ≡ 3) }
{
    let mut lines = Vec::new(alloc);
    lines.push(Lines::new(alloc))?;
    lines.push(Lines::new(alloc))?;
    lines.push(Lines::new(alloc))?;
    Ok(lines)
}

/// Adds an entry: its line to those of its processor, and the processor to the order.
fn write_entry(
    lines: &mut [Lines],
    order: &mut Vec<u8>,
    entries: &mut Vec<Entry>,
    entry: Entry,
) -> Result<(), NoMemory>
    requires actor { entry.actor < length lines.old }
    requires are { AreLinesOf lines.old order.old.items entries.old.items }
    ensures are { OnOk result (AreLinesOf lines.new order.new.items entries.new.items) }
{
    lines[usize::from(entry.actor)].push(&entry)?;
    order.push(entry.actor)?;
    entries.push(entry)?;
    Ok(())
}

/// Adds so many entries.
fn write_entries(
    lines: &mut [Lines],
    order: &mut Vec<u8>,
    entries: &mut Vec<Entry>,
    count: u32,
) -> Result<(), NoMemory>
    requires all { length lines.old ≡ 3 }
    requires are { AreLinesOf lines.old order.old.items entries.old.items }
    ensures are { OnOk result (AreLinesOf lines.new order.new.items entries.new.items) }
{
    for i in 0..count {
        write_entry(lines, order, entries, entry_of(i))?;
    }
    Ok(())
}

/// Expects the log of entries in so many pieces.
fn expect_log<R: Abort>(rt: &R, alloc: Global, text: &Text, entries: &[Entry], pieces: usize) {
    let mut whole = String::new(alloc);
    push_log(&mut whole, 2, entries).expect(rt, "a log");
    let mut joined = Vec::new(alloc);
    for piece in text.pieces() {
        joined.extend_from_slice(piece).expect(rt, "a log");
    }
    assert!(rt; joined.as_slice() == whole.as_bytes());
    assert!(rt; text.pieces().len() == pieces);
}

// Of 10,000 entries 3 workers have pieces of 3,334, 3,334 and 3,332, after the heading. One worker and few entries are
// not cut.
#[test]
fn a_log_in_pieces_is_the_log(rt: HostRuntime) {
    let alloc = rt.alloc();
    for (count, workers, pieces) in [
        (10_000, 1, 2),
        (10_000, 2, 3),
        (10_000, 3, 4),
        (10_000, 8, 9),
        (9_000, 255, 251),
        (100, 8, 2),
        (0, 8, 2),
    ] {
        let mut lines = no_lines(alloc).expect(&rt, "lines");
        let (mut order, mut entries) = (Vec::new(alloc), Vec::new(alloc));
        write_entries(&mut lines, &mut order, &mut entries, count).expect(&rt, "entries");
        let text = log_of_lines(&rt, alloc, workers, 2, &lines, &order).expect(&rt, "a log");
        expect_log(&rt, alloc, &text, &entries, pieces);
    }
}
