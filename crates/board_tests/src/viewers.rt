//! What viewers of the published map see of each change.

ghost use Rattle.std.specs.Prelude.{◌≡◌, All};

use crate::plain::PAM0;
use addr_decode::MapRegs;
use board_base::{Area, Kind, Width};
use board_spec::limits::ENTRY_LIMIT;
use board_spec::{Look, MapChange};
use map_builder::FlatMap;
use map_publish::{Publisher, Viewer, open};
use std::process::Abort;
use std::sync::Wait;
use std::thread;
use std::thread::Threads;

/// A store to PAM0, which governs F0000h to FFFFFh: 10h opens it for reads, 20h for writes.
fn pam0(value: u32) -> MapChange {
    MapChange::Store {
        reg: PAM0,
        width: Width::One,
        value,
    }
}

/// A look at PAM0's window.
fn at_pam0(version: u32, area: Area) -> Look {
    Look {
        version,
        lo: 0xF_0000,
        hi: 0xF_FFFF,
        area,
    }
}

fn read(viewer: &mut Viewer) -> Look
    ensures own { viewer.new.front.seen.book ≡ viewer.old.front.seen.book }
{
    viewer.look(0xF_0000, Kind::Read, false)
}

/// Whether a read at PAM0's window sees this area, after so many map writes.
fn sees(viewer: &mut Viewer, version: u32, area: Area) -> bool
    ensures own { viewer.new.front.seen.book ≡ viewer.old.front.seen.book }
{
    read(viewer) == at_pam0(version, area)
}

/// The map after a reset of a board without cards.
fn reset_map() -> FlatMap {
    FlatMap::from_scratch(MapRegs::reset_of(&[]))
}

/// Publishes a change. It tells whether there was memory for it.
fn publish<R: Wait>(rt: &R, publisher: &mut Publisher, change: &MapChange) -> bool
    ensures own { publisher.new.front.seen.book ≡ publisher.old.front.seen.book }
{
    publisher.count() < ENTRY_LIMIT && publisher.change(rt, change).is_ok()
}

fn two(rt: &impl Abort, mut viewers: Vec<Viewer>) -> (Viewer, Viewer) {
    let (Some(second), Some(first)) = (viewers.pop(), viewers.pop()) else {
        panic!(rt; "fewer than two viewers")
    };
    (first, second)
}

fn changes_are_seen<R: Wait + Abort>(rt: &R, publisher: &mut Publisher, viewers: Vec<Viewer>) {
    let (mut first, mut second) = two(rt, viewers);
    assert!(rt; sees(&mut first, 0, Area::Rom));
    assert!(rt; publish(rt, publisher, &pam0(0x10)));
    assert!(rt; sees(&mut second, 1, Area::Shadow(0)));
    assert!(rt; publish(rt, publisher, &pam0(0x20)));
    assert!(rt; publish(rt, publisher, &MapChange::Reset));
    assert!(rt; sees(&mut second, 3, Area::Rom));
    assert!(rt; sees(&mut first, 3, Area::Rom));
    assert!(rt; publisher.count() == 3);
}

#[test]
fn a_viewer_that_learnt_nothing_sees_each_change(rt: HostRuntime) {
    let Ok((mut publisher, viewers)) = open(&rt, rt.alloc(), reset_map(), 2) else {
        panic!(rt; "there was no memory")
    };
    changes_are_seen(&rt, &mut publisher, viewers);
    publisher.close(&rt);
}

/// How many changes are published one after another.
const CHANGES: u32 = 500;

/// A change that opens PAM0's window for reads, or one that shuts it again, and what a read reaches after it.
fn nth_change(count: u32) -> (MapChange, Area) {
    if count % 2 == 1 {
        (pam0(0x10), Area::Shadow(0))
    } else {
        (pam0(0x20), Area::Rom)
    }
}

/// A look that begins after a change was published shows that change.
fn each_is_seen<R: Wait + Abort>(rt: &R, publisher: &mut Publisher, mut viewers: Vec<Viewer>) {
    for count in 1..=CHANGES {
        let (change, area) = nth_change(count);
        assert!(rt; publish(rt, publisher, &change));
        for viewer in &mut viewers {
            assert!(rt; sees(viewer, count, area));
        }
    }
}

#[test]
fn eight_viewers_see_each_change(rt: HostRuntime) {
    let Ok((mut publisher, viewers)) = open(&rt, rt.alloc(), reset_map(), 8) else {
        panic!(rt; "there was no memory")
    };
    each_is_seen(&rt, &mut publisher, viewers);
    publisher.close(&rt);
}

/// The last viewer of those that were opened with a publisher.
fn last(rt: &impl Abort, publisher: &Publisher, mut viewers: Vec<Viewer>) -> Viewer
    requires own { All (λ viewer. viewer.front ≡ publisher.now.front) viewers.items }
    ensures own { result.front ≡ publisher.now.front }
{
    match viewers.pop() {
        Some(viewer) => viewer,
        None => panic!(rt; "no viewer"),
    }
}

fn notes_are_met_or_short<R: Wait + Abort>(rt: &R, publisher: &mut Publisher, mut viewer: Viewer)
    requires own { viewer.front.seen.book ≡ publisher.old.front.seen.book }
{
    let (first, again) = (publisher.tell(), publisher.tell());
    assert!(rt; viewer.meets(first));
    assert!(rt; publish(rt, publisher, &pam0(0x10)));
    assert!(rt; sees(&mut viewer, 1, Area::Shadow(0)));
    assert!(rt; !viewer.meets(again));
    assert!(rt; viewer.meets(publisher.tell()));
}

#[test]
fn a_viewer_meets_no_shorter_note(rt: HostRuntime) {
    let Ok((mut publisher, viewers)) = open(&rt, rt.alloc(), reset_map(), 1) else {
        panic!(rt; "there was no memory")
    };
    let viewer = last(&rt, &publisher, viewers);
    notes_are_met_or_short(&rt, &mut publisher, viewer);
    publisher.close(&rt);
}

fn learns_alone<R: Wait + Abort>(rt: &R, mut publisher: Publisher, mut viewer: Viewer)
    requires own { viewer.front.seen.book ≡ publisher.front.seen.book }
{
    let done = publish(rt, &mut publisher, &pam0(0x10));
    let (first, again) = (publisher.tell(), publisher.tell());
    let map = publisher.close(rt);
    assert!(rt; done);
    assert!(rt; sees(&mut viewer, 0, Area::Rom));
    if !viewer.meets(first) {
        panic!(rt; "the note is shorter");
    }
    viewer.learn(again, &map);
    assert!(rt; sees(&mut viewer, 1, Area::Shadow(0)));
}

// Its place goes with the publisher.
#[test]
fn a_viewer_without_a_place_sees_what_it_learns(rt: HostRuntime) {
    let Ok((publisher, viewers)) = open(&rt, rt.alloc(), reset_map(), 1) else {
        panic!(rt; "there was no memory")
    };
    let viewer = last(&rt, &publisher, viewers);
    learns_alone(&rt, publisher, viewer);
}

/// How many viewers there are, and the sum of the versions at which they look.
fn versions_of(viewers: Vec<Viewer>) -> (usize, u32) {
    let count = viewers.len();
    let mut sum: u32 = 0;
    for mut viewer in viewers {
        sum = sum.wrapping_add(read(&mut viewer).version);
    }
    (count, sum)
}

#[test]
fn copies_open_again_with_the_map_that_was_closed(rt: HostRuntime) {
    let Ok((mut publisher, viewers)) = open(&rt, rt.alloc(), reset_map(), 2) else {
        panic!(rt; "there was no memory")
    };
    let done = publish(&rt, &mut publisher, &pam0(0x10));
    let map = publisher.close(&rt);
    let Ok((mut again, later)) = open(&rt, rt.alloc(), map, 8) else {
        panic!(rt; "there was no memory")
    };
    let versions = versions_of(later);
    let done_again = publish(&rt, &mut again, &pam0(0x00));
    let map = again.close(&rt);
    assert!(rt; done && done_again);
    assert!(rt; versions == (8, 8));
    assert!(rt; map.version() == 2);
    let (mut first, mut second) = two(&rt, viewers);
    assert!(rt; sees(&mut first, 0, Area::Rom));
    assert!(rt; sees(&mut second, 0, Area::Rom));
}

/// Looks some times, and gives the last look.
fn looks(mut viewer: Viewer, times: u32) -> Look {
    let mut look = read(&mut viewer);
    for _ in 0..times {
        look = read(&mut viewer);
    }
    look
}

fn look_by_two<R: Threads + Wait + Abort + Sync>(
    rt: &R,
    publisher: &mut Publisher,
    viewers: Vec<Viewer>,
) {
    let (first, second) = two(rt, viewers);
    assert!(rt; publish(rt, publisher, &pam0(0x10)));
    let saw = thread::join(rt, move || looks(first, 1000), move || looks(second, 1000));
    assert!(rt; saw.0 == at_pam0(1, Area::Shadow(0)));
    assert!(rt; saw.1 == at_pam0(1, Area::Shadow(0)));
}

#[test]
fn viewers_look_in_threads_of_their_own(rt: HostRuntime) {
    let Ok((mut publisher, viewers)) = open(&rt, rt.alloc(), reset_map(), 2) else {
        panic!(rt; "there was no memory")
    };
    look_by_two(&rt, &mut publisher, viewers);
    publisher.close(&rt);
}
