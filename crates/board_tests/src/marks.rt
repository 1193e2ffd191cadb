//! What callers did at one sheet is there, whatever the schedule.

use bus_turn::Turn;
use bus_turn::example::{Sheet, mark_by_two, mark_once};

#[test]
fn each_mark_of_two_threads_stands_once(rt: HostRuntime) {
    let Some(tally) = mark_by_two(&rt, rt.alloc(), 250) else {
        panic!(rt; "there was no memory")
    };
    assert!(rt; tally.first == 250 && tally.second == 250);
    let firsts = tally.sheet.marks.iter().filter(|mark| **mark == 0).count();
    assert!(rt; tally.sheet.marks.len() == 500 && firsts == 250);
}

#[test]
fn marks_stand_in_the_order_of_the_turns(rt: HostRuntime) {
    let mut sheet = Sheet::new(rt.alloc());
    sheet.mark(3);
    let Ok((turn, mut pass)) = Turn::open(rt.alloc(), sheet) else {
        panic!(rt; "there was no memory")
    };
    let mut other = turn.split(&mut pass);
    let made = [
        mark_once(&rt, &turn, &mut other, 1),
        mark_once(&rt, &turn, &mut pass, 0),
        mark_once(&rt, &turn, &mut other, 1),
    ];
    turn.join(&mut pass, other);
    let sheet = turn.close(pass);
    assert!(rt; made == [true, true, true] && &*sheet.marks == [3, 1, 0, 1].as_slice());
}
