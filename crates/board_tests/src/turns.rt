//! Two threads that share a history by turns.

ghost use Rattle.std.specs.Prelude.{◌≡◌};
ghost use Rattle.bus_turn.specs.Passes.{IsIdle, IsSameCaller, HasSameJoined, number_of};
ghost use Rattle.bus_turn.specs.Turns.{IsOf};

use crate::plain::acknowledged;
use access_history::{Entries, Entry, History};
use bus_turn::{Pass, Turn};
use std::sync::Wait;
use std::thread;

/// One turn, in which the caller adds its entry of this number where there is room.
fn add<R: Wait>(rt: &R, turn: &Turn<History>, pass: &mut Pass<History>, actor: u8, seq: u32)
    requires own { IsOf turn.now pass.old }
    requires idle { IsIdle pass.old }
    requires number { actor ≡ number_of pass.old }
    ensures own { IsOf turn.now pass.new }
    ensures idle { IsIdle pass.new }
    ensures same { IsSameCaller pass.old pass.new × HasSameJoined pass.old pass.new }
{
    let mut held = turn.take(rt, pass);
    if held.value.spare() > 0 {
        held.value.push(&Entry {
            actor,
            seq,
            ..acknowledged(actor, 0x08)
        });
        turn.commit(pass, &mut held);
    }
    turn.give(pass, held);
}

/// Some turns, in which the caller adds its entries from number 1 on.
fn add_all<R: Wait>(
    rt: &R,
    turn: &Turn<History>,
    mut pass: Pass<History>,
    actor: u8,
    turns: u32,
) -> Pass<History>
    requires own { IsOf turn.now pass }
    requires idle { IsIdle pass }
    requires number { actor ≡ number_of pass }
    ensures own { IsOf turn.now result }
    ensures idle { IsIdle result }
    ensures same { IsSameCaller pass result × HasSameJoined pass result }
{
    for seq in 1..=turns {
        add(rt, turn, &mut pass, actor, seq);
    }
    pass
}

/// Whether the entries of a processor are numbered from 1 to a last number.
fn are_numbered(entries: &Entries<'_>, actor: u8, last: u32) -> bool {
    let mut numbers = 1..=last;
    for i in 0..entries.len() {
        let entry = entries.entry(i);
        if entry.actor == actor && numbers.next() != Some(entry.seq) {
            return false;
        }
    }
    numbers.next().is_none()
}

#[test]
fn entries_of_two_threads_stand_in_their_order(rt: HostRuntime) {
    let mut history = History::new(rt.alloc());
    history.reserve(200).expect(&rt, "room");
    let Ok((turn, mut first)) = Turn::open(rt.alloc(), history) else {
        panic!(rt; "there was no memory")
    };
    let second = turn.split(&mut first);
    let (shared, host) = (&turn, &rt);
    let (mut first, second) = thread::join(
        host,
        move || add_all(host, shared, first, 0, 100),
        move || add_all(host, shared, second, 1, 100),
    );
    turn.join(&mut first, second);
    let history = turn.close(first);
    for actor in 0..2u8 {
        assert!(rt; are_numbered(&history.entries(), actor, 100));
    }
    assert!(rt; history.len() == 200);
}
