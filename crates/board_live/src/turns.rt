//! A turn at the shared board.

ghost use Rattle.std.specs.Prelude.{◌≡◌, length, drop, reverse, Some};
ghost use mathlib.Core.List.{IsPrefix};
ghost use Rattle.bus_turn.specs.Passes.{IsIdle, IsHolding, IsSameCaller as IsSamePass, HasSameJoined, number_of};
ghost use Rattle.bus_turn.specs.Passes.{opened_of as opened_by, part_of, seen_of as seen_in, mine_of as mine_in};
ghost use Rattle.bus_turn.specs.Turns.{IsOf};
ghost use Rattle.bus_turn.specs.Views.{own_by};
ghost use Rattle.map_publish.specs.Lists.{opened_of};
ghost use Rattle.board_live.specs.Passes.{callers_in, setup_in, opened_in};
ghost use Rattle.board_live.specs.Origins.{origin};
ghost use Rattle.board_live.specs.Steps.{board_of, opened_with};

use crate::shared::Shared;
use board_core::Steps;
use bus_turn::{Held, Pass, Turn};
use map_publish::{Publisher, Viewer};
use std::sync::Wait;

/// Has a viewer meet a note of the publisher: with new notes, until it does.
fn meet<R: Wait>(rt: &R, publisher: &mut Publisher, viewer: &mut Viewer)
    requires own { publisher.old.front.seen.book ≡ viewer.old.front.seen.book }
    ensures same { (publisher.new ≡ publisher.old) × (viewer.new ≡ viewer.old) }
    ensures meets { IsPrefix viewer.old.front.seen.log publisher.old.front.seen.log }
{
    for _ in rt.forever() {
        let note = publisher.tell();
        if viewer.meets(note) {
            return;
        }
    }
    unreachable!()
}

/// Takes the turn, and lets the viewer meet a note.
pub fn enter<B: Steps, R: Wait>(
    turn: &Turn<Shared<B>>,
    rt: &R,
    pass: &mut Pass<Shared<B>>,
    viewer: &mut Viewer,
) -> Held<Shared<B>>
    requires own { IsOf turn.now pass.old }
    requires idle { IsIdle pass.old }
    requires part { part_of pass.old
        ≡ Some (origin (setup_in pass.old) (callers_in pass.old) (opened_in pass.old) viewer.old.front.seen.book) }
    ensures own { IsOf turn.now pass.new }
    ensures holds { IsHolding pass.new }
    ensures same { IsSamePass pass.old pass.new × HasSameJoined pass.old pass.new
        × (mine_in pass.new ≡ mine_in pass.old) }
    ensures viewer { viewer.new ≡ viewer.old }
    ensures list { seen_in pass.new ≡ reverse (board_of result.value).entries }
    ensures begins { IsPrefix (seen_in pass.old) (reverse (board_of result.value).entries) }
    ensures opened { IsPrefix (opened_by pass.old) (reverse (board_of result.value).entries) }
    ensures mine { own_by (λ entry. entry.actor) (number_of pass.old)
        (drop (length (opened_by pass.old)) (reverse (board_of result.value).entries)) ≡ mine_in pass.old }
    ensures part { part_of pass.old ≡ Some (opened_with result.value) }
    ensures copies { result.value.publisher.value.front.seen.book ≡ viewer.old.front.seen.book }
    ensures meets { IsPrefix viewer.old.front.seen.log result.value.publisher.value.front.seen.log }
{
    let mut held = turn.take(rt, pass);
    meet(rt, &mut held.value.publisher, viewer);
    held
}

/// Lets the viewer learn the map that is published, and gives the turn back.
pub fn leave<B: Steps>(
    turn: &Turn<Shared<B>>,
    pass: &mut Pass<Shared<B>>,
    viewer: &mut Viewer,
    held: Held<Shared<B>>,
)
    requires own { IsOf turn.now pass.old }
    requires holds { IsHolding pass.old }
    requires list { seen_in pass.old ≡ reverse (board_of held.value).entries }
    requires part { part_of pass.old ≡ Some (opened_with held.value) }
    requires copies { held.value.publisher.value.front.seen.book ≡ viewer.old.front.seen.book }
    requires begins { IsPrefix viewer.old.front.seen.log held.value.publisher.value.front.seen.log }
    ensures own { IsOf turn.now pass.new }
    ensures idle { IsIdle pass.new }
    ensures same { IsSamePass pass.old pass.new × HasSameJoined pass.old pass.new }
    ensures seen { (seen_in pass.new ≡ seen_in pass.old) × (mine_in pass.new ≡ mine_in pass.old) }
    ensures learnt { viewer.new.front ≡ held.value.publisher.value.front }
    ensures opened { opened_of viewer.new.front.seen.log ≡ opened_of viewer.old.front.seen.log }
{
    let mut held = held;
    let note = held.value.publisher.tell();
    viewer.learn(note, held.value.publisher.map());
    turn.give(pass, held);
}
