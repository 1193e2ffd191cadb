//! A worked example: two callers on threads of their own make marks on one sheet.
ghost use Rattle.std.specs.Prelude.{◌≡◌, ◌++◌, ◌∷◌, ◌+◌, ◌≤◌, ◌<◌, [], All, length, MatchBool, IfSome};
ghost use mathlib.Core.List.{IsPrefix};
ghost use Rattle.bus_turn.specs.Passes.{IsIdle, IsSameCaller, HasSameJoined, number_of, seen_of, mine_of};
ghost use Rattle.bus_turn.specs.Turns.{IsOf};
ghost use Rattle.bus_turn.specs.Views.{own_by};

use crate::kept::Kept;
use crate::turn::Turn;
use crate::view::Pass;
use std::alloc::Global;
use std::sync::Wait;
use std::thread;
use std::thread::Threads;

// The most marks on a sheet.
const MOST: usize = 1_000_000;

/// A row of marks, each the number of the caller that made it.
#[derive(Drop)]
pub struct Sheet {
    pub marks: Vec<u8>,
    ghost within: { length marks.items ≤ 1_000_000 },
}

impl Kept for Sheet {
    type Entry = u8;

    type Fixed = ();

    ghost entries = { λ sheet. sheet.marks.items };

    ghost actor = { λ mark. mark };

    ghost fixed = { λ _. tt };

    fn count(&self) -> u32 {
        self.marks.len() as u32
    }
}

impl Sheet {
    /// A sheet without marks.
    pub fn new(alloc: Global) -> Sheet
        ensures empty { result.marks.items ≡ [] }
    {
        Sheet {
            marks: Vec::new(alloc),
        }
    }

    /// Makes a mark, unless the sheet is full or there is no memory.
    pub fn mark(&mut self, number: u8) -> bool
        ensures marked { MatchBool result (self.new.marks.items ≡ self.old.marks.items ++ number ∷ [])
            (self.new.marks.items ≡ self.old.marks.items) }
    {
        if self.marks.len() >= MOST {
            return false;
        }
        self.marks.push(number).is_ok()
    }
}

/// A sheet with marks, and how many of them each of two callers made.
#[derive(Drop)]
pub struct Tally {
    pub sheet: Sheet,
    pub first: u32,
    pub second: u32,
}

/// One turn. It returns whether a mark was made.
pub fn mark_once<R: Wait>(rt: &R, turn: &Turn<Sheet>, pass: &mut Pass<Sheet>, number: u8) -> bool
    requires own { IsOf turn.now pass.old }
    requires idle { IsIdle pass.old }
    requires number { number ≡ number_of pass.old }
    ensures own { IsOf turn.now pass.new }
    ensures idle { IsIdle pass.new }
    ensures same { IsSameCaller pass.old pass.new × HasSameJoined pass.old pass.new }
    ensures later { IsPrefix (seen_of pass.old) (seen_of pass.new) }
    ensures mine { MatchBool result (mine_of pass.new ≡ mine_of pass.old ++ number ∷ [])
        (mine_of pass.new ≡ mine_of pass.old) }
{
    let mut held = turn.take(rt, pass);
    if held.value.mark(number) {
        turn.commit(pass, &mut held);
        turn.give(pass, held);
        return true;
    }
    turn.give(pass, held);
    false
}

/// Some turns. It returns how many marks were made.
pub fn mark_often<R: Wait>(
    rt: &R,
    turn: &Turn<Sheet>,
    mut pass: Pass<Sheet>,
    number: u8,
    times: u32,
) -> (Pass<Sheet>, u32)
    requires own { IsOf turn.now pass }
    requires idle { IsIdle pass }
    requires number { number ≡ number_of pass }
    ensures own { IsOf turn.now result.0 }
    ensures idle { IsIdle result.0 }
    ensures same { IsSameCaller pass result.0 × HasSameJoined pass result.0 }
    ensures mine { length (mine_of result.0) ≡ length (mine_of pass) + result.1 }
{
    let mut made = 0;
    for _ in 0..times {
        if mark_once(rt, turn, &mut pass, number) {
            made += 1;
        }
    }
    (pass, made)
}

/// Two callers take turns at one sheet, each `times` times. Whatever the schedule, each caller's marks
/// stand on the sheet just as often as it made them, and there are no others.
pub fn mark_by_two<R: Threads + Wait + Sync>(rt: &R, alloc: Global, times: u32) -> Option<Tally>
    ensures first { IfSome result (λ tally. length (own_by (λ m. m) 0 tally.sheet.marks.items) ≡ tally.first) }
    ensures second { IfSome result (λ tally. length (own_by (λ m. m) 1 tally.sheet.marks.items) ≡ tally.second) }
    ensures others { IfSome result (λ tally. All (λ m. m ≤ 1) tally.sheet.marks.items) }
{
    let Ok((turn, mut pass)) = Turn::open(alloc, Sheet::new(alloc)) else {
        return None;
    };
    let other = turn.split(&mut pass);
    let shared = &turn;
    let ((mut pass, first), (other, second)) = thread::join(
        rt,
        move || mark_often(rt, shared, pass, 0, times),
        move || mark_often(rt, shared, other, 1, times),
    );
    turn.join(&mut pass, other);
    Some(Tally {
        sheet: turn.close(pass),
        first,
        second,
    })
}
