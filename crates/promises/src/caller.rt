//! A caller's history, of the shared board's calls.

ghost use Rattle.std.specs.Prelude.{◌≡◌, ◌<◌, length, IfOk, OnErr};
ghost use Rattle.board_spec.specs.InRange.{IsInRange};
ghost use Rattle.board_live.specs.Bus.{IsNoLook};
ghost use Rattle.board_live.specs.Callers.{IsCallerOf, setup_of, seen_of, known_of, mine_of};
ghost use Rattle.board_live.specs.Known.{most_each};
ghost use Rattle.promises.specs.Caller.{HasPlace, AddsNothing, IsLookOf};

use board_base::{Kind, NoMemory};
use board_live::{Answered, Cpu, Live};
use board_spec::{Event, Look};
use std::sync::Wait;

/// Does an event at the shared board.
pub fn bus_in_its_place<R: Wait>(
    cpu: &mut Cpu,
    live: &Live,
    rt: &R,
    event: &Event,
) -> Result<Answered, NoMemory>
    requires own { IsCallerOf live.now cpu.old }
    requires event { IsInRange (setup_of cpu.old) event.now }
    requires no_look { IsNoLook event.now }
    requires room { length (mine_of cpu.old) < most_each }
    ensures own { IsCallerOf live.now cpu.new }
    ensures place { IfOk result (λ answered. HasPlace (setup_of cpu.old) cpu.old.number event.now answered.reply
        answered.place (record { seen = seen_of cpu.old; known = known_of cpu.old })
        (record { seen = seen_of cpu.new; known = known_of cpu.new })) }
    ensures refused { OnErr result (AddsNothing cpu.old.number
        (record { seen = seen_of cpu.old; known = known_of cpu.old })
        (record { seen = seen_of cpu.new; known = known_of cpu.new })) }
{
    cpu.bus(live, rt, event)
}

/// Looks at the newest map that the caller finds.
pub fn look_never_back(cpu: &mut Cpu, addr: u32, kind: Kind, smm: bool) -> Look
    ensures same { cpu.new.number ≡ cpu.old.number }
    ensures look { IsLookOf (setup_of cpu.old) kind addr smm result
        (record { seen = seen_of cpu.old; known = known_of cpu.old })
        (record { seen = seen_of cpu.new; known = known_of cpu.new }) }
{
    cpu.look(addr, kind, smm)
}
