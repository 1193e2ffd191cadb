//! One step of the chipset, by the kind of its event.

ghost use Rattle.std.specs.Prelude.{◌≡◌, List, ◌∷◌};
ghost use Rattle.board_prelude.specs.{Entry, Setup};
ghost use Rattle.board_chipset.specs.Kept.{CanDo, IsStateOf, StaysSound};
ghost use Rattle.board_chipset.specs.Versions.{IsAnswerModulo};

use crate::state::State;
use crate::{looks, memory, outside, ports, wide};
use board_spec::{Event, Reply};

/// Does an event, and returns the reply.
#[tactic(auto, using(crate::proofs::Exact::modulo))]
pub fn step(state: &mut State, rom: &[u8], event: &Event) -> Reply
    requires can { CanDo state.old rom.now event.now }
    ensures sound { StaysSound state.old state.new }
    ensures answer { (setup : Setup) (history : List Entry) → IsStateOf setup history state.old
        → setup.rom ≡ rom.now
        → IsAnswerModulo setup history event.now result }
    ensures board { (setup : Setup) (history : List Entry) (entry : Entry)
        → IsStateOf setup history state.old → setup.rom ≡ rom.now
        → entry.event ≡ event.now → entry.reply ≡ result → IsStateOf setup (entry ∷ history) state.new }
{
    match event {
        Event::Memory(access) => memory::access(state, rom, access).reply(),
        Event::Wide(access) => wide::access(state, rom, access).reply(),
        Event::Port(access) => ports::access(state, access).reply(),
        Event::Look { kind, addr, smm } => Reply::Saw(looks::look(state, *kind, *addr, *smm)),
        _ => outside::answer(state, event).reply(),
    }
}
