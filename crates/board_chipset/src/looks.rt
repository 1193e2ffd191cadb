//! Looks at the memory map. A look is no access: it goes to no bus and changes nothing.

ghost use Rattle.std.specs.Prelude.{◌≡◌, List, ◌∷◌};
ghost use Rattle.board_prelude.specs.{Bytes, Entry, IsSpan, Setup};
ghost use Rattle.addr_decode.specs.MapRegs.{StandsFor};
ghost use Rattle.board_spec.specs.declared.event.Event.TheVariants.{Look as LookAt};
ghost use Rattle.board_spec.specs.declared.event.Reply.TheVariants.{Saw};
ghost use Rattle.board_chipset.specs.Kept.{IsStateOf};
ghost use Rattle.board_chipset.specs.Versions.{IsAnswerModulo};

use crate::state::State;
use board_base::Kind;
use board_spec::Look;

/// What a look sees: the version of the map, what this kind of access reaches at an address, and the longest
/// interval round it in which that is so.
pub fn look(state: &State, kind: Kind, addr: u32, smm: bool) -> Look
    ensures answer { (setup : Setup) (history : List Entry) → IsStateOf setup history state.now
        → IsAnswerModulo setup history (LookAt kind addr smm) (Saw result) }
    ensures board { (setup : Setup) (history : List Entry) (entry : Entry) → IsStateOf setup history state.now
        → entry.event ≡ LookAt kind addr smm → IsStateOf setup (entry ∷ history) state.now }
    ensures version { result.version ≡ state.now.registers.map.version }
    ensures span { (setup : Setup) (bytes : Bytes) → StandsFor setup bytes state.now.registers.map.regs
        → IsSpan setup bytes addr kind smm result.lo result.hi result.area }
{
    let map = &state.registers.map;
    let span = map.find(addr, kind, smm);
    Look {
        version: map.version(),
        lo: span.lo,
        hi: span.hi,
        area: span.area,
    }
}
