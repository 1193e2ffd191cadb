//! The definitions, of the calls that build the map and change it, and of a law.

ghost use Rattle.std.specs.Prelude.{◌≡◌};
ghost use Rattle.board_prelude.specs.{Setup, Bytes, changed_byte, area_of, IsSpan};
ghost use Rattle.addr_decode.specs.MapRegs.{StandsFor, map_bytes};
ghost use Rattle.pci_bars.specs.Cards.{AreFitted};
ghost use Rattle.promises.specs.Definitions.{AnswersAsDecode, WideIsItsCycles};

use addr_decode::MapRegs;
use board_base::Kind;
use board_spec::MapChange;
use board_spec::laws::law_parts;
use map_builder::{Changed, FlatMap, Span};

/// The map of these registers, built from scratch: it answers as their decode does.
pub fn map_as_decoded(regs: MapRegs) -> FlatMap
    requires cards { AreFitted regs.cards.items }
    ensures answers { (setup : Setup) (bytes : Bytes) → StandsFor setup bytes (map_bytes regs) →
        AnswersAsDecode setup bytes result.ranges }
{
    FlatMap::from_scratch(regs)
}

/// Changes a map in place: it answers as the decode of the changed registers does.
pub fn map_changed_as_decoded(map: &mut FlatMap, change: &MapChange) -> Changed
    ensures answers { (setup : Setup) (bytes : Bytes) → StandsFor setup bytes map.old.regs →
        AnswersAsDecode setup (λ reg. changed_byte setup change.now reg (bytes reg)) map.new.ranges }
{
    map.apply(change)
}

/// What a map says of an address: the area of its decode, and the longest range round it with that area.
pub fn span_as_decoded(map: &FlatMap, addr: u32, kind: Kind, smm: bool) -> Span
    ensures area { (setup : Setup) (bytes : Bytes) → StandsFor setup bytes map.now.regs →
        result.area ≡ area_of setup bytes addr kind smm }
    ensures longest { (setup : Setup) (bytes : Bytes) → StandsFor setup bytes map.now.regs →
        IsSpan setup bytes addr kind smm result.lo result.hi result.area }
{
    map.find(addr, kind, smm)
}

/// A wide access is answered as its cycles are, and stores what they store.
pub fn law_wide_is_its_cycles()
    ensures cycles { WideIsItsCycles }
{
    law_parts();
}
