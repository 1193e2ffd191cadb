//! The flat map: a shadow window is opened, and what lies there is looked up.

ghost use Rattle.std.specs.Prelude.{◌≡◌};

use addr_decode::{MapChange, MapRegs};
use board_base::{Kind, Reg, Width};
use board_spec::offset::{HOST_BRIDGE, PAM0};
use map_builder::{FlatMap, Span};

/// A store to PAM0 of the host bridge, by which reads at F0000h to FFFFFh come from DRAM.
pub const SHADOW_BIOS: MapChange = MapChange::Store {
    reg: Reg {
        dev: HOST_BRIDGE,
        fun: 0,
        off: PAM0,
    },
    width: Width::One,
    value: 0x10,
};

/// The map after a reset of a board without cards.
pub fn after_reset() -> FlatMap
    ensures version { result.version ≡ 0 }
{
    FlatMap::from_scratch(MapRegs::reset_of(&[]))
}

/// What answers a read of the BIOS at F0000h, and how far round it, once that is shadowed.
pub fn shadowed() -> Span {
    let mut map = after_reset();
    map.apply(&SHADOW_BIOS);
    map.find(0xF_0000, Kind::Read, false)
}
