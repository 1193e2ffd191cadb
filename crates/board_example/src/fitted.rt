//! What the boards of the examples are fitted with.

ghost use Rattle.std.specs.Prelude.{◌≡◌, [], option_map};

use board_core::Setup;
use std::alloc::Global;

/// 8 MiB, no cards, this ROM, and maybe this disk.
pub(crate) fn fitted(alloc: Global, rom: Vec<u8>, disk: Option<Vec<u8>>) -> Setup
    ensures setup { result ≡ record {
      mib = 8;
      cards = [];
      rom = rom.items;
      disk = option_map (λ disk. disk.items) disk;
    } }
{
    let cards = Vec::new(alloc);
    Setup {
        mib: 8,
        cards,
        rom,
        disk,
    }
}
