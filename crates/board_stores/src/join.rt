//! The cycles of a wide access, read or written one after the other.
ghost use Rattle.std.specs.Prelude.{◌≡◌, ◌≤◌, ◌+◌, ℕ, true, List, map, All};
ghost use Rattle.board_prelude.specs.{Entry, Setup, is_write, parts_put, joined, Covers, value_at, memory_target};
ghost use Rattle.board_prelude.specs.{part_answer};
ghost use Rattle.board_stores.specs.Puts.{HasStores, ArePut};
ghost use Rattle.board_stores.specs.Cycles.{accesses, answers, AreReady};

use crate::cut::Cycle;
use crate::memory::{read, write};
use crate::stores::Stores;

/// The value of cycles that read, the first in the low bits: those of an access of at most 8 bytes.
pub fn read_cycles(stores: &Stores, rom: &[u8], cycles: &[Cycle]) -> u64
    requires ready { AreReady rom.now stores.now.contents cycles.now }
    requires covers { (from end : ℕ) × Covers from end (accesses cycles.now) × (end ≤ from + 8) }
    ensures value { (setup : Setup) (history : List Entry) → HasStores setup history stores.now → setup.rom ≡ rom.now
        → answers cycles.now ≡ map (part_answer setup history) (accesses cycles.now)
        → result ≡ joined (λ part. value_at setup history (memory_target setup history part) part.addr part.width)
        (accesses cycles.now) }
{
    let mut value = 0;
    let mut shift = 0;
    for cycle in cycles {
        value |= u64::from(read(stores, rom, &cycle.access, &cycle.answer)) << shift;
        shift += 8 * cycle.access.width.bytes();
    }
    value
}

/// Does cycles that write, one after the other. Those to the ROM and to nobody are lost.
pub fn write_cycles(stores: &mut Stores, cycles: &[Cycle])
    requires ready { (rom : List ℕ) × AreReady rom stores.old.contents cycles.now }
    requires writes { All (λ cycle. is_write cycle.access.kind ≡ true) cycles.now }
    ensures put { ArePut (parts_put (accesses cycles.now) (answers cycles.now)) stores.old stores.new }
{
    for cycle in cycles {
        write(stores, &cycle.access, &cycle.answer);
    }
}
