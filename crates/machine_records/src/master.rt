//! What an access of a bus master would reach. Nothing in the chipset changes.

ghost use Rattle.std.specs.Prelude.{◌≡◌, true, false};
ghost use Rattle.machine_records.specs.Masters.{IsMasterCycle, IsMasterPlaced, master_kind};
ghost use Rattle.machine_records.specs.Statuses.{IsOutcome, no_cycle};

use crate::event::width_of;
use crate::reply::{PartRecord, of_part};
use crate::status::{NO_CYCLE, OK};
use board_base::Kind;
use board_chipset::Chipset;

/// Sets `part` to what would answer an access of a bus master of so many bytes at an address, and what would deny it:
/// never SMRAM, nor memory at A0000h to BFFFFh. Refused with `NO_CYCLE` where no bus cycle makes it: it is of 1, 2 or 4
/// bytes, at a multiple of them.
pub fn decode_master(
    chipset: &Chipset,
    addr: u32,
    bytes: u8,
    is_write: bool,
    part: &mut PartRecord,
) -> u32
    ensures outcome { IsOutcome result (IsMasterPlaced chipset.now addr bytes is_write part.new)
        ((result ≡ no_cycle) × ¬ IsMasterCycle addr bytes) (part.new ≡ part.old) }
{
    if !is_cycle(addr, bytes) {
        return NO_CYCLE;
    }
    *part = of_part(chipset.decode_master(addr, kind_of(is_write)));
    OK
}

/// Whether one bus cycle makes an access of so many bytes at an address.
fn is_cycle(addr: u32, bytes: u8) -> bool
    ensures cycle { result ≡ true → IsMasterCycle addr bytes }
    ensures none { result ≡ false → ¬ IsMasterCycle addr bytes }
{
    match width_of(bytes) {
        Some(width) => width.is_aligned(addr),
        None => false,
    }
}

/// What a bus master does with memory.
fn kind_of(is_write: bool) -> Kind
    ensures kind { result ≡ master_kind is_write }
{
    if is_write { Kind::Write } else { Kind::Read }
}
