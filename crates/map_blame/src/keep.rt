//! The changes on which the memory map rests.
ghost use Rattle.std.specs.Prelude.{◌≡◌, ◌<◌, length, reverse, IfOk};
ghost use Rattle.board_prelude.specs.{Store, entry_limit, Setup, IsCardList, Bytes, reg_after};
ghost use Rattle.pci_bars.specs.Cards.{AreFitted};
ghost use Rattle.addr_decode.specs.MapRegs.{StandsFor, map_bytes};
ghost use Rattle.map_blame.specs.Keep.{IsKeep};
ghost use Rattle.map_blame.specs.Covers.{AreCoversOf, is_kept_of, is_last_of, is_last_at};

use crate::covers::Covers;
use addr_decode::{MapRegs, touches};
use board_base::{NoMemory, Reg, Width};
use board_spec::MapChange;
use std::alloc::Global;

/// The numbers of the changes on which the map rests, in rising order. `regs` are registers of the same board.
pub fn kept_changes(
    alloc: Global,
    regs: &MapRegs,
    changes: &[MapChange],
) -> Result<Vec<u32>, NoMemory>
    requires cards { AreFitted regs.now.cards.items }
    requires count { length changes.now < entry_limit }
    ensures keep { IfOk result (λ keep. (setup : Setup) (bytes : Bytes) → StandsFor setup bytes (map_bytes regs.now)
        → IsCardList setup.cards → IsKeep setup (reverse changes.now) keep.items) }
{
    let covers = covers_of(changes);
    let mut keep = Vec::new(alloc);
    for (index, change) in changes.iter().enumerate() {
        let number = index as u32 + 1;
        if is_kept(&covers, regs, number, change) {
            keep.push(number)?;
        }
    }
    Ok(keep)
}

/// The last covers and the first lock of some changes.
fn covers_of(changes: &[MapChange]) -> Covers
    requires count { length changes.now < entry_limit }
    ensures covers { AreCoversOf (reverse changes.now) result }
{
    let mut covers = Covers::new();
    for (index, change) in changes.iter().enumerate() {
        covers.add(index as u32 + 1, change);
    }
    covers
}

/// Whether the map rests on a change that has this number.
fn is_kept(covers: &Covers, regs: &MapRegs, number: u32, change: &MapChange) -> bool
    requires cards { AreFitted regs.now.cards.items }
    ensures kept { (setup : Setup) (bytes : Bytes) → StandsFor setup bytes (map_bytes regs.now)
        → IsCardList setup.cards → result ≡ is_kept_of setup covers.now number change.now }
{
    covers.lock == Some(number) || is_last_cover(covers, regs, number, change)
}

/// Whether a change that has this number is the last that covers some byte on which the map depends.
fn is_last_cover(covers: &Covers, regs: &MapRegs, number: u32, change: &MapChange) -> bool
    requires cards { AreFitted regs.now.cards.items }
    ensures last { (setup : Setup) (bytes : Bytes) → StandsFor setup bytes (map_bytes regs.now)
        → IsCardList setup.cards → result ≡ is_last_of setup covers.now number change.now }
{
    match change {
        MapChange::Store { reg, width, .. } => is_last_store(covers, regs, number, *reg, *width),
        MapChange::Reset => false,
    }
}

/// Whether a store that has this number is the last that covers some byte on which the map depends.
fn is_last_store(covers: &Covers, regs: &MapRegs, number: u32, reg: Reg, width: Width) -> bool
    requires cards { AreFitted regs.now.cards.items }
    ensures last { (setup : Setup) (bytes : Bytes) → StandsFor setup bytes (map_bytes regs.now)
        → IsCardList setup.cards → result ≡ is_last_of setup covers.now number (Store reg width 0) }
{
    for k in 0..width.bytes() as u8 {
        if is_last_after(covers, regs, number, reg, k) {
            return true;
        }
    }
    false
}

/// Whether this is the number of the last change that covers the register `k` offsets after another, and the map
/// depends on it. There is none past offset FFh.
fn is_last_after(covers: &Covers, regs: &MapRegs, number: u32, reg: Reg, k: u8) -> bool
    requires cards { AreFitted regs.now.cards.items }
    ensures last { (setup : Setup) (bytes : Bytes) → StandsFor setup bytes (map_bytes regs.now)
        → IsCardList setup.cards → result ≡ is_last_at setup covers.now number (reg_after reg k) }
{
    match reg.off.checked_add(k) {
        Some(off) => is_last(covers, regs, number, Reg { off, ..reg }),
        None => false,
    }
}

/// Whether this is the number of the last change that covers a register, and the map depends on it.
fn is_last(covers: &Covers, regs: &MapRegs, number: u32, reg: Reg) -> bool
    requires cards { AreFitted regs.now.cards.items }
    ensures last { (setup : Setup) (bytes : Bytes) → StandsFor setup bytes (map_bytes regs.now)
        → result ≡ is_last_at setup covers.now number reg }
{
    touches(regs, reg, Width::One) && covers.last_of(reg) == Some(number)
}
