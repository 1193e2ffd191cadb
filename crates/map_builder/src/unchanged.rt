//! The byte that a register has where a change stores one byte, so that it can be compared before and after.
ghost use Rattle.std.specs.Prelude.{◌≡◌, IfSome, None, true, get_or, is_some, length};
ghost use Rattle.board_prelude.specs.{Reg, MapChange, Setup, Bytes};
ghost use Rattle.pci_bars.specs.Cards.{AreFitted, cards_of};
ghost use Rattle.addr_decode.specs.MapRegister.{AreNumbered, IsNumberedName, map_register, names_of};
ghost use Rattle.addr_decode.specs.MapRegs.{StandsFor, map_bytes};
ghost use Rattle.map_builder.specs.Unchanged.{IsHeldAt, IsSameByte};

use addr_decode::{MapRegister, MapRegs};

/// The byte of the one register to which a change stores, by the names of those that it stores to. None where they are
/// not one, or the map does not depend on it.
#[inline(always)]
pub fn byte_alone(regs: &MapRegs, names: &[Option<MapRegister>]) -> Option<u8>
    requires cards { AreFitted regs.now.cards.items }
    requires names { AreNumbered names.now }
    ensures held { (change : MapChange) → names.now ≡ names_of (cards_of regs.now.cards.items) change
        → (setup : Setup) (bytes : Bytes) → StandsFor setup bytes (map_bytes regs.now)
        → IfSome result (IsHeldAt change bytes) }
    ensures compared { length names.now ≡ 1 → is_some result ≡ is_some (get_or names.now 0 None) }
{
    if names.len() != 1 {
        return None;
    }
    byte_of_name(regs, names[0])
}

/// The byte of the register with a name. None where there is no name.
#[inline(always)]
fn byte_of_name(regs: &MapRegs, name: Option<MapRegister>) -> Option<u8>
    requires cards { AreFitted regs.now.cards.items }
    requires number { IsNumberedName name }
    ensures held { (reg : Reg) → name ≡ map_register (cards_of regs.now.cards.items) reg
        → (setup : Setup) (bytes : Bytes) → StandsFor setup bytes (map_bytes regs.now)
        → IfSome result (λ held. held ≡ bytes reg) }
    ensures compared { is_some result ≡ is_some name }
{
    match name {
        Some(register) => Some(regs.byte(register)),
        None => None,
    }
}

/// Whether there are two bytes, and they are the same.
#[inline(always)]
pub fn is_same_byte(before: Option<u8>, later: Option<u8>) -> bool
    ensures same { result ≡ true → IsSameByte before later }
    ensures other { IsSameByte before later → result ≡ true }
{
    match before {
        Some(byte) => later == Some(byte),
        None => false,
    }
}
