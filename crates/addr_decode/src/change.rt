//! What a change of the configuration space makes of the registers that the address map depends on.
ghost use Rattle.std.specs.Prelude.{◌≡◌, ◌≢◌, ◌≤◌, ◌<◌, ◌⊎◌, None, true, false, is_some};
ghost use Rattle.board_prelude.specs.{list_any, Store, Setup, changed_byte, Bytes, card_register, is_map_byte};
ghost use Rattle.board_prelude.specs.{reg_after, touches_map};
ghost use Rattle.pci_bars.specs.Cards.{AreCards, AreCardsOf, AreDecoded, AreFitted, cards_of};
ghost use Rattle.addr_decode.specs.MapRegister.{IsNumbered, map_register, names_from, names_of, place_of};
ghost use Rattle.addr_decode.specs.MapRegs.{StandsFor, map_bytes, stored};
ghost use Rattle.addr_decode.specs.Singles.{single, single_count};

use crate::cards::write_card;
use crate::register::{MapRegister, touch_map};
use crate::regs::MapRegs;
use crate::singles::single_after;
use board_base::{Reg, Width};
use board_spec::MapChange;
use board_spec::offset::{PAM0, SOUTH_BRIDGE};
use host_bridge::store_pam;
use pci_bars::{CardRegs, card_at};

/// Whether a store covers a byte that the address map depends on, whether or not it changes it. Bytes past
/// offset FFh do not count.
pub fn touches(regs: &MapRegs, reg: Reg, width: Width) -> bool
    requires cards { AreFitted regs.now.cards.items }
    ensures touched { (setup : Setup) (bytes : Bytes) → StandsFor setup bytes (map_bytes regs.now)
        → result ≡ touches_map setup (Store reg width 0) }
{
    has_name(regs, reg, width)
}

/// Whether one of the registers that a store covers has a name.
fn has_name(regs: &MapRegs, reg: Reg, width: Width) -> bool
    ensures named { result ≡ list_any is_some (names_from (cards_of regs.now.cards.items) reg width) }
{
    match width {
        Width::One => touch_map(&[regs.name_alone(reg)]),
        Width::Two | Width::Four => touch_map(regs.names_from(reg, width).as_slice()),
    }
}

impl MapRegs {
    /// Makes a change. Bytes of a store past offset FFh, and bits of its value past its width, do not count. Of the
    /// cards every register changes, of the bridges those alone that the address map depends on.
    pub fn apply(&mut self, change: &MapChange)
        requires cards { AreFitted self.old.cards.items }
        ensures stands { (setup : Setup) (bytes : Bytes) → StandsFor setup bytes (map_bytes self.old)
            → StandsFor setup (λ reg. changed_byte setup change.now reg (bytes reg)) (map_bytes self.new) }
        ensures cards { (setup : Setup) (bytes : Bytes) → AreCardsOf setup bytes self.old.cards.items
            → AreCardsOf setup (λ reg. changed_byte setup change.now reg (bytes reg)) self.new.cards.items }
        ensures same_cards { cards_of self.new.cards.items ≡ cards_of self.old.cards.items }
        ensures fitted { AreFitted self.new.cards.items }
    {
        let names = self.names(change);
        self.apply_named(change, names.as_slice());
    }

    /// Makes a change as `apply` does, where the names of the registers that it stores to are known.
    #[inline(always)]
    #[tactic(auto, using(crate::proofs::CardLemmas::fitted_same))]
    pub fn apply_named(&mut self, change: &MapChange, names: &[Option<MapRegister>])
        requires cards { AreFitted self.old.cards.items }
        requires names { names.now ≡ names_of (cards_of self.old.cards.items) change.now }
        ensures stands { (setup : Setup) (bytes : Bytes) → StandsFor setup bytes (map_bytes self.old)
            → StandsFor setup (λ reg. changed_byte setup change.now reg (bytes reg)) (map_bytes self.new) }
        ensures cards { (setup : Setup) (bytes : Bytes) → AreCardsOf setup bytes self.old.cards.items
            → AreCardsOf setup (λ reg. changed_byte setup change.now reg (bytes reg)) self.new.cards.items }
        ensures same_cards { cards_of self.new.cards.items ≡ cards_of self.old.cards.items }
        ensures fitted { AreFitted self.new.cards.items }
    {
        match change {
            MapChange::Store { reg, width, value } => self.store(*reg, *width, *value, names),
            MapChange::Reset => self.reset(),
        }
    }

    /// Stores the bytes of a value in rising offset, in the registers with these names.
    #[inline(always)]
    fn store(&mut self, reg: Reg, width: Width, value: u32, names: &[Option<MapRegister>])
        requires cards { AreFitted self.old.cards.items }
        requires names { names.now ≡ names_from (cards_of self.old.cards.items) reg width }
        ensures stands { (setup : Setup) (bytes : Bytes) → StandsFor setup bytes (map_bytes self.old)
            → StandsFor setup (λ r. changed_byte setup (Store reg width value) r (bytes r)) (map_bytes self.new) }
        ensures cards { (setup : Setup) (bytes : Bytes) → AreCardsOf setup bytes self.old.cards.items
            → AreCardsOf setup (λ r. changed_byte setup (Store reg width value) r (bytes r)) self.new.cards.items }
        ensures same_cards { cards_of self.new.cards.items ≡ cards_of self.old.cards.items }
    {
        let bytes = value.to_le_bytes();
        for k in 0..width.bytes() as u8 {
            let place = usize::from(k);
            self.store_after(reg, k, names[place], bytes[place]);
        }
    }

    /// Stores a byte in the register `k` offsets after another, by its name.
    #[inline(always)]
    fn store_after(&mut self, reg: Reg, k: u8, name: Option<MapRegister>, byte: u8)
        requires cards { AreFitted self.old.cards.items }
        requires name { name ≡ map_register (cards_of self.old.cards.items) (reg_after reg k) }
        ensures stands { (setup : Setup) (bytes : Bytes) → StandsFor setup bytes (map_bytes self.old)
            → StandsFor setup (stored setup bytes (reg_after reg k) byte) (map_bytes self.new) }
        ensures cards { (setup : Setup) (bytes : Bytes) → AreCardsOf setup bytes self.old.cards.items
            → AreCardsOf setup (stored setup bytes (reg_after reg k) byte) self.new.cards.items }
        ensures same_cards { cards_of self.new.cards.items ≡ cards_of self.old.cards.items }
    {
        match name {
            Some(register) => self.set(register, byte),
            None => self.store_beside(reg, k, byte),
        }
    }

    /// Stores a byte in a register.
    #[inline(always)]
    fn set(&mut self, register: MapRegister, byte: u8)
        requires cards { AreFitted self.old.cards.items }
        requires number { IsNumbered register }
        ensures stands { (setup : Setup) (bytes : Bytes) → StandsFor setup bytes (map_bytes self.old)
            → StandsFor setup (stored setup bytes (place_of register) byte) (map_bytes self.new) }
        ensures cards { (setup : Setup) (bytes : Bytes) → AreCardsOf setup bytes self.old.cards.items
            → AreCardsOf setup (stored setup bytes (place_of register) byte) self.new.cards.items }
        ensures same_cards { cards_of self.new.cards.items ≡ cards_of self.old.cards.items }
    {
        match register {
            MapRegister::Pam(number) => store_pam(&mut self.pam, PAM0 + number, byte),
            MapRegister::RowBoundary(row) => self.drb[usize::from(row)] = byte,
            MapRegister::Single(number) => self.set_single(number.into(), byte),
            MapRegister::Card(dev, register) => {
                write_card(&mut self.cards, dev, register.offset(), byte);
            }
        }
    }

    /// Stores a byte in the register of one byte that has a number.
    #[inline(always)]
    fn set_single(&mut self, number: usize, byte: u8)
        requires cards { AreFitted self.old.cards.items }
        requires number { number < single_count }
        ensures stands { (setup : Setup) (bytes : Bytes) → StandsFor setup bytes (map_bytes self.old)
            → StandsFor setup (stored setup bytes (single number) byte) (map_bytes self.new) }
        ensures cards { self.new.cards ≡ self.old.cards }
    {
        self.singles[number] = single_after(number, self.singles[number], byte);
    }

    /// Stores a byte in the register `k` offsets after another, on which the address map does not depend. Of those the
    /// interrupt lines of the cards alone are kept.
    fn store_beside(&mut self, reg: Reg, k: u8, byte: u8)
        requires cards { AreFitted self.old.cards.items }
        requires beside { map_register (cards_of self.old.cards.items) (reg_after reg k) ≡ None }
        ensures stands { (setup : Setup) (bytes : Bytes) → StandsFor setup bytes (map_bytes self.old)
            → StandsFor setup (stored setup bytes (reg_after reg k) byte) (map_bytes self.new) }
        ensures cards { (setup : Setup) (bytes : Bytes) → AreCardsOf setup bytes self.old.cards.items
            → AreCardsOf setup (stored setup bytes (reg_after reg k) byte) self.new.cards.items }
        ensures same_cards { cards_of self.new.cards.items ≡ cards_of self.old.cards.items }
    {
        if is_of_bridge(reg) {
            return;
        }
        match reg.off.checked_add(k) {
            Some(off) => write_card(&mut self.cards, reg.dev, off, byte),
            None => {}
        }
    }

    /// The byte of a register.
    #[inline(always)]
    pub fn byte(&self, register: MapRegister) -> u8
        requires cards { AreFitted self.now.cards.items }
        requires number { IsNumbered register }
        ensures byte { (setup : Setup) (bytes : Bytes) → StandsFor setup bytes (map_bytes self.now)
            → is_map_byte setup (place_of register) ≡ true → result ≡ bytes (place_of register) }
    {
        match register {
            MapRegister::Pam(number) => self.pam[usize::from(number)],
            MapRegister::RowBoundary(row) => self.drb[usize::from(row)],
            MapRegister::Single(number) => self.singles[usize::from(number)],
            MapRegister::Card(dev, register) => byte_of(&self.cards, dev, register.offset()),
        }
    }
}

/// Whether a register is none of a card: of a bridge, or of a function other than 0.
fn is_of_bridge(reg: Reg) -> bool
    ensures bridge { result ≡ true → (reg.dev < 2) ⊎ (reg.fun ≢ 0) }
    ensures card { result ≡ false → (2 ≤ reg.dev) × (reg.fun ≡ 0) }
{
    reg.fun != 0 || reg.dev <= SOUTH_BRIDGE
}

/// A register of the card at a device number, and 0 where there is none.
fn byte_of(cards: &[CardRegs], dev: u8, off: u8) -> u8
    requires cards { AreCards cards.now }
    ensures byte { (setup : Setup) (bytes : Bytes) → AreDecoded setup bytes cards.now
        → is_map_byte setup (card_register dev off) ≡ true → 2 ≤ dev → result ≡ bytes (card_register dev off) }
{
    match card_at(cards, dev) {
        Some(card) => card.read(off),
        None => 0,
    }
}
