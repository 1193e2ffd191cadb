//! The registers that the address map depends on, each named once.
ghost use Rattle.std.specs.Prelude.{◌≡◌, ◌≤◌, ◌==◌, [], ◌∷◌, Some, is_some, option_map};
ghost use Rattle.board_prelude.specs.{One, list_any, position, reg_after};
ghost use Rattle.pci_bars.specs.Cards.{cards_of};
ghost use Rattle.addr_decode.specs.declared.register.CardRegister.TheVariants.{ExpansionRom};
ghost use Rattle.addr_decode.specs.declared.register.MapRegister.TheVariants.{Card, Single};
ghost use Rattle.addr_decode.specs.Found.{HasRegister};
ghost use Rattle.addr_decode.specs.MapRegister.{IsCardNumber, offset_of, is_of_card, in_bridge, in_isa_bridge, in_card};
ghost use Rattle.addr_decode.specs.MapRegister.{in_device, map_register, names_from, names_of};

use crate::found::{ConfigRegister, Function};
use crate::regs::MapRegs;
use crate::singles::number_at;
use arrayvec::ArrayVec;
use board_base::{Reg, Width};
use board_spec::MapChange;
use board_spec::offset::{
    BASE0, BASE5_END, COMMAND, DRB0, DRB7, EXPANSION_ROM, EXPANSION_ROM_END, HOST_BRIDGE, PAM0,
    PAM6, SOUTH_BRIDGE,
};
use pci_bars::{CardRegs, card_at};

/// A register byte that the address map depends on.
#[derive(Clone, Copy, PartialEq, Eq, Debug)]
pub enum MapRegister {
    /// PAM0 to PAM6 of the host bridge.
    Pam(u8),
    /// DRB0 to DRB7 of the host bridge, the boundary of a row of DRAM.
    RowBoundary(u8),
    /// A register of one byte of a bridge, by its number in the table of `singles`.
    Single(u8),
    /// A register of the card at a device number.
    Card(u8, CardRegister),
}

/// A register byte of a card that the address map depends on.
#[derive(Clone, Copy, PartialEq, Eq, Debug)]
pub enum CardRegister {
    /// The low byte of the command.
    Command,
    /// One of the 24 bytes of the base address registers.
    Base(u8),
    /// One of the four bytes of the expansion ROM base address register.
    ExpansionRom(u8),
}

/// The names of the registers that a change stores to, in rising offset: one, two or four, and none for a hard reset.
/// None stands for a register on which the address map does not depend.
pub type Names = ArrayVec<Option<MapRegister>, 4>;

impl CardRegister {
    /// The offset in the card's configuration space.
    pub fn offset(&self) -> u8
        requires number { IsCardNumber self.now }
        ensures offset { result ≡ offset_of self.now }
    {
        match self {
            CardRegister::Command => COMMAND,
            CardRegister::Base(index) => BASE0 + *index,
            CardRegister::ExpansionRom(index) => EXPANSION_ROM + *index,
        }
    }
}

impl MapRegister {
    /// Whether it is a register of a card.
    pub fn is_of_card(&self) -> bool
        ensures card { result ≡ is_of_card self.now }
    {
        match self {
            MapRegister::Card(..) => true,
            _ => false,
        }
    }
}

/// Whether the address map depends on one of the registers with these names.
pub fn touch_map(names: &[Option<MapRegister>]) -> bool
    ensures touched { result ≡ list_any is_some names.now }
{
    names.iter().any(|name| name.is_some())
}

impl MapRegs {
    /// The name of a register. None where the address map does not depend on it.
    #[tactic(auto, unfolding(crate::specs::MapRegister::map_register))]
    pub fn register(&self, reg: Reg) -> Option<MapRegister>
        ensures named { result ≡ map_register (cards_of self.now.cards.items) reg }
    {
        if reg.fun != 0 {
            return None;
        }
        match reg.dev {
            HOST_BRIDGE => in_bridge(reg.off),
            SOUTH_BRIDGE => in_isa_bridge(reg.off),
            dev => in_device(&self.cards, dev, reg.off),
        }
    }

    /// The names of the registers that a change stores to.
    pub fn names(&self, change: &MapChange) -> Names
        ensures named { result.items ≡ names_of (cards_of self.now.cards.items) change.now }
    {
        match change {
            MapChange::Store { reg, width, .. } => self.names_from(*reg, *width),
            MapChange::Reset => ArrayVec::new(),
        }
    }

    /// The names of the registers that a store covers from one on.
    pub fn names_from(&self, reg: Reg, width: Width) -> Names
        ensures named { result.items ≡ names_from (cards_of self.now.cards.items) reg width }
    {
        let mut names = ArrayVec::new();
        for k in 0..width.bytes() as u8 {
            names.push(self.register_after(reg, k));
        }
        names
    }

    /// The names of the registers that a store covers from one on that its function has.
    #[inline(always)]
    pub fn names_at(&self, register: &ConfigRegister, width: Width) -> Names
        requires function { HasRegister self.now.cards.items register.now.function register.now.reg }
        ensures named { result.items ≡ names_from (cards_of self.now.cards.items) register.now.reg width }
    {
        match width {
            Width::One => self.name_at(register),
            Width::Two | Width::Four => self.names_from(register.reg, width),
        }
    }

    /// The name of a register that its function has, as a list.
    #[inline(always)]
    fn name_at(&self, register: &ConfigRegister) -> Names
        requires function { HasRegister self.now.cards.items register.now.function register.now.reg }
        ensures named { result.items ≡ names_from (cards_of self.now.cards.items) register.now.reg One }
    {
        let mut names = ArrayVec::new();
        names.push(self.name_of(register));
        names
    }

    /// The name of the one register to which a store of one byte goes.
    #[inline(always)]
    pub fn name_alone(&self, reg: Reg) -> Option<MapRegister>
        ensures named { result ∷ [] ≡ names_from (cards_of self.now.cards.items) reg One }
    {
        self.register_after(reg, 0)
    }

    /// The name of a register that its function has: that of the one register to which a store of one byte goes. None
    /// where the address map does not depend on it.
    #[tactic(auto, using(std::proofs::lemmas::Bool::Decides::nat_tests), unfolding(crate::specs::MapRegister::map_register))]
    fn name_of(&self, register: &ConfigRegister) -> Option<MapRegister>
        requires function { HasRegister self.now.cards.items register.now.function register.now.reg }
        ensures named { result ∷ [] ≡ names_from (cards_of self.now.cards.items) register.now.reg One }
    {
        match register.function {
            Function::HostBridge => in_bridge(register.reg.off),
            Function::IsaBridge => in_isa_bridge(register.reg.off),
            Function::Ide => None,
            Function::Card(place) => named_at(&self.cards, place, register.reg),
        }
    }

    /// The name of the register `k` offsets after another. Past offset FFh there is none.
    #[tactic(auto, using(crate::proofs::NameLemmas::none_past))]
    fn register_after(&self, reg: Reg, k: u8) -> Option<MapRegister>
        ensures named { result ≡ map_register (cards_of self.now.cards.items) (reg_after reg k) }
    {
        match reg.off.checked_add(k) {
            Some(off) => self.register(Reg { off, ..reg }),
            None => None,
        }
    }
}

/// The name of a register of the host bridge.
fn in_bridge(off: u8) -> Option<MapRegister>
    ensures named { result ≡ in_bridge off }
{
    match off {
        PAM0..=PAM6 => Some(MapRegister::Pam(off - PAM0)),
        DRB0..=DRB7 => Some(MapRegister::RowBoundary(off - DRB0)),
        _ => named_single(number_at(HOST_BRIDGE, off)),
    }
}

/// The name of a register of the ISA bridge.
fn in_isa_bridge(off: u8) -> Option<MapRegister>
    ensures named { result ≡ in_isa_bridge off }
{
    named_single(number_at(SOUTH_BRIDGE, off))
}

/// The name of a register of one byte that has a number.
fn named_single(number: Option<u8>) -> Option<MapRegister>
    ensures named { result ≡ option_map Single number }
{
    match number {
        Some(number) => Some(MapRegister::Single(number)),
        None => None,
    }
}

/// The name of a register of the card at a device number. None where there is no card.
fn in_device(cards: &[CardRegs], dev: u8, off: u8) -> Option<MapRegister>
    ensures named { result ≡ in_device (cards_of cards.now) dev off }
{
    match card_at(cards, dev) {
        Some(card) => named_in_card(dev, card, off),
        None => None,
    }
}

/// The name of a register of the card at a place in the list.
#[tactic(auto, using(crate::proofs::NameLemmas::at_place), unfolding(crate::specs::MapRegister::map_register))]
fn named_at(cards: &[CardRegs], place: usize, reg: Reg) -> Option<MapRegister>
    requires dev { 2 ≤ reg.dev }
    requires fun { reg.fun ≡ 0 }
    requires place { position (λ card. card.card.dev == reg.dev) cards.now ≡ Some place }
    ensures named { result ≡ map_register (cards_of cards.now) reg }
{
    named_in_card(reg.dev, &cards[place], reg.off)
}

/// The name of a register of a card, with the card's device number.
fn named_in_card(dev: u8, card: &CardRegs, off: u8) -> Option<MapRegister>
    ensures named { result ≡ option_map (Card dev) (in_card off card.now.card) }
{
    match in_card(card, off) {
        Some(register) => Some(MapRegister::Card(dev, register)),
        None => None,
    }
}

/// The name of a register of a card.
fn in_card(card: &CardRegs, off: u8) -> Option<CardRegister>
    ensures named { result ≡ in_card off card.now.card }
{
    match off {
        COMMAND => Some(CardRegister::Command),
        BASE0..=BASE5_END => Some(CardRegister::Base(off - BASE0)),
        EXPANSION_ROM..=EXPANSION_ROM_END => in_rom(card.spec.rom, off - EXPANSION_ROM),
        _ => None,
    }
}

/// The name of a byte of the expansion ROM's register, where the card has one.
fn in_rom(rom: Option<u8>, index: u8) -> Option<CardRegister>
    ensures named { result ≡ option_map (λ bits. ExpansionRom index) rom }
{
    match rom {
        Some(_) => Some(CardRegister::ExpansionRom(index)),
        None => None,
    }
}
