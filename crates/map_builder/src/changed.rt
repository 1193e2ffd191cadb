//! The windows of addresses that a change of the registers covers: those in which it may change the areas.
ghost use Rattle.std.specs.Prelude.{true, false, not, ◌||◌, ◌≡◌, ◌≤◌, ◌<◌, ◌+◌, ◌-◌, ◌*◌, ◌++◌, [], ◌∷◌, All, length};
ghost use Rattle.std.specs.Prelude.{map, flat_map};
ghost use Rattle.board_prelude.specs.{Setup, IsBase, IsCard, IsExpansionRom, Bytes};
ghost use Rattle.pci_bars.specs.Bases.{base_of};
ghost use Rattle.pci_bars.specs.Cards.{AreCards, AreFitted, cards_of};
ghost use Rattle.addr_decode.specs.MapRegister.{AreNumbered, IsCardNumber, IsNumbered, IsNumberedName, names_of};
ghost use Rattle.addr_decode.specs.MapRegs.{StandsFor, map_bytes};
ghost use Rattle.addr_decode.specs.Singles.{ends_of_range, single_count};
ghost use Rattle.map_builder.specs.Changed.{pam_windows, register_windows, name_windows, windows_covered, from_to};
ghost use Rattle.map_builder.specs.Changed.{is_card_name, rest_on_registers, single_windows, whole};
ghost use Rattle.map_builder.specs.Held.{block, held_by, held_from, held_at, rom_held, vga_held, card_held};
ghost use Rattle.map_builder.specs.Held.{device_held};

use crate::list::FixedList;
use crate::range::{Changed, LAST_ADDRESS};
use addr_decode::singles::decided;
use addr_decode::{CardRegister, MapChange, MapRegister, MapRegs};
use board_spec::range::{AddressRange, EXPANSION_RANGE, LARGEST_TOP, SMRAM_RANGE, SYSTEM_BIOS};
use pci_bars::{BaseSpec, CardRegs, card_at};

/// Every address.
pub const EVERYTHING: Changed = Changed {
    lo: 0,
    hi: LAST_ADDRESS,
};
/// The addresses that can belong to a row of DRAM.
const ROWS: Changed = Changed {
    lo: 0,
    hi: LARGEST_TOP - 1,
};
/// How many addresses the two windows of a PAM register after PAM0 have together.
const PAM_SIZE: u32 = 0x8000;

/// Windows that a change covers. There is room for those of four register bytes, before the change and after it.
pub type Covered = FixedList<Changed, 64>;

/// Adds the windows that a change covers, as the registers are now: those of each register byte that it stores to, by
/// their names. A hard reset covers every address.
#[inline(always)]
#[tactic(auto, unfolding(crate::specs::Changed::windows_covered), using(addr_decode::proofs::NameLemmas::names_numbered))]
pub fn push_covered(
    windows: &mut Covered,
    regs: &MapRegs,
    change: &MapChange,
    names: &[Option<MapRegister>],
)
    requires cards { AreFitted regs.now.cards.items }
    requires names { names.now ≡ names_of (cards_of regs.now.cards.items) change.now }
    requires room { length windows.old.items ≤ 32 }
    ensures few { length windows.new.items ≤ length windows.old.items + 32 }
    ensures windows { (setup : Setup) (bytes : Bytes) → StandsFor setup bytes (map_bytes regs.now)
        → windows.new.items ≡ windows.old.items ++ windows_covered setup bytes change.now }
{
    match change {
        MapChange::Store { .. } => push_of_names(windows, regs, names),
        MapChange::Reset => windows.push(EVERYTHING),
    }
}

/// Adds the windows that a change covers, as the registers are after it, unless `same` says that they are those from
/// before.
#[inline(always)]
pub fn push_again(
    windows: &mut Covered,
    same: bool,
    regs: &MapRegs,
    change: &MapChange,
    names: &[Option<MapRegister>],
)
    requires cards { AreFitted regs.now.cards.items }
    requires names { names.now ≡ names_of (cards_of regs.now.cards.items) change.now }
    requires room { length windows.old.items ≤ 32 }
    ensures few { length windows.new.items ≤ length windows.old.items + 32 }
    ensures same { same ≡ true → windows.new.items ≡ windows.old.items }
    ensures windows { same ≡ false → (setup : Setup) (bytes : Bytes) → StandsFor setup bytes (map_bytes regs.now)
        → windows.new.items ≡ windows.old.items ++ windows_covered setup bytes change.now }
{
    if !same {
        push_covered(windows, regs, change, names);
    }
}

/// Whether the windows of registers with these names are known to be the same after a change as before: because the
/// register keeps its byte (`kept`), or because no register's value moves them, as only those of cards do.
pub fn keeps_windows(kept: bool, names: &[Option<MapRegister>]) -> bool
    ensures keeps { result ≡ (kept || not (rest_on_registers names.now)) }
{
    kept || !rest_on_registers(names)
}

/// Whether one of the registers with these names is of a card.
fn rest_on_registers(names: &[Option<MapRegister>]) -> bool
    ensures rest { result ≡ rest_on_registers names.now }
{
    names.iter().any(|name| is_card_name(*name))
}

/// Whether a name is that of a register of a card.
fn is_card_name(name: Option<MapRegister>) -> bool
    ensures card { result ≡ is_card_name name }
{
    match name {
        Some(register) => register.is_of_card(),
        None => false,
    }
}

/// Adds the windows of the registers with these names.
#[inline(always)]
fn push_of_names(windows: &mut Covered, regs: &MapRegs, names: &[Option<MapRegister>])
    requires cards { AreFitted regs.now.cards.items }
    requires names { AreNumbered names.now }
    requires room { length windows.old.items ≤ 32 }
    ensures few { length windows.new.items ≤ length windows.old.items + 32 }
    ensures windows { (setup : Setup) (bytes : Bytes) → StandsFor setup bytes (map_bytes regs.now)
        → windows.new.items ≡ windows.old.items ++ flat_map (name_windows setup bytes) names.now }
{
    for name in names {
        push_of_name(windows, regs, *name);
    }
}

/// Adds the windows of the register with a name.
#[inline(always)]
fn push_of_name(windows: &mut Covered, regs: &MapRegs, name: Option<MapRegister>)
    requires cards { AreFitted regs.now.cards.items }
    requires number { IsNumberedName name }
    requires room { length windows.old.items ≤ 56 }
    ensures few { length windows.new.items ≤ length windows.old.items + 8 }
    ensures windows { (setup : Setup) (bytes : Bytes) → StandsFor setup bytes (map_bytes regs.now)
        → windows.new.items ≡ windows.old.items ++ name_windows setup bytes name }
{
    match name {
        Some(register) => push_of_register(windows, regs, register),
        None => {}
    }
}

/// Adds the windows of a register: the addresses whose areas can depend on it.
#[inline(always)]
fn push_of_register(windows: &mut Covered, regs: &MapRegs, register: MapRegister)
    requires cards { AreFitted regs.now.cards.items }
    requires number { IsNumbered register }
    requires room { length windows.old.items ≤ 56 }
    ensures few { length windows.new.items ≤ length windows.old.items + 8 }
    ensures windows { (setup : Setup) (bytes : Bytes) → StandsFor setup bytes (map_bytes regs.now)
        → windows.new.items ≡ windows.old.items ++ register_windows setup bytes register }
{
    match register {
        MapRegister::Pam(number) => windows.push(windows_of_pam(number)),
        MapRegister::RowBoundary(_) => windows.push(ROWS),
        MapRegister::Single(number) => push_of_single(windows, number.into()),
        MapRegister::Card(dev, register) => push_of_device(windows, &regs.cards, dev, register),
    }
}

/// Adds the windows of the register of one byte that has a number: the ranges that it decides.
fn push_of_single(windows: &mut Covered, number: usize)
    requires number { number < single_count }
    requires room { length windows.old.items ≤ 56 }
    ensures few { length windows.new.items ≤ length windows.old.items + 8 }
    ensures windows { windows.new.items ≡ windows.old.items ++ single_windows number }
{
    push_ranges(windows, decided(number));
}

/// Adds ranges as windows.
fn push_ranges(windows: &mut Covered, ranges: &[AddressRange])
    requires room { length windows.old.items + length ranges.now ≤ 64 }
    ensures few { length windows.new.items ≤ length windows.old.items + length ranges.now }
    ensures windows { windows.new.items ≡ windows.old.items ++ map whole (map ends_of_range ranges.now) }
{
    for range in ranges {
        push_range(windows, *range);
    }
}

/// Adds a range as a window.
fn push_range(windows: &mut Covered, range: AddressRange)
    requires room { length windows.old.items ≤ 63 }
    ensures windows { windows.new.items ≡ windows.old.items ++ from_to range.first range.last ∷ [] }
{
    windows.push(Changed {
        lo: range.first,
        hi: range.last,
    });
}

/// The shadow windows of a PAM register: that of PAM0, and the two of PAM1 to PAM6.
fn windows_of_pam(number: u8) -> Changed
    requires number { number < 7 }
    ensures windows { result ≡ pam_windows number }
{
    if number == 0 {
        return Changed {
            lo: SYSTEM_BIOS.first,
            hi: SYSTEM_BIOS.last,
        };
    }
    let lo = EXPANSION_RANGE.first + PAM_SIZE * u32::from(number - 1);
    Changed {
        lo,
        hi: lo + (PAM_SIZE - 1),
    }
}

/// Adds the windows of a register of the card at a device number. Where there is no such card there is none.
fn push_of_device(windows: &mut Covered, cards: &[CardRegs], dev: u8, register: CardRegister)
    requires cards { AreCards cards.now }
    requires number { IsCardNumber register }
    requires room { length windows.old.items ≤ 56 }
    ensures few { length windows.new.items ≤ length windows.old.items + 8 }
    ensures windows { windows.new.items ≡ windows.old.items ++ device_held dev register cards.now }
{
    match card_at(cards, dev) {
        Some(card) => push_of_card(windows, card, register),
        None => {}
    }
}

/// Adds the windows of a register of a card.
fn push_of_card(windows: &mut Covered, card: &CardRegs, register: CardRegister)
    requires card { IsCard card.now.card }
    requires number { IsCardNumber register }
    requires room { length windows.old.items ≤ 56 }
    ensures few { length windows.new.items ≤ length windows.old.items + 8 }
    ensures windows { windows.new.items ≡ windows.old.items ++ card_held register card.now }
{
    match register {
        CardRegister::Command => push_of_command(windows, card),
        CardRegister::Base(index) => push_base_of(windows, card, usize::from(index / 4)),
        CardRegister::ExpansionRom(_) => push_rom_of(windows, card),
    }
}

/// Adds the addresses of a card's memory bases, its expansion ROM and its VGA window.
fn push_of_command(windows: &mut Covered, card: &CardRegs)
    requires card { IsCard card.now.card }
    requires room { length windows.old.items ≤ 56 }
    ensures few { length windows.new.items ≤ length windows.old.items + 8 }
    ensures windows { windows.new.items ≡ windows.old.items ++ (held_from card.now.bases 0 card.now.card.bases
        ++ rom_held card.now.card.rom card.now.rom ++ vga_held card.now.card.vga) }
{
    push_bases(windows, &card.spec.bases, &card.bases);
    push_rom_of(windows, card);
    if card.spec.vga {
        push_range(windows, SMRAM_RANGE);
    }
}

/// Adds the addresses of a card's expansion ROM, where it has one.
fn push_rom_of(windows: &mut Covered, card: &CardRegs)
    requires card { IsCard card.now.card }
    requires room { length windows.old.items ≤ 63 }
    ensures few { length windows.new.items ≤ length windows.old.items + 1 }
    ensures windows { windows.new.items ≡ windows.old.items ++ rom_held card.now.card.rom card.now.rom }
{
    push_rom(windows, card.spec.rom, card.rom);
}

/// Adds the addresses of an expansion ROM, where there is one, whose register has this value.
fn push_rom(windows: &mut Covered, rom: Option<u8>, register: u32)
    requires rom { IsExpansionRom rom }
    requires room { length windows.old.items ≤ 63 }
    ensures few { length windows.new.items ≤ length windows.old.items + 1 }
    ensures windows { windows.new.items ≡ windows.old.items ++ rom_held rom register }
{
    match rom {
        Some(bits) => windows.push(block(register, bits)),
        None => {}
    }
}

/// Adds the addresses of each memory base among these, whose registers have these values.
#[tactic(auto, using(pci_bars::proofs::BaseLemmas::base_within))]
fn push_bases(windows: &mut Covered, bases: &[BaseSpec], values: &[u32; 6])
    requires bases { All IsBase (map base_of bases.now) }
    requires count { length bases.now ≤ 6 }
    requires room { length windows.old.items ≤ 56 }
    ensures few { length windows.new.items ≤ length windows.old.items + 6 }
    ensures windows { windows.new.items ≡ windows.old.items ++ held_from values.now 0 (map base_of bases.now) }
{
    for (index, base) in bases.iter().enumerate() {
        push_base(windows, *base, values[index]);
    }
}

/// Adds the addresses of a card's base 0 to 5, where it exists and is for memory.
fn push_base_of(windows: &mut Covered, card: &CardRegs, index: usize)
    requires card { IsCard card.now.card }
    requires index { index < 6 }
    requires room { length windows.old.items ≤ 56 }
    ensures few { length windows.new.items ≤ length windows.old.items + 1 }
    ensures windows { windows.new.items ≡ windows.old.items ++ held_at card.now.bases card.now.card.bases index }
{
    push_base_at(windows, &card.spec.bases, &card.bases, index);
}

/// Adds the addresses of the base at an index, where it exists and is for memory. The registers of the bases have these
/// values.
#[tactic(auto, using(pci_bars::proofs::BaseLemmas::base_within, crate::proofs::WindowLemmas::base_steps))]
fn push_base_at(windows: &mut Covered, bases: &[BaseSpec], values: &[u32; 6], index: usize)
    requires bases { All IsBase (map base_of bases.now) }
    requires index { index < 6 }
    requires room { length windows.old.items ≤ 56 }
    ensures few { length windows.new.items ≤ length windows.old.items + 1 }
    ensures windows { windows.new.items ≡ windows.old.items ++ held_at values.now (map base_of bases.now) index }
{
    match bases.get(index) {
        Some(base) => push_base(windows, *base, values[index]),
        None => {}
    }
}

/// Adds the addresses of a base whose register has this value, where it is for memory.
fn push_base(windows: &mut Covered, base: BaseSpec, value: u32)
    requires base { IsBase (base_of base) }
    requires room { length windows.old.items ≤ 63 }
    ensures few { length windows.new.items ≤ length windows.old.items + 1 }
    ensures windows { windows.new.items ≡ windows.old.items ++ held_by (base_of base) value }
{
    match base {
        BaseSpec::Memory(bits) => windows.push(block(value, bits)),
        BaseSpec::Outside(bits) => windows.push(block(value, bits)),
        BaseSpec::Io(_) => {}
    }
}

/// The 2^`bits` addresses that differ from `inside` in the low `bits` bits alone.
#[tactic(auto, using(crate::proofs::WindowLemmas::block_fits))]
fn block(inside: u32, bits: u8) -> Changed
    requires bits { bits ≤ 28 }
    ensures block { result ≡ block inside bits }
{
    let lo = inside >> bits << bits;
    Changed {
        lo,
        hi: lo + ((1 << bits) - 1),
    }
}
