//! Which card answers at an address or a port (PCI Local Bus 2.1, sections 6.2.2 and 6.2.5).
ghost use Rattle.std.specs.Prelude.{◌≡◌, ◌≤◌, ◌%◌, ◌^◌, ◌==◌, ℕ, All, None, find, length, map, option_map};
ghost use Rattle.board_prelude.specs.{Setup, IsBase, IsCard, IsExpansionRom, window_bits, Bytes, Window, memory_claim};
ghost use Rattle.board_prelude.specs.{memory_shut, rom_unselected, io_claim, io_shut};
ghost use Rattle.pci_bars.specs.Bases.{base_of, bits_in};
ghost use Rattle.pci_bars.specs.Cards.{AreCards, AreDecoded, cards_of};
ghost use Rattle.pci_bars.specs.Claims.{base_covers, covering, covering_base, first_claim, gate_of, is_enabled};
ghost use Rattle.pci_bars.specs.Claims.{rom_claim, rom_covers, vga_claim};

use crate::cards::card_at;
use crate::regs::CardRegs;
use crate::spec::{BASE_COUNT, BaseSpec, ROM_BASE, ROM_ENABLE, VGA_BASE, VGA_BITS};
use board_spec::bits::is_set;
use board_spec::command::{IO_SPACE_ENABLE, MEMORY_SPACE_ENABLE};
use board_spec::range::SMRAM_RANGE;

/// Which windows of a card are looked at: those in memory, an expansion ROM that is not selected, or those among the
/// I/O ports.
#[derive(Clone, Copy)]
enum Windows {
    Memory,
    UnselectedRom,
    Ports,
}

/// Whether a card's command register lets it decode.
#[derive(Clone, Copy)]
enum Gate {
    Open,
    Shut,
}

/// The card that answers at an address: its device, and the number of its base, which is 6 for a selected
/// expansion ROM and 7 for the VGA window. Of several the lowest device, and then the lowest base. None where
/// nothing enabled covers it.
pub fn claim_mem(cards: &[CardRegs], addr: u32) -> Option<(u8, u8)>
    requires cards { AreCards cards.now }
    ensures claim { (setup : Setup) (bytes : Bytes) → AreDecoded setup bytes cards.now
        → result ≡ option_map (λ window. (window.dev, window.base)) (memory_claim setup bytes addr) }
{
    first(cards, Windows::Memory, Gate::Open, addr)
}

/// The card that answers at an I/O port: its device, and the number of its base. Of several the lowest
/// device, and then the lowest base. None where nothing enabled covers it.
pub fn claim_io(cards: &[CardRegs], port: u16) -> Option<(u8, u8)>
    requires cards { AreCards cards.now }
    ensures claim { (setup : Setup) (bytes : Bytes) → AreDecoded setup bytes cards.now
        → result ≡ option_map (λ window. (window.dev, window.base)) (io_claim setup bytes port) }
{
    first(cards, Windows::Ports, Gate::Open, u32::from(port))
}

/// The least device that covers an address, by a base, a selected expansion ROM or the VGA window, and may not
/// decode memory. None where there is none.
pub fn shut_mem(cards: &[CardRegs], addr: u32) -> Option<u8>
    requires cards { AreCards cards.now }
    ensures shut { (setup : Setup) (bytes : Bytes) → AreDecoded setup bytes cards.now
        → result ≡ option_map (λ window. window.dev) (memory_shut setup bytes addr) }
{
    first_device(cards, Windows::Memory, Gate::Shut, addr)
}

/// The least device that covers an I/O port and may not decode ports. None where there is none.
pub fn shut_io(cards: &[CardRegs], port: u16) -> Option<u8>
    requires cards { AreCards cards.now }
    ensures shut { (setup : Setup) (bytes : Bytes) → AreDecoded setup bytes cards.now
        → result ≡ option_map (λ window. window.dev) (io_shut setup bytes port) }
{
    first_device(cards, Windows::Ports, Gate::Shut, u32::from(port))
}

/// The least device that may decode memory and whose expansion ROM covers an address, but is not selected by
/// bit 0 of its register. None where there is none.
pub fn unselected_rom(cards: &[CardRegs], addr: u32) -> Option<u8>
    requires cards { AreCards cards.now }
    ensures unselected { (setup : Setup) (bytes : Bytes) → AreDecoded setup bytes cards.now
        → result ≡ option_map (λ window. window.dev) (rom_unselected setup bytes addr) }
{
    first_device(cards, Windows::UnselectedRom, Gate::Open, addr)
}

/// Where an address or a port lies in a base of a card: the remainder by the size of the base, which is 128 KiB for
/// base 7. 0 for another base that no card has.
pub fn offset_in(cards: &[CardRegs], dev: u8, base: u8, place: u32) -> u32
    requires cards { AreCards cards.now }
    ensures offset { (setup : Setup) → setup.cards ≡ cards_of cards.now
        → result ≡ place % 2 ^ window_bits setup dev base }
    ensures memory { (setup : Setup) (bytes : Bytes) (window : Window) → AreDecoded setup bytes cards.now
        → memory_claim setup bytes place ≡ Some window → window.dev ≡ dev → window.base ≡ base
        → result ≡ place % 2 ^ window.bits }
    ensures ports { (setup : Setup) (bytes : Bytes) (window : Window) → AreDecoded setup bytes cards.now
        → io_claim setup bytes place ≡ Some window → window.dev ≡ dev → window.base ≡ base
        → result ≡ place % 2 ^ window.bits }
{
    low_bits(place, bits_at(cards, dev, base))
}

/// The lowest bits of a number.
fn low_bits(number: u32, count: u8) -> u32
    requires count { count ≤ 28 }
    ensures low { result ≡ number % 2 ^ count }
{
    number % (1 << count)
}

/// log2 of the size of a base of a card. 0 where no card has it.
fn bits_at(cards: &[CardRegs], dev: u8, base: u8) -> u8
    requires cards { AreCards cards.now }
    ensures bits { result ≡ bits_in (find (λ card. card.dev == dev) (cards_of cards.now)) base }
    ensures most { result ≤ 28 }
{
    match card_at(cards, dev) {
        Some(card) => card.spec.window_bits(base),
        None => bits_of_none(base),
    }
}

/// What counts as the size of a base that no card has.
fn bits_of_none(base: u8) -> u8
    ensures bits { result ≡ bits_in None base }
    ensures most { result ≤ 24 }
{
    if base == VGA_BASE { VGA_BITS } else { 0 }
}

/// The first device that covers a place by such a window, and whose gate is like this.
fn first_device(cards: &[CardRegs], windows: Windows, gate: Gate, place: u32) -> Option<u8>
    requires cards { AreCards cards.now }
    ensures device { result ≡ option_map {T = ℕ × ℕ} (λ named. named.0) (first_claim windows gate place cards.now) }
{
    first(cards, windows, gate, place).map(|(dev, _)| dev)
}

/// The first card, by device and then by base, that covers a place by such a window, and whose gate is like this.
fn first(cards: &[CardRegs], windows: Windows, gate: Gate, place: u32) -> Option<(u8, u8)>
    requires cards { AreCards cards.now }
    ensures first { result ≡ first_claim windows gate place cards.now }
{
    for card in cards {
        if gate_of(card, windows) == gate {
            if let Some(base) = base_at(card, windows, place) {
                return Some((card.spec.dev, base));
            }
        }
    }
    None
}

/// Whether the command register lets a card decode the space of these windows.
fn gate_of(card: &CardRegs, windows: Windows) -> Gate
    ensures gate { result ≡ gate_of (is_enabled windows card.now) }
{
    let enable = match windows {
        Windows::Memory | Windows::UnselectedRom => MEMORY_SPACE_ENABLE,
        Windows::Ports => IO_SPACE_ENABLE,
    };
    if is_set(u32::from(card.command), enable) {
        Gate::Open
    } else {
        Gate::Shut
    }
}

/// The lowest base of a card that covers a place, whatever its gate.
fn base_at(card: &CardRegs, windows: Windows, place: u32) -> Option<u8>
    requires card { IsCard card.now.card }
    ensures base { result ≡ covering_base windows place card.now }
{
    let spec = &card.spec;
    first_covering(&spec.bases, &card.bases, windows, place)
        .or(rom_at(spec.rom, card.rom, windows, place))
        .or(vga_at(spec.vga, windows, place))
}

/// The number of the first base that covers a place.
#[tactic(auto, using(crate::proofs::BaseLemmas::base_within))]
fn first_covering(
    bases: &[BaseSpec],
    values: &[u32; BASE_COUNT],
    windows: Windows,
    place: u32,
) -> Option<u8>
    requires bases { All IsBase (map base_of bases.now) }
    requires count { length bases.now ≤ 6 }
    ensures first { result ≡ covering windows values.now place 0 (map base_of bases.now) }
{
    for (index, base) in bases.iter().enumerate() {
        if is_covered(*base, windows, values[index], place) {
            return Some(index as u8);
        }
    }
    None
}

/// The expansion ROM as a base, where it is among these windows and covers the place.
fn rom_at(rom: Option<u8>, register: u32, windows: Windows, place: u32) -> Option<u8>
    requires rom { IsExpansionRom rom }
    ensures claim { result ≡ rom_claim windows rom register place }
{
    let selected = is_set(register, ROM_ENABLE);
    match windows {
        Windows::Memory if selected && rom_covers(rom, register, place) => Some(ROM_BASE),
        Windows::UnselectedRom if !selected && rom_covers(rom, register, place) => Some(ROM_BASE),
        _ => None,
    }
}

/// Whether an expansion ROM with this register covers a place, selected or not.
fn rom_covers(rom: Option<u8>, register: u32, place: u32) -> bool
    requires rom { IsExpansionRom rom }
    ensures base_covers { result ≡ rom_covers rom register place }
{
    match rom {
        Some(bits) => register >> bits == place >> bits,
        None => false,
    }
}

/// The VGA window as a base, where it is among these windows, the card is a VGA adapter, and it covers the place.
fn vga_at(vga: bool, windows: Windows, place: u32) -> Option<u8>
    ensures claim { result ≡ vga_claim windows vga place }
{
    match windows {
        Windows::Memory if vga && place >> VGA_BITS == SMRAM_RANGE.first >> VGA_BITS => Some(
            VGA_BASE,
        ),
        _ => None,
    }
}

/// Whether a base that holds this value decodes a place.
fn is_covered(base: BaseSpec, windows: Windows, value: u32, place: u32) -> bool
    requires base { IsBase (base_of base) }
    ensures base_covers { result ≡ base_covers windows (base_of base) value place }
{
    match (windows, base) {
        (Windows::Memory, BaseSpec::Memory(bits)) => value >> bits == place >> bits,
        (Windows::Memory, BaseSpec::Outside(bits)) => value >> bits == place >> bits,
        (Windows::Ports, BaseSpec::Io(bits)) => value >> bits == place >> bits,
        _ => false,
    }
}
