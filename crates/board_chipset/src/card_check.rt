//! Tests a list of cards of which nothing is known.

ghost use Rattle.std.specs.Prelude.{◌≡◌, ◌≤◌, ◌<◌, ◌+◌, ◌↔◌, All, map, sum_by, IsTrue, IfSome, None};
ghost use Rattle.board_prelude.specs.{most_card_memory, IsBase, IsCard, IsCardList, IsExpansionRom, memory_of_cards};
ghost use Rattle.board_prelude.specs.{memory_size};
ghost use Rattle.pci_bars.specs.Bases.{base_of};
ghost use Rattle.board_chipset.specs.Setups.{RiseFrom};

use pci_bars::{BaseSpec, CardSpec};

/// The most cards.
const MOST_CARDS: usize = 8;
/// The device numbers of cards.
const FIRST_DEVICE: u8 = 2;

const LAST_DEVICE: u8 = 9;
/// The most bytes behind the memory bases of all cards.
const MOST_CARD_MEMORY: u32 = 0x400_0000;

/// Whether a board can be fitted with these cards: at most eight, each in range, in rising order of device.
#[tactic(auto, using(crate::proofs::CardChecks::listed))]
pub(crate) fn are_cards(cards: &[CardSpec]) -> bool
    ensures cards { IsTrue result ↔ IsCardList cards.now }
{
    cards.len() <= MOST_CARDS && rise(cards)
}

/// Whether all cards are in range, each with a device number above that of the card before it.
#[tactic(auto, using(crate::proofs::CardChecks::rise_rules), unfolding(crate::specs::Setups::RiseFrom))]
fn rise(cards: &[CardSpec]) -> bool
    ensures rise { IsTrue result ↔ RiseFrom 1 cards.now }
{
    let mut above = FIRST_DEVICE - 1;
    for card in cards {
        if card.dev <= above || !is_card(card) {
            return false;
        }
        above = card.dev;
    }
    true
}

/// Whether a card is in range: its device number, its bases, and its expansion ROM.
fn is_card(card: &CardSpec) -> bool
    ensures card { IsTrue result ↔ IsCard card.now }
{
    FIRST_DEVICE <= card.dev
        && card.dev <= LAST_DEVICE
        && are_bases(&card.bases)
        && is_expansion_rom(card.rom)
}

/// Whether the bases of a card are in range.
#[tactic(auto, using(crate::proofs::CardChecks::bases_at, std::proofs::lemmas::Bool::Decides::nat_tests))]
fn are_bases(bases: &[BaseSpec]) -> bool
    ensures bases { IsTrue result ↔ All IsBase (map base_of bases.now) }
{
    for base in bases {
        if !is_base(*base) {
            return false;
        }
    }
    true
}

/// Whether a base has 16 bytes to 16 MiB of memory, 4 to 256 ports (PCI Local Bus 2.1, section 6.2.5.1), or 16 bytes to
/// 256 MiB outside the board.
pub fn is_base(base: BaseSpec) -> bool
    ensures base { IsTrue result ↔ IsBase (base_of base) }
{
    match base {
        BaseSpec::Memory(bits) => 4 <= bits && bits <= 24,
        BaseSpec::Io(bits) => 2 <= bits && bits <= 8,
        BaseSpec::Outside(bits) => 4 <= bits && bits <= 28,
    }
}

/// Whether an expansion ROM has 2 KiB to 16 MiB, where there is one (PCI Local Bus 2.1, section 6.2.5.2).
pub fn is_expansion_rom(rom: Option<u8>) -> bool
    ensures rom { IsTrue result ↔ IsExpansionRom rom }
{
    match rom {
        Some(bits) => 11 <= bits && bits <= 24,
        None => true,
    }
}

/// Whether the memory bases of cards have at most 64 MiB together.
pub(crate) fn fit_windows(cards: &[CardSpec]) -> bool
    requires cards { All IsCard cards.now }
    ensures fit { IsTrue result ↔ (memory_of_cards cards.now ≤ most_card_memory) }
{
    let mut room = MOST_CARD_MEMORY;
    for card in cards {
        match room_after(&card.bases, room) {
            Some(left) => room = left,
            None => return false,
        }
    }
    true
}

/// What is left of `room` bytes after the memory of these bases. None where they have more than that.
#[tactic(auto, using(crate::proofs::CardChecks::base_at))]
fn room_after(bases: &[BaseSpec], room: u32) -> Option<u32>
    requires bases { All IsBase (map base_of bases.now) }
    ensures left { IfSome result (λ left. left + sum_by memory_size (map base_of bases.now) ≡ room) }
    ensures none { result ≡ None → room < sum_by memory_size (map base_of bases.now) }
{
    let mut left = room;
    for base in bases {
        left = left.checked_sub(memory_size(*base))?;
    }
    Some(left)
}

/// The bytes of memory that the board keeps for a base.
fn memory_size(base: BaseSpec) -> u32
    requires base { IsBase (base_of base) }
    ensures size { result ≡ memory_size (base_of base) }
{
    match base {
        BaseSpec::Memory(bits) => 1 << bits,
        BaseSpec::Io(_) | BaseSpec::Outside(_) => 0,
    }
}
