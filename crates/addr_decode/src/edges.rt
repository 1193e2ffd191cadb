//! The edges of the memory map: the addresses whose six areas may differ from those of the address below.
ghost use Rattle.std.specs.Prelude.{ℕ, ◌≡◌, ◌<◌, ◌≤◌, ◌*◌, ◌^◌, ◌↔◌, ◌+◌, [], ◌∷◌, IfSome, IsNone, true, nat_lt, find};
ghost use Rattle.std.specs.Prelude.{slice_index, All, length, map, unwrap_or, flat_map};
ghost use Rattle.board_prelude.specs.{Setup, IsBase, IsCard, IsExpansionRom, Bytes, address_count, boundary_unit};
ghost use Rattle.pci_bars.specs.Bases.{base_of};
ghost use Rattle.pci_bars.specs.Cards.{AreCards, AreFitted};
ghost use Rattle.addr_decode.specs.MapRegs.{StandsFor, map_bytes};
ghost use Rattle.addr_decode.specs.Edges.{IsNextEdge, NoEdgeAbove, SameAreas, edges_after, fixed_edges};
ghost use Rattle.addr_decode.specs.EdgeSearch.{nearer, nearest, ends_of, ends_from, ends_of_rom, ends_of_card};

use crate::regs::MapRegs;
use board_spec::range::{
    BOUNDARY_UNIT, EXPANSION_RANGE, EXTENDED_BIOS, HIGH_BIOS, HOLE_AT_15_MIB, HOLE_AT_512_KIB,
    LARGEST_TOP, LOWER_HIGH_BIOS, SMRAM_RANGE, SYSTEM_BIOS,
};
use host_bridge::{WINDOW_SIZE, end_of};
use pci_bars::{BASE_COUNT, BaseSpec, CardRegs};

/// The edges that no register moves: the ends of the hole at 512 KiB, of SMRAM, of the shadow windows, of the hole
/// at 15 MiB, and of the ranges of the ROM below 4 GiB.
const FIXED_EDGES: [u32; FIXED_COUNT] = [
    HOLE_AT_512_KIB.first,
    SMRAM_RANGE.first,
    EXPANSION_RANGE.first,
    EXPANSION_RANGE.first + WINDOW_SIZE,
    EXPANSION_RANGE.first + 2 * WINDOW_SIZE,
    EXPANSION_RANGE.first + 3 * WINDOW_SIZE,
    EXPANSION_RANGE.first + 4 * WINDOW_SIZE,
    EXPANSION_RANGE.first + 5 * WINDOW_SIZE,
    EXPANSION_RANGE.first + 6 * WINDOW_SIZE,
    EXPANSION_RANGE.first + 7 * WINDOW_SIZE,
    EXPANSION_RANGE.first + 8 * WINDOW_SIZE,
    EXPANSION_RANGE.first + 9 * WINDOW_SIZE,
    EXPANSION_RANGE.first + 10 * WINDOW_SIZE,
    EXPANSION_RANGE.first + 11 * WINDOW_SIZE,
    SYSTEM_BIOS.first,
    SYSTEM_BIOS.last + 1,
    HOLE_AT_15_MIB.first,
    HOLE_AT_15_MIB.last + 1,
    EXTENDED_BIOS.first,
    LOWER_HIGH_BIOS.first,
    HIGH_BIOS.first,
];

/// How many edges no register moves.
const FIXED_COUNT: usize = 21;

/// The most edges of a board: beside those that are fixed 8 of rows, and 2 of each of 6 bases and of the expansion ROM
/// of 8 cards.
pub const MOST_EDGES: usize = FIXED_COUNT + 8 + 8 * 7 * 2;

/// How many of the fixed edges come up to the first shadow window, and up to the end of the last.
const UP_TO_EXPANSION: usize = 3;

const UP_TO_SYSTEM_BIOS: usize = 16;

/// The least address above this one at which the six areas may change. None where they stay the same up to the last
/// address.
pub fn next_edge(regs: &MapRegs, addr: u32) -> Option<u32>
    requires cards { AreFitted regs.now.cards.items }
    ensures above { IfSome result (λ edge. addr < edge) }
    ensures next { (setup : Setup) (bytes : Bytes) → StandsFor setup bytes (map_bytes regs.now)
        → IfSome result (IsNextEdge setup bytes addr) }
    ensures last { (setup : Setup) (bytes : Bytes) → StandsFor setup bytes (map_bytes regs.now)
        → IsNone result ↔ NoEdgeAbove setup bytes addr }
    ensures equal { (setup : Setup) (bytes : Bytes) → StandsFor setup bytes (map_bytes regs.now)
        → SameAreas setup bytes addr (unwrap_or result address_count) }
    ensures fewer { (setup : Setup) (bytes : Bytes) → StandsFor setup bytes (map_bytes regs.now)
        → IfSome result (λ edge. edges_after setup bytes edge < edges_after setup bytes addr) }
{
    let mut nearest = Nearest {
        addr,
        edge: fixed_above(addr),
    };
    nearest.see_cards(&regs.cards);
    nearest.see_rows(&regs.drb);
    nearest.edge
}

/// The least of the fixed edges above an address. The search skips those that cannot lie above it.
#[tactic(auto, using(crate::proofs::FixedEdgeLemmas::fixed), unfolding(crate::specs::Edges::fixed_edges))]
fn fixed_above(addr: u32) -> Option<u32>
    ensures first { result ≡ find (nat_lt addr) fixed_edges }
{
    if addr < EXPANSION_RANGE.first {
        return first_above(addr, &FIXED_EDGES);
    }
    if addr <= SYSTEM_BIOS.last {
        return first_above(addr, &FIXED_EDGES[UP_TO_EXPANSION..]);
    }
    first_above(addr, &FIXED_EDGES[UP_TO_SYSTEM_BIOS..])
}

/// The first of these edges that lies above an address. Where they rise, it is the least.
fn first_above(addr: u32, edges: &[u32]) -> Option<u32>
    ensures first { result ≡ find (nat_lt addr) edges.now }
{
    edges.iter().copied().find(|edge| addr < *edge)
}

/// The least edge above an address of those that were seen. Each `see` takes in more edges.
#[derive(Clone, Copy)]
struct Nearest {
    addr: u32,
    edge: Option<u32>,
}

impl Nearest {
    /// The ends of the rows of DRAM.
    #[tactic(auto, unfolding(crate::specs::EdgeSearch::nearest))]
    fn see_rows(&mut self, drb: &[u8; 8])
        ensures nearest { self.new.edge
            ≡ nearest self.old.addr self.old.edge (map (λ boundary. boundary * boundary_unit) drb.now) }
        ensures same { self.new.addr ≡ self.old.addr }
    {
        if self.is_before_rows(drb) {
            return;
        }
        for boundary in drb {
            self.see(end_of(*boundary));
        }
    }

    /// Whether the ends of rows are known to be no nearer: they are multiples of 8 MiB, at most 7F800000h.
    fn is_before_rows(&self, drb: &[u8; 8]) -> bool
        ensures rows { result ≡ true
            → nearest self.now.addr self.now.edge (map (λ boundary. boundary * boundary_unit) drb.now) ≡ self.now.edge }
    {
        are_bytes(drb);
        if self.addr >= LARGEST_TOP {
            return true;
        }
        match self.edge {
            Some(edge) => edge <= (self.addr / BOUNDARY_UNIT + 1) * BOUNDARY_UNIT,
            None => false,
        }
    }

    /// The ends of the memory bases and the expansion ROMs of these cards.
    #[tactic(auto, unfolding(crate::specs::EdgeSearch::nearest))]
    fn see_cards(&mut self, cards: &[CardRegs])
        requires cards { AreCards cards.now }
        ensures nearest { self.new.edge ≡ nearest self.old.addr self.old.edge (flat_map ends_of_card cards.now) }
        ensures same { self.new.addr ≡ self.old.addr }
    {
        for card in cards {
            self.see_card(card);
        }
    }

    /// The ends of the memory bases and of the expansion ROM of this card.
    #[tactic(auto, using(crate::proofs::EdgeSearchLemmas::in_two))]
    fn see_card(&mut self, card: &CardRegs)
        requires card { IsCard card.now.card }
        ensures nearest { self.new.edge ≡ nearest self.old.addr self.old.edge (ends_of_card card.now) }
        ensures same { self.new.addr ≡ self.old.addr }
    {
        self.see_memory_bases(card);
        self.see_rom(card);
    }

    /// The ends of the memory bases of this card.
    fn see_memory_bases(&mut self, card: &CardRegs)
        requires card { IsCard card.now.card }
        ensures nearest { self.new.edge
            ≡ nearest self.old.addr self.old.edge (ends_from card.now.bases 0 card.now.card.bases) }
        ensures same { self.new.addr ≡ self.old.addr }
    {
        self.see_bases(&card.spec.bases, &card.bases);
    }

    /// The ends of these bases that hold these values.
    #[tactic(auto, using(pci_bars::proofs::BaseLemmas::base_within), unfolding(crate::specs::EdgeSearch::nearest))]
    fn see_bases(&mut self, bases: &[BaseSpec], values: &[u32; BASE_COUNT])
        requires bases { All IsBase (map base_of bases.now) }
        requires count { length bases.now ≤ 6 }
        ensures nearest { self.new.edge
            ≡ nearest self.old.addr self.old.edge (ends_from values.now 0 (map base_of bases.now)) }
        ensures same { self.new.addr ≡ self.old.addr }
    {
        for (index, base) in bases.iter().enumerate() {
            self.see_base(*base, values[index]);
        }
    }

    /// The ends of the expansion ROM of this card.
    fn see_rom(&mut self, card: &CardRegs)
        requires card { IsCard card.now.card }
        ensures nearest { self.new.edge
            ≡ nearest self.old.addr self.old.edge (ends_of_rom card.now.card.rom card.now.rom) }
        ensures same { self.new.addr ≡ self.old.addr }
    {
        self.see_rom_at(card.spec.rom, card.rom);
    }

    /// The ends of an expansion ROM with this register.
    #[tactic(auto, unfolding(crate::specs::EdgeSearch::nearest))]
    fn see_rom_at(&mut self, rom: Option<u8>, register: u32)
        requires rom { IsExpansionRom rom }
        ensures nearest { self.new.edge ≡ nearest self.old.addr self.old.edge (ends_of_rom rom register) }
        ensures same { self.new.addr ≡ self.old.addr }
    {
        if let Some(bits) = rom {
            self.see_base(BaseSpec::Memory(bits), register);
        }
    }

    /// The ends of a base that holds this value. One for I/O ports has none.
    #[tactic(auto, unfolding(crate::specs::EdgeSearch::nearest))]
    fn see_base(&mut self, base: BaseSpec, value: u32)
        requires base { IsBase (base_of base) }
        ensures nearest { self.new.edge ≡ nearest self.old.addr self.old.edge (ends_of (base_of base) value) }
        ensures same { self.new.addr ≡ self.old.addr }
    {
        match base {
            BaseSpec::Memory(bits) => self.see_window(value >> bits << bits, 1 << bits),
            BaseSpec::Outside(bits) => self.see_window(value >> bits << bits, 1 << bits),
            BaseSpec::Io(_) => {}
        }
    }

    /// The first address of a window, and the one after its last, where that is an address.
    #[tactic(auto, unfolding(crate::specs::EdgeSearch::nearest))]
    fn see_window(&mut self, first: u32, size: u32)
        ensures nearest { self.new.edge ≡ nearest self.old.addr self.old.edge (first ∷ (first + size) ∷ []) }
        ensures same { self.new.addr ≡ self.old.addr }
    {
        if self.addr < first {
            self.see(first);
            return;
        }
        match first.checked_add(size) {
            Some(end) => self.see(end),
            None => {}
        }
    }

    /// One edge. It counts where it lies above the address.
    #[tactic(auto, unfolding(crate::specs::EdgeSearch::nearest))]
    fn see(&mut self, edge: u32)
        ensures nearer { self.new.edge ≡ nearer self.old.addr self.old.edge edge }
        ensures same { self.new.addr ≡ self.old.addr }
    {
        if edge > self.addr {
            self.edge = Some(self.edge.map_or(edge, |least| least.min(edge)));
        }
    }
}

/// Does nothing: its clause gives proofs what the type says, that each value is a byte.
fn are_bytes(values: &[u8])
    ensures bytes { (k : ℕ) → slice_index values.now k < 2 ^ 8 }
{}
