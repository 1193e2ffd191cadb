//! What a card is: its device number, whether it is a VGA adapter, and its bases.
ghost use Rattle.std.specs.Prelude.{◌≡◌, ◌^◌, ◌≤◌, ℕ, Some, option_map, slice_get, slice_index};
ghost use Rattle.board_prelude.specs.{IsBase, IsCard, bits_of_base, base_reset, base_writable, kept_of_base, kept_size};
ghost use Rattle.board_prelude.specs.{memory_size, rom_writable};
ghost use Rattle.pci_bars.specs.Bases.{base_of, base_size, bits_in, of_base};

use arrayvec::ArrayVec;
use std::marker::Model;

/// How many base address registers a card can have.
pub const BASE_COUNT: usize = 6;
/// The base number of the expansion ROM.
pub(crate) const ROM_BASE: u8 = 6;
/// The base number of the VGA window, A0000h to BFFFFh.
pub(crate) const VGA_BASE: u8 = 7;
/// log2 of the size of the VGA window.
pub(crate) const VGA_BITS: u8 = 17;

/// The bit of the expansion ROM's register that selects the ROM (PCI Local Bus 2.1, section 6.2.5.2).
pub(crate) const ROM_ENABLE: u32 = 0;

/// A base address register for memory or for I/O ports, by log2 of its size in bytes or ports: 4 to 24 for memory, and
/// 2 to 8 for ports. `Outside`, 4 to 28, is for memory too, but the card's model keeps its bytes, outside the board:
/// reads of it give ones, and its writes are lost.
#[derive(Clone, Copy, PartialEq, Eq, Debug)]
pub enum BaseSpec {
    Memory(u8),
    Io(u8),
    Outside(u8),
}

impl Default for BaseSpec {
    fn default() -> BaseSpec {
        BaseSpec::Memory(4)
    }
}

impl BaseSpec {
    /// log2 of its size in bytes or ports.
    fn bits(self) -> u8
        requires base { IsBase (base_of self) }
        ensures bits { result ≡ bits_of_base (Some (base_of self)) }
        ensures size { 2 ^ result ≡ base_size (base_of self) }
        ensures most { result ≤ 28 }
    {
        match self {
            BaseSpec::Memory(bits) => bits,
            BaseSpec::Io(bits) => bits,
            BaseSpec::Outside(bits) => bits,
        }
    }

    /// How many addresses or ports it decodes.
    pub(crate) fn size(self) -> u32
        requires base { IsBase (base_of self) }
        ensures size { result ≡ base_size (base_of self) }
    {
        1 << self.bits()
    }

    /// How many bytes the board keeps of it.
    fn kept(self) -> u32
        requires base { IsBase (base_of self) }
        ensures kept { result ≡ kept_of_base (base_of self) }
    {
        match self {
            BaseSpec::Memory(_) | BaseSpec::Io(_) => self.size(),
            BaseSpec::Outside(_) => 0,
        }
    }

    /// How many bytes of memory the board keeps of it: none of a base for ports, and none of an outside one.
    pub fn memory_size(self) -> u32
        requires base { IsBase (base_of self) }
        ensures size { result ≡ memory_size (base_of self) }
    {
        match self {
            BaseSpec::Memory(bits) => 1 << bits,
            BaseSpec::Io(_) | BaseSpec::Outside(_) => 0,
        }
    }

    /// The bits of its register that can be written: those that place it.
    pub(crate) fn writable(self) -> u32
        requires base { IsBase (base_of self) }
        ensures writable { result ≡ base_writable (base_of self) }
    {
        !(self.size() - 1)
    }

    /// Its register after a reset. Bit 0 is 1 for I/O ports.
    pub(crate) fn after_reset(self) -> u32
        ensures reset { result ≡ base_reset (base_of self) }
    {
        match self {
            BaseSpec::Memory(_) | BaseSpec::Outside(_) => 0,
            BaseSpec::Io(_) => 1,
        }
    }
}

/// A PCI card: its device number, 2 to 9, whether it is a VGA adapter, the bases that it has from offset
/// 10h on, and log2 of the size of its expansion ROM, 11 to 24, where it has one.
#[derive(Drop, Debug)]
pub struct CardSpec {
    pub dev: u8,
    pub vga: bool,
    pub bases: ArrayVec<BaseSpec, BASE_COUNT>,
    pub rom: Option<u8>,
}

impl Model for CardSpec {
    ghost use Rattle.std.specs.Prelude.{map};
    ghost use Rattle.board_spec.specs.Setup.{FittedCard};
    ghost use Rattle.pci_bars.specs.Bases.{base_of};

    ghost Value = { FittedCard };

    ghost view = { λ card. record {
      dev = card.dev;
      vga = card.vga;
      bases = map base_of card.bases.items;
      rom = card.rom;
    } };
}

impl Default for CardSpec {
    fn default() -> CardSpec {
        CardSpec {
            dev: 2,
            vga: false,
            bases: ArrayVec::new(),
            rom: None,
        }
    }
}

impl CardSpec {
    /// An equal card. It takes no memory.
    pub fn copy(&self) -> CardSpec
        ensures equal { result ≡ self.now }
    {
        let mut bases = ArrayVec::new();
        bases.try_extend_from_slice(&self.bases).unwrap();
        CardSpec {
            dev: self.dev,
            vga: self.vga,
            bases,
            rom: self.rom,
        }
    }

    /// The base of a number, where the card has it.
    pub(crate) fn base(&self, index: usize) -> Option<BaseSpec>
        ensures base { option_map base_of result ≡ slice_get self.now.bases index }
    {
        self.bases.get(index).copied()
    }

    /// The base address registers after a reset. Where the card has no base, 0.
    pub(crate) fn reset_bases(&self) -> [u32; BASE_COUNT]
        ensures reset { (k : ℕ) → slice_index result k ≡ of_base base_reset self.now.bases k }
    {
        let mut values = [0; BASE_COUNT];
        for (index, base) in self.bases.iter().enumerate() {
            values[index] = base.after_reset();
        }
        values
    }

    /// The bits of a base address register that can be written. None of them where the card has no base.
    #[tactic(auto, using(crate::proofs::BaseLemmas::found_base))]
    pub(crate) fn writable(&self, index: usize) -> u32
        requires card { IsCard self.now }
        ensures writable { result ≡ of_base base_writable self.now.bases index }
    {
        match self.base(index) {
            Some(base) => base.writable(),
            None => 0,
        }
    }

    /// The bits of the register of the expansion ROM that can be written: those that place it, and bit 0. None
    /// of them where the card has no ROM.
    #[tactic(auto, using(std::proofs::lemmas::Bool::Decides::nat_tests))]
    pub(crate) fn rom_writable(&self) -> u32
        requires card { IsCard self.now }
        ensures writable { result ≡ rom_writable self.now.rom }
    {
        match self.rom {
            Some(bits) => rom_mask(bits),
            None => 0,
        }
    }

    /// How many bytes are kept of a base, by its number: 0 to 5, or 7 for the VGA window. 0 where it does not
    /// exist, of an outside base, and of an expansion ROM, whose bytes are fixed.
    #[tactic(auto, using(crate::proofs::BaseLemmas::found_base))]
    pub(crate) fn kept_size(&self, base: u8) -> usize
        requires card { IsCard self.now }
        ensures size { result ≡ kept_size (Some self.now) base }
    {
        if base == VGA_BASE {
            return if self.vga { 1 << VGA_BITS } else { 0 };
        }
        match self.base(usize::from(base)) {
            Some(spec) => spec.kept() as usize,
            None => 0,
        }
    }

    /// log2 of the size of a base in bytes or ports. 0 where it does not exist. Base 6 is the expansion ROM, and
    /// base 7 the VGA window.
    #[tactic(auto, using(crate::proofs::BaseLemmas::found_base))]
    pub(crate) fn window_bits(&self, base: u8) -> u8
        requires card { IsCard self.now }
        ensures bits { result ≡ bits_in (Some self.now) base }
        ensures most { result ≤ 28 }
    {
        if base == VGA_BASE {
            return VGA_BITS;
        }
        if base == ROM_BASE {
            return self.rom.unwrap_or(0);
        }
        match self.base(usize::from(base)) {
            Some(spec) => spec.bits(),
            None => 0,
        }
    }
}

/// The writable bits of the register of an expansion ROM of 2^bits bytes.
#[tactic(auto, using(crate::proofs::BaseLemmas::rom_size))]
fn rom_mask(bits: u8) -> u32
    requires least { 11 ≤ bits }
    requires most { bits ≤ 24 }
    ensures writable { result ≡ rom_writable (Some bits) }
{
    !((1 << bits) - (1 << (ROM_ENABLE + 1)))
}
