//! Ranges of memory addresses by the names of the datasheets (82441FX, 82371SB).

ghost use Rattle.std.specs.Prelude.{◌≡◌};
ghost use Rattle.board_spec.specs.Bits.{is_within};

/// The first and the last address of a range.
#[derive(Clone, Copy, PartialEq, Eq, Debug)]
pub struct AddressRange {
    pub first: u32,
    pub last: u32,
}

impl AddressRange {
    /// Whether an address lies in the range.
    pub fn contains(self, addr: u32) -> bool
        ensures inside { result ≡ is_within self.first self.last addr }
    {
        self.first <= addr && addr <= self.last
    }
}

/// Where SMRAM can lie, and the window of a VGA card.
pub const SMRAM_RANGE: AddressRange = AddressRange {
    first: 0xA_0000,
    last: 0xB_FFFF,
};
/// The windows of PAM1 to PAM6: the ISA expansion area and the extended BIOS.
pub const EXPANSION_RANGE: AddressRange = AddressRange {
    first: 0xC_0000,
    last: 0xE_FFFF,
};
/// The system BIOS, which is the window of PAM0.
pub const SYSTEM_BIOS: AddressRange = AddressRange {
    first: 0xF_0000,
    last: 0xF_FFFF,
};
/// All shadow windows of PAM.
pub const SHADOW_RANGE: AddressRange = AddressRange {
    first: EXPANSION_RANGE.first,
    last: SYSTEM_BIOS.last,
};

/// The hole of FDHC at 512 KiB.
pub const HOLE_AT_512_KIB: AddressRange = AddressRange {
    first: 0x8_0000,
    last: 0x9_FFFF,
};
/// The hole of FDHC at 15 MiB.
pub const HOLE_AT_15_MIB: AddressRange = AddressRange {
    first: 0xF0_0000,
    last: 0xFF_FFFF,
};

/// The BIOS ROM under 4 GiB, which is always selected.
pub const HIGH_BIOS: AddressRange = AddressRange {
    first: 0xFFFF_0000,
    last: 0xFFFF_FFFF,
};
/// The first range that XBCS bit 6 adds.
pub const LOWER_BIOS: AddressRange = AddressRange {
    first: 0xE_0000,
    last: 0xE_FFFF,
};
/// The second range that XBCS bit 6 adds.
pub const LOWER_HIGH_BIOS: AddressRange = AddressRange {
    first: 0xFFFE_0000,
    last: 0xFFFE_FFFF,
};
/// The range that XBCS bit 7 adds.
pub const EXTENDED_BIOS: AddressRange = AddressRange {
    first: 0xFFF8_0000,
    last: 0xFFFD_FFFF,
};
/// All that XBCS can take from the ROM at the top of the address space.
pub const SELECTABLE_BIOS: AddressRange = AddressRange {
    first: EXTENDED_BIOS.first,
    last: LOWER_HIGH_BIOS.last,
};

/// The largest top of DRAM that the boundary registers can set.
pub const LARGEST_TOP: u32 = 0x7F80_0000;
/// How many bytes a boundary register counts.
pub const BOUNDARY_UNIT: u32 = 0x80_0000;
