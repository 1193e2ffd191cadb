//! Function 00.0, the 82441FX host bridge. Its PAM registers and its SMRAM register stand elsewhere.
//!
//! | offset | register        | reset        | writable | effect                             |
//! |--------|-----------------|--------------|----------|------------------------------------|
//! | 00-03  | vendor, device  | 8086h, 1237h | 00       |                                    |
//! | 04-07  | command, status | 0006h, 0280h | 00       |                                    |
//! | 08-0B  | revision, class | 00h, 060000h | 00       |                                    |
//! | 60-67  | DRB0 to DRB7    | 01h each     | FF each  | where a row of DRAM ends, in 8 MiB |
//! | 68     | FDHC            | 00h          | C0       | the hole in DRAM, by bits 7 and 6  |
//! | others | reserved        | 00h          | 00       |                                    |
ghost use Rattle.std.specs.Prelude.{◌≡◌, ◌≤◌, ◌<◌, ◌↔◌, IsNone, IfSome};
ghost use Rattle.board_prelude.specs.{One, Store, Setup, is_bit, largest_top, reset_byte, changed_byte, Bytes};
ghost use Rattle.board_prelude.specs.{top_of as top_by, row_of as row_by, hole_of as hole_by, bridge, fdhc};
ghost use Rattle.host_bridge.specs.Pmc.{IsPmcOffset, IsFixedOffset, IsPmcOf};

use crate::hole::{fdhc_after, hole_of};
use crate::rows::{row_of, top_of};
use board_spec::offset::{DRB0, DRB7, FDHC};
use std::marker::Model;

/// What each boundary register holds after a reset: 8 MiB, all of them in row 0.
pub const DRB_RESET: u8 = 0x01;
/// What FDHC holds after a reset: no hole.
pub const FDHC_RESET: u8 = 0x00;

/// The first bytes of the configuration space. Nothing changes them.
const HEADER: [u8; 12] = [
    0x86, 0x80, 0x37, 0x12, // vendor 8086h, device 1237h
    0x06, 0x00, 0x80, 0x02, // command, status
    0x00, 0x00, 0x00, 0x06, // revision 00h, class 060000h
];

/// The registers of the host bridge that can be written, but PAM and SMRAM. Contracts see their bytes.
#[derive(Drop)]
pub struct Pmc {
    drb: [u8; 8],
    fdhc: u8,
}

impl Model for Pmc {
    ghost use Rattle.host_bridge.specs.Pmc.{PmcBytes};

    ghost Value = { PmcBytes };

    ghost view = { λ pmc. record { drb = pmc.drb; fdhc = pmc.fdhc } };
}

impl Pmc {
    /// The registers after a reset: 8 MiB of DRAM in row 0, and no hole.
    #[tactic(auto, using(crate::proofs::PmcLemmas::pmc_at_reset), unfolding(board_spec::specs::RegisterTable::host_bridge, board_spec::specs::RegisterTable::reset_byte))]
    pub fn new() -> Pmc
        ensures reset { (setup : Setup) → IsPmcOf (reset_byte setup) result }
    {
        Pmc {
            drb: [DRB_RESET; 8],
            fdhc: FDHC_RESET,
        }
    }

    /// The register at an offset that is none of PAM and SMRAM.
    pub fn read(&self, off: u8) -> u8
        requires offset { IsPmcOffset off }
        ensures byte { (bytes : Bytes) → IsPmcOf bytes self.now → result ≡ bytes (bridge off) }
    {
        match off {
            DRB0..=DRB7 => self.drb[usize::from(off - DRB0)],
            FDHC => self.fdhc,
            _ => fixed_byte(off),
        }
    }

    /// Writes the register at an offset that is none of PAM and SMRAM. Read-only bits stay as they are.
    pub fn write(&mut self, off: u8, byte: u8)
        requires offset { IsPmcOffset off }
        ensures written { (setup : Setup) (bytes : Bytes) → IsPmcOf bytes self.old
            → IsPmcOf (λ reg. changed_byte setup (Store (bridge off) One byte) reg (bytes reg)) self.new }
    {
        match off {
            DRB0..=DRB7 => self.drb[usize::from(off - DRB0)] = byte,
            FDHC => self.fdhc = fdhc_after(self.fdhc, byte),
            _ => {}
        }
    }

    /// Gives each register its value after a reset.
    pub fn reset(&mut self)
        ensures reset { (setup : Setup) → IsPmcOf (reset_byte setup) self.new }
    {
        *self = Pmc::new();
    }

    /// The top of DRAM, where its last row ends. It is a multiple of 8 MiB, and 0 where there is no DRAM.
    pub fn top(&self) -> u32
        ensures top { (bytes : Bytes) → IsPmcOf bytes self.now → result ≡ top_by bytes }
        ensures largest { result ≤ largest_top }
    {
        top_of(&self.drb)
    }

    /// The row of DRAM of an address: the first that ends above it. None at or above the top of DRAM.
    pub fn row_of(&self, addr: u32) -> Option<u8>
        ensures row { (bytes : Bytes) → IsPmcOf bytes self.now → result ≡ row_by bytes addr }
        ensures none { (bytes : Bytes) → IsPmcOf bytes self.now → IsNone result ↔ (top_by bytes ≤ addr) }
        ensures within { IfSome result (λ row. row < 8) }
    {
        row_of(&self.drb, addr)
    }

    /// The first and the last address of the hole in DRAM. None where bits 7 and 6 of FDHC are 00 or 11.
    pub fn hole(&self) -> Option<(u32, u32)>
        ensures hole { (bytes : Bytes) → IsPmcOf bytes self.now → result ≡ hole_by (bytes fdhc) }
        ensures none { IsNone result ↔ (is_bit self.now.fdhc 7 ≡ is_bit self.now.fdhc 6) }
    {
        hole_of(self.fdhc)
    }
}

/// The register at an offset where nothing changes it: the header, and 0 where nothing stands.
#[tactic(auto, using(crate::proofs::TableLemmas::fixed_registers))]
pub fn fixed_byte(off: u8) -> u8
    requires offset { IsFixedOffset off }
    ensures byte { (setup : Setup) → result ≡ reset_byte setup (bridge off) }
{
    let at = usize::from(off);
    if at < HEADER.len() { HEADER[at] } else { 0 }
}
