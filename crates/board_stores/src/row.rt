//! A wide access whose bytes all lie in one row of ordinary DRAM. Its cycles are done at once: what they read, and what
//! they leave, is what they do one after another.
ghost use Rattle.std.specs.Prelude.{◌≡◌, ◌≤◌, ◌+◌, ◌%◌, ◌==◌, ℕ, true, if◌then◌else◌, List, IfSome, length, map};
ghost use Rattle.board_prelude.specs.{Bytes, Entry, Setup, IsWideAccess, is_write, joined, memory_target, part_answer};
ghost use Rattle.board_prelude.specs.{parts_list, parts_of, parts_put, value_at, wide};
ghost use Rattle.addr_decode.specs.MapRegs.{StandsFor, map_bytes};
ghost use Rattle.dram_store.specs.Dram.{dram_at, IsDramOf};
ghost use Rattle.board_stores.specs.Puts.{ArePut};
ghost use Rattle.board_stores.specs.Rows.{in_row, low_first};
ghost use Rattle.board_stores.specs.Targets.{part_in};

use crate::stores::Stores;
use addr_decode::{MapRegs, plain_row};
use board_base::{Target, WideAccess, Width};
use board_spec::wide::read_at;
use board_spec::{Part, Parts};
use dram_store::Dram;

/// How many bytes are kept together.
const MIB: usize = 0x10_0000;

/// The row of ordinary DRAM that has all bytes of a wide access. None where no row has them all.
#[inline(always)]
pub fn row_of_all(regs: &MapRegs, access: &WideAccess) -> Option<u8>
    requires wide { IsWideAccess access.now }
    ensures answers { IfSome result (λ row. (setup : Setup) (bytes : Bytes) → StandsFor setup bytes (map_bytes regs.now)
        → map (part_in setup bytes) (parts_of access.now) ≡ in_row row (parts_of access.now)) }
{
    let first = plain_row(regs, access.addr);
    let last = plain_row(regs, access.addr + (u32::from(access.bytes) - 1));
    if first == last { first } else { None }
}

/// The answers to the cycles of a wide access that a row of ordinary DRAM has.
pub fn parts_in_row(row: u8, access: &WideAccess) -> Parts
    requires wide { IsWideAccess access.now }
    ensures answers { parts_list result ≡ in_row row (parts_of access.now) }
{
    let part = Part {
        target: Target::Dram(row),
        denial: None,
    };
    let count = count_of(access);
    if count == 2 {
        return Parts::Two(part, part);
    }
    if count == 3 {
        return Parts::Three(part, part, part);
    }
    Parts::Four(part, part, part, part)
}

/// How many cycles a wide access has.
fn count_of(access: &WideAccess) -> u8
    requires wide { IsWideAccess access.now }
    ensures count { result ≡ length (parts_of access.now) }
{
    if access.bytes == 2 {
        return 2;
    }
    let extra = extra_cycles(access.addr);
    if access.bytes == 4 {
        1 + extra
    } else {
        2 + extra
    }
}

/// The cycles of four bytes that are not aligned, beyond the first.
fn extra_cycles(addr: u32) -> u8
    ensures count { result ≡ (if addr % 4 == 0 then 0 else if addr % 2 == 0 then 1 else 2) }
{
    if addr % 4 == 0 {
        return 0;
    }
    if addr % 2 == 0 { 1 } else { 2 }
}

/// The value of a wide access that reads ordinary DRAM.
#[inline(always)]
pub fn read_row(dram: &Dram, access: &WideAccess) -> u64
    requires wide { IsWideAccess access.now }
    ensures value { (setup : Setup) (history : List Entry) (row : ℕ) → IsDramOf setup history dram.now
        → map (part_answer setup history) (parts_of access.now) ≡ in_row row (parts_of access.now)
        → result ≡ joined (λ part. value_at setup history (memory_target setup history part) part.addr part.width)
        (parts_of access.now) }
{
    if access.bytes == 2 {
        return u64::from(read_anywhere(dram, access.addr, Width::Two));
    }
    if access.bytes == 4 {
        return u64::from(read_anywhere(dram, access.addr, Width::Four));
    }
    read_eight(dram, access.addr)
}

/// Reads the eight bytes from an address on, the low byte first.
fn read_eight(dram: &Dram, addr: u32) -> u64
    requires ends { addr + 8 ≤ 0x1_0000_0000 }
    ensures value { result ≡ low_first (dram_at dram.now) addr 8 }
{
    let low = u64::from(read_anywhere(dram, addr, Width::Four));
    let high = u64::from(read_anywhere(dram, addr + 4, Width::Four));
    low + (high << 32)
}

/// Reads the bytes from an address on, aligned or not, the low byte first.
fn read_anywhere(dram: &Dram, addr: u32, width: Width) -> u32
    ensures value { result ≡ wide (dram_at dram.now) addr width }
{
    let at = addr as usize % MIB;
    match dram.kept(addr as usize / MIB) {
        Some(kept) => {
            if at + width.bytes() as usize <= kept.len() {
                return read_at(kept, at, width);
            }
            read_copied(dram, addr, width)
        }
        None => read_copied(dram, addr, width),
    }
}

/// The same where the bytes are not all kept together.
#[inline(never)]
fn read_copied(dram: &Dram, addr: u32, width: Width) -> u32
    ensures value { result ≡ wide (dram_at dram.now) addr width }
{
    let mut bytes = [0; 4];
    dram.read_bytes(addr, &mut bytes);
    read_at(&bytes, 0, width)
}

/// Does a wide access that writes to ordinary DRAM.
#[inline(always)]
pub fn write_row(stores: &mut Stores, access: &WideAccess)
    requires wide { IsWideAccess access.now }
    requires writes { is_write access.now.kind ≡ true }
    ensures put { (row : ℕ) → ArePut (parts_put (parts_of access.now) (in_row row (parts_of access.now)))
        stores.old stores.new }
{
    let bytes = access.value.to_le_bytes();
    let count = access.bytes as usize;
    stores.dram.write_bytes(access.addr, &bytes[..count]);
}
