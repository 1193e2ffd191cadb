//! Accesses to memory: what each reaches, and its bytes read or written there.
ghost use Rattle.std.specs.Prelude.{◌≡◌, ℕ, true, List, None, length};
ghost use Rattle.board_prelude.specs.{Entry, Setup, IsRomSize, is_write, memory_put, target_at, value_at, Bytes};
ghost use Rattle.pci_bars.specs.Cards.{AreCards, AreFitted, cards_of};
ghost use Rattle.addr_decode.specs.MapRegs.{StandsFor, map_bytes};
ghost use Rattle.addr_decode.specs.Memory.{plain_row};
ghost use Rattle.board_stores.specs.Puts.{HasStores, ArePut};
ghost use Rattle.board_stores.specs.Ready.{IsReady};
ghost use Rattle.board_stores.specs.Targets.{part_in};
ghost use Rattle.board_stores.specs.Values.{value_with};

use crate::stores::Stores;
use addr_decode::{MapRegs, decode, decode_elsewhere};
use board_base::{Access, Area, Target};
use board_spec::Part;
use board_spec::wide::read_at;
use pci_bars::offset_in;

/// What an access to memory reaches, and what denies it: None where something answers, unless it writes to the ROM.
#[inline(always)]
pub fn decoded(map: &MapRegs, rom: &[u8], access: &Access) -> Part
    requires cards { AreFitted map.now.cards.items }
    requires rom { IsRomSize (length rom.now) }
    ensures decoded { (setup : Setup) (bytes : Bytes) → StandsFor setup bytes (map_bytes map.now)
        → setup.rom ≡ rom.now → result ≡ part_in setup bytes access.now }
{
    let (area, denial) = decode(map, access.addr, access.kind, access.smm);
    Part {
        target: target_in(map, rom, area, access.addr),
        denial,
    }
}

/// What an access to memory reaches as `decoded` says it, at an address at which `plain_row` finds none.
#[inline(always)]
pub fn decoded_elsewhere(map: &MapRegs, rom: &[u8], access: &Access) -> Part
    requires cards { AreFitted map.now.cards.items }
    requires rom { IsRomSize (length rom.now) }
    requires elsewhere { (setup : Setup) (bytes : Bytes) → StandsFor setup bytes (map_bytes map.now)
        → plain_row bytes access.now.addr ≡ None }
    ensures decoded { (setup : Setup) (bytes : Bytes) → StandsFor setup bytes (map_bytes map.now)
        → setup.rom ≡ rom.now → result ≡ part_in setup bytes access.now }
{
    let (area, denial) = decode_elsewhere(map, access.addr, access.kind, access.smm);
    Part {
        target: target_in(map, rom, area, access.addr),
        denial,
    }
}

/// What an access to an area reaches. Its place in the ROM or in a card is the address modulo the size of that.
pub fn target_in(map: &MapRegs, rom: &[u8], area: Area, addr: u32) -> Target
    requires cards { AreCards map.now.cards.items }
    requires rom { IsRomSize (length rom.now) }
    ensures target { (setup : Setup) → setup.cards ≡ cards_of map.now.cards.items → setup.rom ≡ rom.now
        → result ≡ target_at setup area addr }
{
    match area {
        Area::Dram(row) => Target::Dram(row),
        Area::Shadow(row) => Target::Shadow(row),
        Area::Smram => Target::Smram,
        Area::Rom => Target::Rom(addr % rom.len() as u32),
        Area::Card(dev, base) => Target::Card(dev, base, offset_in(&map.cards, dev, base, addr)),
        Area::Abort => Target::Abort,
    }
}

/// The value that a read gives, by what it reaches.
#[tactic(auto, using(std::proofs::lemmas::Bool::Decides::nat_tests))]
#[inline(always)]
pub fn read(stores: &Stores, rom: &[u8], access: &Access, answer: &Part) -> u32
    requires ready { IsReady rom.now stores.now.contents access.now answer.now }
    ensures stands { result ≡ value_with stores.now rom.now answer.now.target access.now.addr access.now.width }
    ensures value { (setup : Setup) (history : List Entry) → HasStores setup history stores.now → setup.rom ≡ rom.now
        → result ≡ value_at setup history answer.now.target access.now.addr access.now.width }
{
    match answer.target {
        Target::Rom(off) => read_at(rom, off as usize, access.width),
        target => stores.read(target, access.addr, access.width),
    }
}

/// Does a write, by what it reaches. A write to the ROM is lost.
#[inline(always)]
pub fn write(stores: &mut Stores, access: &Access, answer: &Part)
    requires ready { (rom : List ℕ) × IsReady rom stores.old.contents access.now answer.now }
    requires writes { is_write access.now.kind ≡ true }
    ensures put { ArePut (memory_put access.now answer.now.target) stores.old stores.new }
{
    match answer.target {
        Target::Rom(_) => {}
        target => stores.write(target, access.addr, access.width, access.value),
    }
}
