//! Reads and writes of memory, by what the bus master reaches.

ghost use Rattle.std.specs.Prelude.{◌≡◌, ◌%◌, ◌<◌, ◌≤◌, length};
ghost use Rattle.board_prelude.specs.{bytes_of, largest_of, Kind, sectors_of, word_at, Setup, installed, Bytes, Cell};
ghost use Rattle.ata_pio.specs.Words.{is_readable, with_word};
ghost use Rattle.pci_bars.specs.Contents.{HaveSizes};
ghost use Rattle.addr_decode.specs.Master.{master_area};
ghost use Rattle.board_stores.specs.Targets.{IsHeld};
ghost use Rattle.bus_master.specs.Cells.{value_in, put_in};
ghost use Rattle.bus_master.specs.Transfer.{master_value, medium_of, with_medium};
ghost use Rattle.board_chipset.specs.Masters.{master_target};
ghost use Rattle.board_chipset.specs.Stores.{IsStoreOf};
ghost use Rattle.bus_master.specs.Stores.{cells_of, HasSameShape, IsCell, IsReached};

use ata_pio::Ata;
use board_base::{Area, Target, Width};
use board_chipset::Store;
use board_spec::wide::read_at;
use board_stores::target_in;

/// The value of a read by the bus master that reaches this area.
pub(crate) fn read(store: &Store, area: Area, addr: u32, width: Width) -> u32
    requires reached { IsReached store.now area addr Kind.Read }
    requires aligned { addr % bytes_of width ≡ 0 }
    ensures value { (setup : Setup) (bytes : Bytes) → IsStoreOf setup bytes store.now
        → area ≡ master_area setup bytes addr Kind.Read
        → result ≡ master_value setup bytes (cells_of store.now) addr width }
{
    let target = target_in(&store.regs, &store.rom, area, addr);
    read_from(store, target, addr, width)
}

/// The value of a read that reaches this target.
fn read_from(store: &Store, target: Target, addr: u32, width: Width) -> u32
    requires held { IsHeld store.now.rom.items store.now.contents target width }
    requires aligned { addr % bytes_of width ≡ 0 }
    ensures value { (setup : Setup) → store.now.rom.items ≡ setup.rom
        → result ≡ value_in setup (cells_of store.now) target addr width }
{
    match target {
        Target::Dram(_) | Target::Shadow(_) | Target::Smram => store.dram.read(addr, width),
        Target::Rom(off) => read_at(&store.rom, off as usize, width),
        Target::Card(dev, base, off) => store.contents.read(dev, base, off, width),
        _ => width.largest(),
    }
}

/// Writes a value that fits the width where the bus master reaches this area. A write to the ROM or to nobody is lost.
pub(crate) fn write(store: &mut Store, area: Area, addr: u32, width: Width, value: u32)
    requires reached { IsReached store.old area addr Kind.Write }
    requires aligned { addr % bytes_of width ≡ 0 }
    requires fits { value ≤ largest_of width }
    ensures put { (setup : Setup) (bytes : Bytes) → IsStoreOf setup bytes store.old
        → area ≡ master_area setup bytes addr Kind.Write → (cell : Cell) → IsCell cell → cells_of store.new cell
        ≡ put_in setup (master_target setup bytes Kind.Write addr) addr width value (cells_of store.old) cell }
    ensures shape { HasSameShape store.old store.new }
    ensures disk { store.new.disk ≡ store.old.disk }
{
    let target = target_in(&store.regs, &store.rom, area, addr);
    write_to(store, target, addr, width, value);
}

/// Writes a value that fits the width where this target keeps it.
fn write_to(store: &mut Store, target: Target, addr: u32, width: Width, value: u32)
    requires held { IsHeld store.old.rom.items store.old.contents target width }
    requires aligned { addr % bytes_of width ≡ 0 }
    requires fits { value ≤ largest_of width }
    ensures put { (setup : Setup) → length store.old.dram ≡ installed setup → HaveSizes setup store.old.contents
        → (cell : Cell) → IsCell cell
        → cells_of store.new cell ≡ put_in setup target addr width value (cells_of store.old) cell }
    ensures shape { HasSameShape store.old store.new }
    ensures disk { store.new.disk ≡ store.old.disk }
{
    match target {
        Target::Dram(_) | Target::Shadow(_) | Target::Smram => {
            store.dram.write(addr, width, value);
        }
        Target::Card(dev, base, off) => store.contents.write(dev, base, off, width, value),
        _ => {}
    }
}

/// Whether a sector exists and is not bad.
pub(crate) fn is_readable(disk: &Option<Ata>, sector: u32) -> bool
    ensures readable { result ≡ is_readable (medium_of disk.now) sector }
{
    match disk {
        Some(disk) => disk.readable(sector),
        None => false,
    }
}

/// A word of a sector that exists.
pub(crate) fn word(disk: &Option<Ata>, sector: u32, i: u32) -> u16
    requires sector { sector < sectors_of (medium_of disk.now) }
    requires word { i < 256 }
    ensures word { result ≡ word_at (medium_of disk.now) sector i }
{
    match disk {
        Some(disk) => disk.word(sector, i),
        None => unreachable!(),
    }
}

/// Sets a word of a sector that exists.
pub(crate) fn set_word(disk: &mut Option<Ata>, sector: u32, i: u32, word: u16)
    requires sector { sector < sectors_of (medium_of disk.old) }
    requires word { i < 256 }
    ensures set { disk.new ≡ with_medium disk.old (with_word (medium_of disk.old) sector i word) }
{
    match disk {
        Some(disk) => disk.set_word(sector, i, word),
        None => unreachable!(),
    }
}
