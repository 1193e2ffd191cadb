//! Bus masters, of the calls that say and do their accesses.

ghost use Rattle.std.specs.Prelude.{ℕ, ◌≡◌, ◌<◌, ◌≤◌, ◌^◌, true};
ghost use Rattle.board_prelude.specs.{Setup, Bytes, is_smram_range};
ghost use Rattle.addr_decode.specs.MapRegs.{StandsFor, map_bytes};
ghost use Rattle.pci_bars.specs.Cards.{AreFitted};
ghost use Rattle.dram_store.specs.Dram.{dram_at};
ghost use Rattle.board_chipset.specs.Stores.{IsOfBoard, IsStoreOf};
ghost use Rattle.bus_master.specs.Registers.{is_started};
ghost use Rattle.bus_master.specs.Stores.{DiffersInSmramAlone, transfer_of};
ghost use Rattle.bus_master.specs.Transfer.{done_of, with_medium};
ghost use Rattle.promises.specs.Images.{MissesSmram, PieceMissesSmram};

use addr_decode::MapRegs;
use ata_pio::Ata;
use board_base::Kind;
use board_chipset::{Chipset, Store};
use board_spec::Part;
use bus_master::{BusMaster, Done, Piece, Transfer};

/// What an access of a bus master would reach, on a board with a history or without: never SMRAM.
pub fn reach_beside_smram(chipset: &Chipset, addr: u32, kind: Kind) -> Part
    ensures beside { MissesSmram result.target addr }
{
    chipset.decode_master(addr, kind)
}

/// A whole transfer, on a store of a board with a history or without: no byte of DRAM at A0000h to BFFFFh changes, and
/// with other bytes there it ends the same way and leaves the same on the disk.
pub fn transfer_beside_smram(
    master: &mut BusMaster,
    store: &mut Store,
    lba: u32,
    count: u32,
) -> Done
    requires started { is_started master.old ≡ true }
    requires some { 1 ≤ count }
    requires most { count ≤ 256 }
    requires lba { lba < 2 ^ 28 }
    requires sound { IsOfBoard store.old }
    ensures kept { (addr : ℕ) → is_smram_range addr ≡ true →
        dram_at store.new.dram addr ≡ dram_at store.old.dram addr }
    ensures blind { (setup : Setup) (bytes : Bytes) (other : Store) → IsStoreOf setup bytes store.old →
        DiffersInSmramAlone store.old other →
        (result ≡ done_of (transfer_of setup bytes master.old lba count other))
        × (store.new.disk ≡ with_medium other.disk (transfer_of setup bytes master.old lba count other).medium) }
{
    master.transfer(store, lba, count)
}

/// The next piece of a transfer over a memory that the caller keeps: no byte of a descriptor's halves or of its words is
/// SMRAM, or lies in DRAM at A0000h to BFFFFh.
pub fn piece_beside_smram(transfer: &Transfer, regs: &MapRegs, disk: Option<&Ata>) -> Piece
    requires cards { AreFitted regs.now.cards.items }
    ensures beside { (setup : Setup) (bytes : Bytes) → StandsFor setup bytes (map_bytes regs.now) →
        PieceMissesSmram setup bytes result }
{
    transfer.next(regs, disk)
}
