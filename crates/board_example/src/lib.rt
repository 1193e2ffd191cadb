//! The board and its parts as libraries: a short example of each public type.
//!
//! | example                             | type                 | shows                                           |
//! |-------------------------------------|----------------------|-------------------------------------------------|
//! | `reset_vector`                      | `Board`              | the first fetch of a processor                  |
//! | `serve`, `serve_all`                | `Chipset`            | a monitor's loop over the exits of a guest      |
//! | `replay::read_back`                 | `Replay`             | a byte is written and read back                 |
//! | `serial::looped_back`               | `Uart`               | a byte comes back by loopback                   |
//! | `serial::sent`                      | `SerialBoard`        | a byte is sent on COM1                          |
//! | `transfer::first_sector`            | `BusMaster`          | a sector is moved from the disk to memory       |
//! | `pit::counted_down`                 | `Pit`                | a counter is programmed, runs, and is read back |
//! | `pic::acknowledged`                 | `PicPair`            | a line is raised, its interrupt acknowledged    |
//! | `pic::routed`                       | `Pirq`, `Elcr`       | the interrupt of a card is routed               |
//! | `clock::flags_at`                   | `Cmos`               | the alarm goes off                              |
//! | `disk::sectors`                     | `Ata`                | a disk is identified                            |
//! | `dram::first_of_boot_sector`        | `Dram`               | bytes are loaded, and read as a number          |
//! | `map::shadowed`                     | `FlatMap`            | a shadow window is opened and looked at         |
//! | `published::seen`                   | `Publisher`, `Viewer`| a viewer sees that the map was changed          |
//! | `live::shared`                      | `Live`, `Cpu`        | a caller does an event in its turn              |
#![tactic(auto)]

pub mod clock;
pub mod disk;
pub mod dram;
mod fitted;
pub mod live;
pub mod map;
mod monitor;
pub mod pic;
pub mod pit;
pub mod published;
pub mod replay;
pub mod serial;
pub mod transfer;

ghost use Rattle.std.specs.Prelude.{◌≡◌, ◌≢◌, ◌↔◌, [], false, None, length, Err, IfOk};
ghost use Rattle.board_prelude.specs.{Kind, Width, Event, IsRomSize, IsAnswer};
ghost use Rattle.board_chipset.specs.declared.setup.BoardOpen.{BoardOpen};

use board_base::{Access, Kind, Width};
use board_core::{Board, BoardOpen, Setup};
use board_spec::{Event, Reply};
pub use monitor::{Served, serve, serve_all};
use std::alloc::Global;

/// What a processor fetches first: the four bytes at FFFFFFF0h.
const FIRST_FETCH: Access = Access {
    kind: Kind::Fetch,
    addr: 0xFFFF_FFF0,
    width: Width::Four,
    smm: false,
    value: 0,
};

/// What a processor fetches first from a board with this ROM, 8 MiB and no cards. BadRom exactly where the ROM is not of
/// 64, 128, 256 or 512 KiB; any other refusal is for want of memory.
pub fn reset_vector(alloc: Global, rom: Vec<u8>) -> Result<Reply, BoardOpen>
    ensures answer { IfOk result (IsAnswer (record { mib = 8; cards = []; rom = rom.items; disk = None }) []
        (Event.Memory (record { kind = Kind.Fetch; addr = 0xFFFF_FFF0; width = Width.Four; smm = false; value = 0 }))) }
    ensures bad_rom { (result ≡ Err BoardOpen.BadRom) ↔ ¬ IsRomSize (length rom.items) }
    ensures no_disk { result ≢ Err BoardOpen.BadDisk }
{
    let cards = Vec::new(alloc);
    let setup = Setup {
        mib: 8,
        cards,
        rom,
        disk: None,
    };
    let mut board = Board::open(alloc, setup)?;
    board.reserve(1)?;
    Ok(board.step(0, &Event::Memory(FIRST_FETCH)))
}
