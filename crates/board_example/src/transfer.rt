//! The bus master of the IDE function: a sector is moved to memory.

ghost use Rattle.std.specs.Prelude.{◌≡◌, true};
ghost use Rattle.bus_master.specs.Registers.{is_started};

use crate::fitted::fitted;
use board_base::{Access, Kind, Width};
use board_chipset::{BoardOpen, Chipset};
use board_spec::Event;
use bus_master::{BusMaster, COMMAND, Done, STATUS, TABLE};
use std::alloc::Global;

/// Where the table of descriptors lies, and the region of memory that its only descriptor names.
const TABLE_ADDRESS: u32 = 0x1000;

const REGION: u32 = 0x2000;

/// A processor's writes of the descriptor: where its region begins; and its size, with the bit of the last descriptor.
const WRITE_REGION: Access = Access {
    kind: Kind::Write,
    addr: TABLE_ADDRESS,
    width: Width::Four,
    smm: false,
    value: REGION,
};

const WRITE_SIZE: Access = Access {
    kind: Kind::Write,
    addr: TABLE_ADDRESS + 4,
    width: Width::Four,
    smm: false,
    value: 0x8000_0200,
};

/// The command: start, from the disk to memory.
const READ_DISK: u8 = 0x09;

/// How a transfer ended, the status of the bus master after it, and the first doubleword that it moved.
#[derive(Clone, Copy, PartialEq, Eq, Debug)]
pub struct Moved {
    pub done: Done,
    pub status: u8,
    pub first: u32,
}

/// A bus master that was given the table, and started.
#[tactic(auto, unfolding(bus_master::specs::Registers::master_written))]
fn started() -> BusMaster
    ensures started { is_started result ≡ true }
{
    let mut master = BusMaster::new();
    let [_, second, ..] = TABLE_ADDRESS.to_le_bytes();
    master.port_write(TABLE + 1, second);
    master.port_write(COMMAND, READ_DISK);
    master
}

/// Moves the first sector of a disk to 2000h of a board.
pub fn first_sector(alloc: Global, rom: Vec<u8>, disk: Vec<u8>) -> Result<Moved, BoardOpen> {
    let mut chipset = Chipset::open(alloc, fitted(alloc, rom, Some(disk)))?;
    chipset.step(&Event::Memory(WRITE_REGION));
    chipset.step(&Event::Memory(WRITE_SIZE));
    let mut store = chipset.into_store();
    let mut master = started();
    let done = master.transfer(&mut store, 0, 1);
    Ok(Moved {
        done,
        status: master.port_read(STATUS),
        first: store.dram.read(REGION, Width::Four),
    })
}
