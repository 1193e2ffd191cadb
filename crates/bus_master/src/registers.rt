//! The registers of the bus master.

ghost use Rattle.std.specs.Prelude.{◌≡◌, ◌<◌, ◌≤◌, ◌-◌, ◌*◌};
ghost use Rattle.board_spec.specs.Bits.{bit};
ghost use Rattle.bus_master.specs.Registers.{command_bits, command_written, is_started, master_at_reset};
ghost use Rattle.bus_master.specs.Registers.{master_written, register_of, status_after, table_after};

use board_spec::bits::{is_set, merged};
use std::marker::Model;

/// The offset of the command register.
pub const COMMAND: u8 = 0;
/// The offset of the status register.
pub const STATUS: u8 = 2;
/// The offset of the low byte of the table pointer.
pub const TABLE: u8 = 4;
/// The offset of its high byte.
const TABLE_END: u8 = 7;

/// The bits of the command that are kept: start, and the direction.
const COMMAND_BITS: u8 = 0x09;
/// The bit of the command that starts a transfer.
pub const START: u32 = 0;
/// The bit of the command that gives the direction, 1 from the disk to memory.
pub const DIRECTION: u32 = 3;

/// The mask of the status bit that says that a transfer is under way.
const ACTIVE: u8 = 0x01;
/// The bit of the status that says that a transfer went wrong.
const ERROR: u32 = 1;
/// The bit of the status that says that the disk has interrupted.
const INTERRUPT: u32 = 2;

/// A channel of the bus master IDE function (82371SB, 2.7). Contracts see its command, its status and its table
/// pointer. `board_example::transfer` has an example.
#[derive(Drop)]
pub struct BusMaster {
    pub(crate) command: u8,
    pub(crate) status: u8,
    pub(crate) table: u32,
}

impl Model for BusMaster {
    ghost use Rattle.bus_master.specs.Registers.{Master, IsAligned};

    ghost Value = { Master };

    ghost view = { λ b. record { command = b.command; status = b.status; table = b.table } };

    ghost invariant = { λ b. IsAligned (record { command = b.command; status = b.status; table = b.table }) };
}

impl BusMaster {
    /// All registers at 0.
    pub fn new() -> BusMaster
        ensures reset { result ≡ master_at_reset }
    {
        BusMaster {
            command: 0,
            status: 0,
            table: 0,
        }
    }

    /// Whether start of the command is 1, so that a transfer can begin.
    pub fn is_started(&self) -> bool
        ensures started { result ≡ is_started self.now }
    {
        is_set(self.command.into(), START)
    }

    /// Reads the byte at an offset, 0 to 7: the command at 0, the status at 2, the table pointer at 4 to 7, its low
    /// byte first. 1 and 3 read 0.
    #[tactic(auto, unfolding(crate::specs::Registers::register_of))]
    pub fn port_read(&self, off: u8) -> u8
        requires off { off < 8 }
        ensures value { result ≡ register_of self.now off }
    {
        match off {
            COMMAND => self.command,
            STATUS => self.status,
            TABLE..=TABLE_END => self.table.to_le_bytes()[usize::from(off - TABLE)],
            _ => 0,
        }
    }

    /// Writes the byte at an offset, 0 to 7. The command keeps start and direction, and active of the status takes the
    /// start bit. A 1 clears error and interrupt of the status, whose bits 6 and 5 are kept as written. The table
    /// pointer keeps all bits but 1 and 0. 1 and 3 ignore the write.
    #[tactic(auto, unfolding(crate::specs::Registers::master_written))]
    pub fn port_write(&mut self, off: u8, byte: u8)
        requires off { off < 8 }
        ensures written { self.new ≡ master_written self.old off byte }
    {
        match off {
            COMMAND => self.write_command(byte),
            STATUS => self.status = status_after(self.status, byte),
            TABLE..=TABLE_END => {
                self.table = table_after(self.table, u32::from(off - TABLE), byte);
            }
            _ => {}
        }
    }

    /// Writes the command.
    fn write_command(&mut self, byte: u8)
        ensures written { self.new ≡ command_written self.old byte }
    {
        self.command = byte & COMMAND_BITS;
        self.status = merged(ACTIVE, self.status, byte);
    }
}

/// The status after a byte is written to it.
fn status_after(old: u8, written: u8) -> u8
    ensures after { result ≡ status_after old written }
{
    let (old, written) = (u32::from(old), u32::from(written));
    0x40 * flag(written, 6)
        + 0x20 * flag(written, 5)
        + 4 * uncleared(old, written, INTERRUPT)
        + 2 * uncleared(old, written, ERROR)
        + flag(old, 0)
}

/// Bit `k` of a value, 0 or 1.
fn flag(value: u32, k: u32) -> u8
    requires bit { k < 32 }
    ensures flag { result ≡ bit value k }
    ensures small { result ≤ 1 }
{
    u8::from(is_set(value, k))
}

/// Bit `k` of the status, which a written 1 clears.
fn uncleared(old: u32, written: u32, k: u32) -> u8
    requires bit { k < 32 }
    ensures uncleared { result ≡ bit old k * (1 - bit written k) }
    ensures small { result ≤ 1 }
{
    u8::from(is_set(old, k) && !is_set(written, k))
}

/// The table pointer after its byte `k` is written.
fn table_after(old: u32, k: u32, written: u8) -> u32
    requires byte { k < 4 }
    ensures after { result ≡ table_after old k written }
{
    let mut bytes = old.to_le_bytes();
    bytes[k as usize] = written;
    u32::from_le_bytes(bytes) / 4 * 4
}
