//! How a call ends, as a number.

ghost use Rattle.std.specs.Prelude.{◌≡◌, ◌≢◌};
ghost use Rattle.machine_records.specs.Statuses.{bad_handle, fault_status, ok, refusal_status, setup_status};

use board_chipset::{OutOfRange, SetupFault};
use machine::Refusal;

/// Done.
pub const OK: u32 = 0;
/// The handle holds no board; or, at an open, it holds one.
pub const BAD_HANDLE: u32 = 1;
/// There was no memory.
pub const NO_MEMORY: u32 = 2;
/// The memory of the guest is not of 1 to 512 MiB.
pub const BAD_SIZE: u32 = 3;
/// A record says no card, or the cards are none that a board can be fitted with.
pub const BAD_CARDS: u32 = 4;
/// The ROM is not of 64, 128, 256 or 512 KiB.
pub const BAD_ROM: u32 = 5;
/// The disk is not of 1 to 65,536 whole sectors of 512 bytes.
pub const BAD_DISK: u32 = 6;
/// A record names no event.
pub const NO_EVENT: u32 = 7;
/// An address or a port is no multiple of the width.
pub const ALIGNMENT: u32 = 8;
/// A value does not fit the width, or is not 0 where nothing is written.
pub const VALUE: u32 = 9;
/// A wide access has not 2, 4 or 8 bytes.
pub const BYTES: u32 = 10;
/// One bus cycle moves a wide access.
pub const ALIGNED: u32 = 11;
/// A wide access ends past FFFFFFFFh.
pub const END: u32 = 12;
/// A count of pulses is not 1 to 1,000,000.
pub const PULSES: u32 = 13;
/// The clock cannot have a date or time.
pub const DATE: u32 = 14;
/// No card has the device number.
pub const DEVICE: u32 = 15;
/// The line cannot be set from outside.
pub const LINE: u32 = 16;
/// The event is no access that one bus cycle makes.
pub const NO_CYCLE: u32 = 17;
/// There is no disk, or it has no such sector.
pub const NO_SECTOR: u32 = 18;
/// The bytes do not all lie in the installed memory, or in the base of the card.
pub const PAST_END: u32 = 19;
/// The clock has no byte at this address.
pub const NO_BYTE: u32 = 20;
/// Not as many bytes as the sector, the memory or the disk has.
pub const BAD_LENGTH: u32 = 21;
/// The record is that of no reply.
pub const NO_REPLY: u32 = 22;
/// The text does not fit.
pub const NO_ROOM: u32 = 23;
/// COM1 can receive no byte: its queue is full, or loopback is on.
pub const SERIAL_FULL: u32 = 24;
/// The clock does not go on: SET holds its time, or its registers say no date or time.
pub const NO_TIME: u32 = 25;
/// The bytes are no saved board.
pub const BAD_IMAGE: u32 = 26;
/// The bytes are those of a board as another version saved it.
pub const OTHER_VERSION: u32 = 27;
/// The numbers are those of no transfer of a bus master.
pub const NO_TRANSFER: u32 = 28;

/// The status of an event that is out of range.
pub fn fault_status(fault: OutOfRange) -> u32
    ensures status { result ≡ fault_status fault }
{
    match fault {
        OutOfRange::Alignment => ALIGNMENT,
        OutOfRange::Value => VALUE,
        OutOfRange::Bytes => BYTES,
        OutOfRange::Aligned => ALIGNED,
        OutOfRange::End => END,
        OutOfRange::Pulses => PULSES,
        OutOfRange::Date => DATE,
        OutOfRange::Device => DEVICE,
        OutOfRange::Line => LINE,
    }
}

/// The status of a setup that opens no board.
pub fn setup_status(fault: SetupFault) -> u32
    ensures status { result ≡ setup_status fault }
{
    match fault {
        SetupFault::Memory => BAD_SIZE,
        SetupFault::Cards => BAD_CARDS,
        SetupFault::Windows => BAD_CARDS,
        SetupFault::Rom => BAD_ROM,
        SetupFault::Disk => BAD_DISK,
        SetupFault::NoMemory => NO_MEMORY,
    }
}

/// The status of a machine's refusal.
pub fn refusal_status(why: Refusal) -> u32
    ensures status { result ≡ refusal_status why }
    ensures refused { result ≢ ok }
    ensures not_closed { result ≢ bad_handle }
{
    match why {
        Refusal::NoMemory => NO_MEMORY,
        Refusal::NoRoom => NO_ROOM,
        Refusal::BadImage => BAD_IMAGE,
        Refusal::OtherVersion => OTHER_VERSION,
        Refusal::BadLength => BAD_LENGTH,
        Refusal::PastEnd => PAST_END,
    }
}
