//! A machine as bytes. Those of its DRAM go straight into the room, and those around them by a copy.

ghost use Rattle.std.specs.Prelude.{◌≡◌, ◌+◌, ◌<◌, ◌≤◌, ◌++◌, ◌*◌, length, replicate, IfOk, OnOk, true, false};
ghost use Rattle.board_chipset.specs.Around.{after_dram};
ghost use Rattle.board_chipset.specs.ChipsetState.{AreRegisters, IsChipset};
ghost use Rattle.board_chipset.specs.Given.{disk_left};
ghost use Rattle.dram_store.specs.State.{dram_bytes};
ghost use Rattle.machine.specs.Fitted.{IsFitting};
ghost use Rattle.machine.specs.Given.{on_board, without};
ghost use Rattle.machine.specs.Images.{IsSavedState, IsSaveEnd, IsWritten, before_bytes, fitting_of, image_bytes};
ghost use Rattle.machine.specs.Images.{with_dram};
ghost use Rattle.machine.specs.Room.{IsInstalled};
ghost use Rattle.uart_16550.specs.SerialState.{IsSerial};
ghost use Rattle.uart_16550.specs.State.{com1_bytes};

use crate::dram::{dram_size, put_dram};
use crate::fitted::push_fitted;
use crate::identity::FittedIdentity;
use crate::image::write_front;
use crate::machine::Machine;
use crate::refusal::Refusal;
use crate::room::put;
use board_base::NoMemory;
use board_chipset::Chipset;
use byte_fields::{MEMORY_PAGE, push_flag};
use dram_store::Dram;
use std::alloc::Global;
use uart_16550::SerialBoard;

/// Which bytes of a machine an image leaves out. Zeros stand in their place, of which a page takes a byte.
#[derive(Clone, Copy)]
pub struct LeftOut {
    /// Those of the DRAM.
    pub dram: bool,
    /// Those of the disk: as it was fitted, and as its sectors stand.
    pub disk: bool,
}

/// How many pages a MiB has.
const MIB_PAGES: usize = 0x10_0000 / MEMORY_PAGE;

impl Machine {
    /// Writes the machine, without the bytes that are left out, to the front of the room, as bytes that are whole in
    /// themselves, and counts them. Refused with `NoRoom` where they do not fit, and then too they are counted; and with
    /// `NoMemory` where there is none for those that stand around the DRAM's. The machine stays as it is.
    pub fn save(
        &self,
        alloc: Global,
        left: LeftOut,
        into: &mut [u8],
        bytes: &mut usize,
    ) -> Result<(), Refusal>
        ensures end { IsSaveEnd result (image_bytes (without left self.now.saved)) into.old into.new
            bytes.old bytes.new }
        ensures sound { OnOk result (IsSavedState self.now.saved) }
    {
        if left.dram {
            save_blank(
                alloc,
                left.disk,
                &self.serial,
                &self.identities,
                into,
                bytes,
            )
        } else {
            save_whole(
                alloc,
                left.disk,
                &self.serial,
                &self.identities,
                into,
                bytes,
            )
        }
    }
}

/// Writes the machine, without the bytes of the disk where they are left out.
fn save_whole(
    alloc: Global,
    left: bool,
    serial: &SerialBoard<Chipset>,
    identities: &[FittedIdentity],
    into: &mut [u8],
    bytes: &mut usize,
) -> Result<(), Refusal>
    requires few { length identities.now ≤ 8 }
    ensures end { IsSaveEnd result (image_bytes
        (on_board (disk_left left) (record { serial = serial.now; identities = identities.now })))
        into.old into.new bytes.old bytes.new }
    ensures sound { OnOk result (IsSavedState (record { serial = serial.now; identities = identities.now })) }
{
    let dram = serial.board().dram();
    match bytes_around(alloc, left, serial, identities) {
        Ok(around) => {
            *bytes = around.bytes.len() + dram_size(dram);
            if write(&around.bytes, around.dram_at, dram, *bytes, into) {
                Ok(())
            } else {
                Err(Refusal::NoRoom)
            }
        }
        Err(_) => Err(Refusal::NoMemory),
    }
}

/// Does so without the bytes of the DRAM.
fn save_blank(
    alloc: Global,
    disk: bool,
    serial: &SerialBoard<Chipset>,
    identities: &[FittedIdentity],
    into: &mut [u8],
    bytes: &mut usize,
) -> Result<(), Refusal>
    requires few { length identities.now ≤ 8 }
    ensures end { IsSaveEnd result (image_bytes (without (record { dram = true; disk = disk })
        (record { serial = serial.now; identities = identities.now }))) into.old into.new bytes.old bytes.new }
    ensures sound { OnOk result (IsSavedState (record { serial = serial.now; identities = identities.now })) }
{
    match bytes_without(alloc, disk, serial, identities) {
        Ok(image) => {
            *bytes = image.len();
            if write_front(&image, into) {
                Ok(())
            } else {
                Err(Refusal::NoRoom)
            }
        }
        Err(_) => Err(Refusal::NoMemory),
    }
}

/// All bytes of a board but those of its DRAM, and where these belong.
#[derive(Drop)]
struct Around {
    bytes: Vec<u8>,
    dram_at: usize,
}

/// Writes bytes, with those of the DRAM at a place in them, to the front of the room, where they fit, and says whether
/// they do. Else nothing is written.
fn write(bytes: &[u8], dram_at: usize, dram: &Dram, size: usize, into: &mut [u8]) -> bool
    requires place { dram_at ≤ length bytes.now }
    requires few { IsInstalled dram.now }
    requires size { size ≡ length bytes.now + length (dram_bytes dram.now) }
    ensures written { result ≡ true → IsWritten (with_dram bytes.now dram_at dram.now) into.old into.new }
    ensures past { result ≡ false → (into.new ≡ into.old)
        × (length into.old < length (with_dram bytes.now dram_at dram.now)) }
{
    if into.len() < size {
        return false;
    }
    put_around(bytes, dram_at, dram, into);
    true
}

/// Puts bytes, with those of the DRAM at a place in them, in front of the room.
fn put_around(bytes: &[u8], dram_at: usize, dram: &Dram, into: &mut [u8])
    requires place { dram_at ≤ length bytes.now }
    requires few { IsInstalled dram.now }
    requires room { length bytes.now + length (dram_bytes dram.now) ≤ length into.old }
    ensures written { IsWritten (with_dram bytes.now dram_at dram.now) into.old into.new }
{
    let start = put(into, 0, &bytes[..dram_at]);
    let end = put_dram(into, start, dram);
    put(into, end, &bytes[dram_at..]);
}

/// All bytes of a board but those of its DRAM, and of its disk where they are left out.
fn bytes_around(
    alloc: Global,
    left: bool,
    serial: &SerialBoard<Chipset>,
    identities: &[FittedIdentity],
) -> Result<Around, NoMemory>
    requires few { length identities.now ≤ 8 }
    ensures place { IfOk result (λ around. around.dram_at ≤ length around.bytes.items) }
    ensures bytes { IfOk result (λ around.
        with_dram around.bytes.items around.dram_at serial.now.board.state.stores.dram
        ≡ image_bytes (on_board (disk_left left) (record { serial = serial.now; identities = identities.now }))) }
    ensures sound { OnOk result (IsSavedState (record { serial = serial.now; identities = identities.now })) }
{
    let mut bytes = Vec::new(alloc);
    push_before(&mut bytes, left, serial, identities)?;
    let dram_at = bytes.len();
    push_after(&mut bytes, left, serial)?;
    Ok(Around { bytes, dram_at })
}

/// Adds what the board is fitted with, without the bytes of the disk where they are left out, and of its state what
/// stands before the bytes of the DRAM.
fn push_before(
    into: &mut Vec<u8>,
    left: bool,
    serial: &SerialBoard<Chipset>,
    identities: &[FittedIdentity],
) -> Result<(), NoMemory>
    requires few { length identities.now ≤ 8 }
    ensures added { OnOk result (into.new.items ≡ into.old.items
        ++ before_bytes (on_board (disk_left left) (record { serial = serial.now; identities = identities.now }))) }
    ensures fitting { IsFitting (fitting_of (record { serial = serial.now; identities = identities.now })) }
    ensures registers { OnOk result (AreRegisters serial.now.board.setup.cards serial.now.board.state.registers) }
{
    push_fitted(into, serial.board().setup(), identities, left)?;
    serial.board().save_before_dram(into)
}

/// Adds of the state of the board what stands after the bytes of the DRAM.
fn push_after(into: &mut Vec<u8>, left: bool, serial: &SerialBoard<Chipset>) -> Result<(), NoMemory>
    ensures added { OnOk result (into.new.items
        ≡ into.old.items ++ (after_dram (disk_left left serial.now.board) ++ com1_bytes serial.now.com1)) }
    ensures sound { OnOk result
        (AreRegisters serial.now.board.setup.cards serial.now.board.state.registers → IsSerial serial.now) }
{
    push_rest(into, left, serial.board())?;
    push_flag(into, serial.given_level())?;
    serial.uart().save_state(into)
}

/// Adds the bytes of the cards, and the devices, without the bytes of the disk where they are left out.
fn push_rest(into: &mut Vec<u8>, left: bool, board: &Chipset) -> Result<(), NoMemory>
    ensures added { OnOk result (into.new.items ≡ into.old.items ++ after_dram (disk_left left board.now)) }
    ensures sound { OnOk result
        (AreRegisters board.now.setup.cards board.now.state.registers → IsChipset board.now) }
{
    if left {
        board.save_after_dram_left(into)
    } else {
        board.save_after_dram(into)
    }
}

/// All bytes of a board, with zeros in the place of the DRAM's.
fn bytes_without(
    alloc: Global,
    disk: bool,
    serial: &SerialBoard<Chipset>,
    identities: &[FittedIdentity],
) -> Result<Vec<u8>, NoMemory>
    requires few { length identities.now ≤ 8 }
    ensures bytes { IfOk result (λ image. image.items ≡ image_bytes
        (without (record { dram = true; disk = disk }) (record { serial = serial.now; identities = identities.now }))) }
    ensures sound { OnOk result (IsSavedState (record { serial = serial.now; identities = identities.now })) }
{
    let mut bytes = Vec::new(alloc);
    push_before(&mut bytes, disk, serial, identities)?;
    push_pages(&mut bytes, serial.board())?;
    push_after(&mut bytes, disk, serial)?;
    Ok(bytes)
}

/// Adds a page of zeros for each page of the DRAM.
fn push_pages(into: &mut Vec<u8>, board: &Chipset) -> Result<(), NoMemory>
    ensures added { OnOk result (into.new.items ≡ into.old.items ++ replicate (board.now.setup.mib * 256) 0) }
{
    push_zeros(into, board.setup().mib as usize * MIB_PAGES)
}

/// Adds so many zeros.
fn push_zeros(into: &mut Vec<u8>, count: usize) -> Result<(), NoMemory>
    requires few { count ≤ 131_072 }
    ensures added { OnOk result (into.new.items ≡ into.old.items ++ replicate count 0) }
{
    into.resize(into.len() + count, 0)?;
    Ok(())
}
