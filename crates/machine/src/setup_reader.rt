//! Reads a setup.

ghost use Rattle.std.specs.Prelude.{◌≡◌, option_map};
ghost use Rattle.board_prelude.specs.{w32, is_rom_size};
ghost use Rattle.byte_fields.specs.Fields.{Filled, Took, number_where};
ghost use Rattle.machine.specs.Setups.{disk_fields, is_fitted_size, rom_fields, setup_fields};

use crate::identities::MOST_CARDS;
use crate::memory_reader::memory;
use board_chipset::{Setup, is_disk_size, is_rom_size};
use board_image::cards;
use byte_fields::{Bad, Fault, Fields};
use std::alloc::Global;

/// The most memory in MiB.
const MOST_MIB: u32 = 512;

/// Reads the length of a ROM.
fn rom_size(fields: &mut Fields) -> Result<u32, Bad>
    ensures took { Took (λ n. n) result fields.new (number_where w32 is_rom_size fields.old) }
{
    let size = u32::from_le_bytes(fields.front()?);
    fields.past(4, is_rom_size(size as usize))?;
    Ok(size)
}

/// Whether a disk can have this length, or it is that of none.
fn is_fitted_size(size: u32) -> bool
    ensures size { result ≡ is_fitted_size size }
{
    if size == 0 {
        return true;
    }
    is_disk_size(size as usize)
}

/// Reads the length of a disk, 0 where there is none.
fn disk_size(fields: &mut Fields) -> Result<u32, Bad>
    ensures took { Took (λ n. n) result fields.new (number_where w32 is_fitted_size fields.old) }
{
    let size = u32::from_le_bytes(fields.front()?);
    fields.past(4, is_fitted_size(size))?;
    Ok(size)
}

/// Reads a ROM.
#[tactic(auto, unfolding(crate::specs::Setups::rom_fields))]
fn rom(alloc: Global, fields: &mut Fields) -> Result<Vec<u8>, Fault>
    ensures filled { Filled (λ rom. rom.items) result fields.new (rom_fields fields.old) }
{
    let size = rom_size(fields)?;
    memory(alloc, fields, size)
}

/// Reads a disk, where there is one.
#[tactic(auto, unfolding(crate::specs::Setups::disk_fields))]
fn disk(alloc: Global, fields: &mut Fields) -> Result<Option<Vec<u8>>, Fault>
    ensures filled { Filled (λ disk. option_map (λ bytes. bytes.items) disk) result fields.new
        (disk_fields fields.old) }
{
    let size = disk_size(fields)?;
    let bytes = memory(alloc, fields, size)?;
    Ok((size != 0).then_some(bytes))
}

/// Reads the setup.
#[tactic(auto, unfolding(crate::specs::Setups::setup_fields))]
pub(crate) fn setup(alloc: Global, fields: &mut Fields) -> Result<Setup, Fault>
    ensures filled { Filled (λ setup. setup) result fields.new (setup_fields fields.old) }
{
    let mib = fields.word(1, MOST_MIB)?;
    let count = fields.byte(0, MOST_CARDS as u8)?;
    let cards = cards(alloc, fields, true, count)?;
    let rom = rom(alloc, fields)?;
    let disk = disk(alloc, fields)?;
    Ok(Setup {
        mib,
        cards,
        rom,
        disk,
    })
}
