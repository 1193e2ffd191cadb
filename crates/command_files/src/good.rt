//! What the bytes of each kind of file are, and whether they are good.

ghost use Rattle.std.specs.Prelude.{◌≡◌, ◌≤◌, length, IfOk, IfErr};
ghost use Rattle.board_spec.specs.Setup.{IsRomSize, IsDiskSize};
ghost use Rattle.script_spec.specs.ScriptText.{IsScriptText};
ghost use Rattle.script_spec.specs.ScriptRange.{IsInRangeScript};
ghost use Rattle.scripts.specs.Script.{said_of};
ghost use Rattle.board_image.specs.ImageBytes.{IsImage, image_bytes};
ghost use Rattle.command_files.specs.declared.status.Which.{Which};
ghost use Rattle.command_files.specs.Table.{limit_of};
ghost use Rattle.command_files.specs.Steps.{IsBad};

use crate::status::{Status, Which};
use board_core::{is_disk_size, is_rom_size};
use board_image::{Image, read_image};
use scripts::{Script, read_script};
use std::alloc::Global;

/// The script that these bytes spell, which are within the limit of a script. BadScript, with the first bad line, where
/// they spell none; NoMemory for want of memory.
pub(crate) fn good_script(alloc: Global, bytes: &[u8]) -> Result<Script, Status>
    requires fits { length bytes.now ≤ limit_of Which.Script }
    ensures said { IfOk result (λ script. IsScriptText bytes.now (said_of script)) }
    ensures range { IfOk result (λ script. IsInRangeScript (said_of script)) }
    ensures bad { IfErr result (IsBad Which.Script bytes.now) }
{
    let script = read_script(alloc, bytes)?;
    Ok(script)
}

/// These bytes as a BIOS ROM. BadImage where they are not 64, 128, 256 or 512 KiB.
pub(crate) fn good_rom(bytes: Vec<u8>) -> Result<Vec<u8>, Status>
    ensures same { IfOk result (λ rom. rom.items ≡ bytes.items) }
    ensures size { IfOk result (λ rom. IsRomSize (length bytes.items)) }
    ensures bad { IfErr result (IsBad Which.Rom bytes.items) }
{
    if is_rom_size(bytes.len()) {
        Ok(bytes)
    } else {
        Err(Status::BadImage(Which::Rom))
    }
}

/// These bytes as a disk. BadImage where they are not 1 to 65,536 whole sectors of 512 bytes.
pub(crate) fn good_disk(bytes: Vec<u8>) -> Result<Vec<u8>, Status>
    ensures same { IfOk result (λ disk. disk.items ≡ bytes.items) }
    ensures size { IfOk result (λ disk. IsDiskSize (length bytes.items)) }
    ensures bad { IfErr result (IsBad Which.Disk bytes.items) }
{
    if is_disk_size(bytes.len()) {
        Ok(bytes)
    } else {
        Err(Status::BadImage(Which::Disk))
    }
}

/// The setup and the steps of an image of a board. BadImage where these bytes are none; NoMemory for want of memory.
pub(crate) fn good_image(alloc: Global, bytes: &[u8]) -> Result<Image, Status>
    ensures image { IfOk result (λ image. IsImage image.setup image.steps
        × (bytes.now ≡ image_bytes image.setup image.steps)) }
    ensures bad { IfErr result (IsBad Which.Image bytes.now) }
{
    let image = read_image(alloc, bytes)?;
    Ok(image)
}
