//! What is known of the files that a command has read.

ghost use Rattle.std.specs.Prelude.{◌≡◌, option_map};
ghost use Rattle.scripts.specs.Script.{said_of};
ghost use Rattle.command_files.specs.Known.{rom_name, disk_name};

use crate::good::{good_disk, good_image, good_rom, good_script};
use crate::status::{Status, Which};
use crate::table::name_in_words;
use board_image::Image;
use command_words::Command;
use scripts::Script;
use std::alloc::Global;
use std::marker::Model;

/// The name of the ROM, where a script was read.
fn rom_name(script: &Option<Script>) -> Option<&str>
    ensures name { option_map (λ name. name.now) result ≡ rom_name (option_map said_of script.now) }
{
    let script = script.as_ref()?;
    Some(script.rom.as_str())
}

/// The name of the disk, where a script was read and names one.
fn disk_name(script: &Option<Script>) -> Option<&str>
    ensures name { option_map (λ name. name.now) result ≡ disk_name (option_map said_of script.now) }
{
    let script = script.as_ref()?;
    let disk = script.disk.as_ref()?;
    Some(disk.as_str())
}

/// What the files have that a command has read. For a file that it does not read there is nothing: no script, image or
/// disk, and no bytes of the others.
#[derive(Drop)]
pub struct Read {
    pub script: Option<Script>,
    /// The BIOS ROM, of 64, 128, 256 or 512 KiB.
    pub rom: Vec<u8>,
    /// The disk, where the script names one: 1 to 65,536 sectors of 512 bytes.
    pub disk: Option<Vec<u8>>,
    /// The log that is checked, at most 64 MiB.
    pub log: Vec<u8>,
    pub image: Option<Image>,
    /// The bytes that the serial port receives, at most 1 MiB.
    pub input: Vec<u8>,
}

impl Model for Read {
    ghost use Rattle.std.specs.Prelude.{option_map};
    ghost use Rattle.scripts.specs.Script.{said_of};
    ghost use Rattle.command_files.specs.Known.{Known};

    ghost Value = { Known };

    ghost view = { λ read. record {
      script = option_map said_of read.script;
      rom = read.rom.items;
      disk = option_map (λ bytes. bytes.items) read.disk;
      log = read.log.items;
      image = read.image;
      input = read.input.items;
    } };
}

impl Read {
    ghost use Rattle.std.specs.Prelude.{◌≡◌, ◌≤◌, length, option_map, OnOk, IfErr};
    ghost use Rattle.command_words.specs.Commands.{said_by};
    ghost use Rattle.command_files.specs.Table.{limit_of};
    ghost use Rattle.command_files.specs.Known.{nothing_known, file_name, Learns};
    ghost use Rattle.command_files.specs.Steps.{HasRange, IsBad};

    /// What is known before the first file is read: nothing.
    pub(crate) fn nothing(alloc: Global) -> Read
        ensures nothing { result ≡ nothing_known }
    {
        Read {
            script: None,
            rom: Vec::new(alloc),
            disk: None,
            log: Vec::new(alloc),
            image: None,
            input: Vec::new(alloc),
        }
    }

    /// The name of a file that a command reads: it is in the command's words, or in the script that was read. None
    /// where there is no such file.
    pub(crate) fn file_name<'a>(&'a self, command: &'a Command, which: Which) -> Option<&'a str>
        ensures name { option_map (λ name. name.now) result ≡ file_name (said_by command.now) self.now which }
    {
        match which {
            Which::Rom => rom_name(&self.script),
            Which::Disk => disk_name(&self.script),
            _ => name_in_words(command, which),
        }
    }

    /// Keeps what the bytes of a file have, which are within its limit. Refused with the file's status where they are
    /// bad.
    pub(crate) fn learn(
        &mut self,
        alloc: Global,
        which: Which,
        bytes: Vec<u8>,
    ) -> Result<(), Status>
        requires fits { length bytes.items ≤ limit_of which }
        ensures learns { OnOk result (Learns self.old which bytes.items self.new) }
        ensures range { OnOk result (HasRange which self.new) }
        ensures bad { IfErr result (IsBad which bytes.items) }
    {
        match which {
            Which::Script => self.script = Some(good_script(alloc, &bytes)?),
            Which::Rom => self.rom = good_rom(bytes)?,
            Which::Disk => self.disk = Some(good_disk(bytes)?),
            Which::Log => self.log = bytes,
            Which::Image => self.image = Some(good_image(alloc, &bytes)?),
            Which::Input => self.input = bytes,
        }
        Ok(())
    }
}
