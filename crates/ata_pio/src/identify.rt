//! The words of IDENTIFY DEVICE.

ghost use Rattle.std.specs.Prelude.{◌≡◌, ◌≤◌, slice_index_or};
ghost use Rattle.device_spec.specs.Ata.Identify.{cylinders_of, chs_sectors, text_word, number_word, identify_word};

use crate::task_file::{CYLINDER_SECTORS, HEADS, TRACK_SECTORS};

const SERIAL_NUMBER: &[u8] = b"BOARD0001";

const FIRMWARE_REVISION: &[u8] = b"1.0";

const MODEL_NUMBER: &[u8] = b"BOARD DISK";

/// General configuration: a fixed drive.
const FIXED_DRIVE: u16 = 0x0040;
/// Capabilities: LBA.
const LBA_SUPPORTED: u16 = 0x0200;
/// Words 54 to 58 hold the current geometry.
const GEOMETRY_VALID: u16 = 0x0001;

/// Word `index` for a disk of this many sectors, at most 65,536.
#[tactic(auto, unfolding(device_spec::specs::Ata::Identify::identify_word))]
pub fn identify_word(sectors: u32, index: u8) -> u16
    requires { sectors ≤ 65536 }
    ensures word { result ≡ identify_word sectors index }
{
    match index {
        10..=19 => text_word(SERIAL_NUMBER, index - 10),
        23..=26 => text_word(FIRMWARE_REVISION, index - 23),
        27..=46 => text_word(MODEL_NUMBER, index - 27),
        _ => number_word(sectors, index),
    }
}

/// A word of a text that is padded with spaces, its first character in the high byte.
fn text_word(text: &[u8], index: u8) -> u16
    ensures word { result ≡ text_word text.now index }
{
    u16::from(character(text, 2 * index as usize)) * 256
        + u16::from(character(text, 2 * index as usize + 1))
}

/// A character of a text, and a space past its end.
fn character(text: &[u8], at: usize) -> u8
    ensures character { result ≡ slice_index_or text.now at 32 }
{
    text.get(at).copied().unwrap_or(b' ')
}

/// A word that is no text.
fn number_word(sectors: u32, index: u8) -> u16
    requires { sectors ≤ 65536 }
    ensures word { result ≡ number_word sectors index }
{
    match index {
        0 => FIXED_DRIVE,
        1 | 54 => cylinders(sectors) as u16,
        3 | 55 => u16::from(HEADS),
        6 | 56 => u16::from(TRACK_SECTORS),
        49 => LBA_SUPPORTED,
        53 => GEOMETRY_VALID,
        57 => (chs_sectors(sectors) % 65536) as u16,
        58 => (chs_sectors(sectors) / 65536) as u16,
        60 => (sectors % 65536) as u16,
        61 => (sectors / 65536) as u16,
        _ => 0,
    }
}

/// The cylinders of the default geometry, at least 1.
fn cylinders(sectors: u32) -> u32
    requires { sectors ≤ 65536 }
    ensures cylinders { result ≡ cylinders_of sectors }
{
    (sectors / CYLINDER_SECTORS).max(1)
}

/// The sectors that the default geometry reaches.
fn chs_sectors(sectors: u32) -> u32
    requires { sectors ≤ 65536 }
    ensures sectors { result ≡ chs_sectors sectors }
{
    (cylinders(sectors) * CYLINDER_SECTORS).min(sectors)
}
