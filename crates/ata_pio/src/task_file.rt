//! The registers of the task file, and the sector that its address registers name (AT Attachment).
//!
//! | port | read                                 | write          | power-on |
//! |------|--------------------------------------|----------------|----------|
//! | 1F0h | data                                 | data           |          |
//! | 1F1h | error                                | features       | 01h, 00h |
//! | 1F2h | sector count                         | the same       | 01h      |
//! | 1F3h | LBA 7 to 0, or the sector            | the same       | 01h      |
//! | 1F4h | LBA 15 to 8, or the cylinder's low   | the same       | 00h      |
//! | 1F5h | LBA 23 to 16, or the cylinder's high | the same       | 00h      |
//! | 1F6h | device: bit 6 LBA, bit 4 drive 1,    | the same       | A0h      |
//! |      | 3 to 0 LBA 27 to 24 or the head      |                |          |
//! | 1F7h | status                               | command        |          |
//! | 3F6h | alternate status                     | device control | 00h      |

ghost use Rattle.std.specs.Prelude.{◌≡◌, ◌+◌, ◌*◌, ◌<◌};
ghost use Rattle.device_spec.specs.Ata.State.{signed, power_on_registers, is_lba, is_drive_one};
ghost use Rattle.device_spec.specs.Ata.Address.{lba_of, chs_of, named, naming, head_of, counted, with_head};
ghost use Rattle.device_spec.specs.Ata.Steps.{with_register, with_control};
ghost use Rattle.ata_pio.specs.View.{registers_of};

use board_base::bits::is_set;
use device_spec::port::{DISK_COUNT, DISK_ERROR, DISK_HIGH, DISK_LOW, DISK_MID};

/// The device register: the bits that read as 1, and those of the head.
const ALWAYS_ONE: u8 = 0xA0;

const HEAD_BITS: u8 = 0x0F;
/// The device register: the number of the bit that says LBA, and of that of the drive.
const LBA: u32 = 6;

const DRIVE_ONE: u32 = 4;

/// Device control: the numbers of its bits.
const SRST: u32 = 2;

const NIEN: u32 = 1;

/// The geometry of every disk: heads, sectors of a track, and sectors of a cylinder.
pub const HEADS: u8 = 16;

pub const TRACK_SECTORS: u8 = 63;

pub const CYLINDER_SECTORS: u32 = HEADS as u32 * TRACK_SECTORS as u32;

/// The registers, and the two bits that device control keeps.
#[derive(Clone, Copy)]
pub struct TaskFile {
    pub features: u8,
    pub error: u8,
    pub count: u8,
    pub low: u8,
    pub mid: u8,
    pub high: u8,
    pub device: u8,
    pub srst: bool,
    pub nien: bool,
}

impl TaskFile {
    /// The registers at power-on.
    pub fn power_on() -> TaskFile
        ensures power_on { registers_of result ≡ power_on_registers }
    {
        TaskFile {
            features: 0x00,
            error: 0x01,
            count: 0x01,
            low: 0x01,
            mid: 0x00,
            high: 0x00,
            device: ALWAYS_ONE,
            srst: false,
            nien: false,
        }
    }

    /// Puts the signature into the registers.
    pub fn sign(&mut self)
        ensures signed { registers_of self.new ≡ signed (registers_of self.old) }
    {
        *self = TaskFile {
            features: self.features,
            srst: self.srst,
            nien: self.nien,
            ..TaskFile::power_on()
        };
    }

    /// Whether the sector is addressed by LBA.
    pub fn is_lba(&self) -> bool
        ensures is_lba { result ≡ is_lba (registers_of self.now) }
    {
        is_set(self.device.into(), LBA)
    }

    /// Whether drive 1 is chosen, which is not there.
    pub fn is_drive_one(&self) -> bool
        ensures is_drive_one { result ≡ is_drive_one (registers_of self.now) }
    {
        is_set(self.device.into(), DRIVE_ONE)
    }

    /// The head, 0 to 15.
    pub fn head(&self) -> u8
        ensures head { result ≡ head_of (registers_of self.now) }
    {
        self.device & HEAD_BITS
    }

    /// The sector that the address registers name, in either form.
    pub fn sector(&self) -> Option<u32>
        ensures sector { result ≡ named (registers_of self.now) }
    {
        if self.is_lba() {
            Some(self.lba())
        } else {
            self.chs()
        }
    }

    /// The sector by its 28-bit LBA.
    fn lba(&self) -> u32
        ensures lba { result ≡ lba_of (registers_of self.now) }
    {
        u32::from_le_bytes([self.low, self.mid, self.high, self.head()])
    }

    /// The sector by cylinder, head and sector, where there is such a sector on a track.
    fn chs(&self) -> Option<u32>
        ensures chs { result ≡ chs_of (registers_of self.now) }
    {
        if self.low == 0 || self.low > TRACK_SECTORS {
            return None;
        }
        let cylinder = u32::from(u16::from_le_bytes([self.mid, self.high]));
        let track = cylinder * u32::from(HEADS) + u32::from(self.head());
        Some(track * u32::from(TRACK_SECTORS) + u32::from(self.low) - 1)
    }

    /// Writes a sector back into the address registers, in the form that the device register says.
    pub fn name(&mut self, sector: u32)
        ensures named { registers_of self.new ≡ naming (registers_of self.old) sector }
    {
        if self.is_lba() {
            let [low, mid, high, head] = sector.to_le_bytes();
            self.low = low;
            self.mid = mid;
            self.high = high;
            self.set_head(head & HEAD_BITS);
        } else {
            let track = sector / u32::from(TRACK_SECTORS);
            let cylinder = sector / CYLINDER_SECTORS;
            self.low = (sector % u32::from(TRACK_SECTORS)) as u8 + 1;
            self.mid = (cylinder % 256) as u8;
            self.high = (cylinder / 256 % 256) as u8;
            self.set_head((track % u32::from(HEADS)) as u8);
        }
    }

    /// Writes the head, or bits 27:24 of an LBA.
    #[tactic(auto, using(crate::proofs::Bits::head_put))]
    fn set_head(&mut self, head: u8)
        requires { head < 16 }
        ensures head { registers_of self.new
            ≡ record (registers_of self.old) { device = with_head self.old.device head } }
    {
        self.device = (self.device & !HEAD_BITS) | head;
    }

    /// Counts one sector that was moved.
    pub fn count_down(&mut self)
        ensures counted { registers_of self.new ≡ counted (registers_of self.old) }
    {
        self.count = self.count.wrapping_sub(1);
    }

    /// Writes the register at a port from 1F1h to 1F6h.
    pub fn write(&mut self, port: u16, byte: u8)
        ensures written { registers_of self.new ≡ with_register port byte (registers_of self.old) }
    {
        match port {
            DISK_ERROR => self.features = byte,
            DISK_COUNT => self.count = byte,
            DISK_LOW => self.low = byte,
            DISK_MID => self.mid = byte,
            DISK_HIGH => self.high = byte,
            _ => self.device = byte | ALWAYS_ONE,
        }
    }

    /// Writes device control, of which SRST and nIEN are kept.
    pub fn write_control(&mut self, byte: u8)
        ensures written { registers_of self.new ≡ with_control byte (registers_of self.old) }
    {
        self.srst = is_set(byte.into(), SRST);
        self.nien = is_set(byte.into(), NIEN);
    }
}
