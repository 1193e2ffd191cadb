//! The drive: what a command does, and how its words move.

ghost use Rattle.std.specs.Prelude.{◌≡◌, ◌+◌, ◌-◌, ◌*◌, ◌<◌, length, ◌%◌, ◌/◌, ◌++◌, ◌∷◌, [], ℕ, take};
ghost use Rattle.device_spec.specs.Ata.State.{power_on_drive, status_of, is_drq, is_interrupt, sectors_of, reset_drive};
ghost use Rattle.device_spec.specs.Ata.Commands.{failed, finished, begin_read, begin_write, sector_read};
ghost use Rattle.device_spec.specs.Ata.Commands.{sector_written, verified, geometry_set, feature_set, obeyed, begun};
ghost use Rattle.device_spec.specs.Ata.Commands.{is_ignored, commanded, identifies};
ghost use Rattle.device_spec.specs.Ata.Address.{left_of};
ghost use Rattle.device_spec.specs.Ata.Steps.{word_of, after_word, word_written, register_of, register_written};
ghost use Rattle.device_spec.specs.Ata.Steps.{control_written};
ghost use Rattle.ata_pio.specs.View.{error_of, medium_of, registers_of, drive_of, IsOnDisk};

use crate::fault::Fault;
use crate::identify::identify_word;
use crate::sectors::{SECTOR_BYTES, Sectors};
use crate::task_file::{HEADS, TRACK_SECTORS, TaskFile};
use crate::{command, feature};
use byteorder::{ByteOrder, LittleEndian};
use device_spec::port::{DISK_COUNT, DISK_DEVICE, DISK_ERROR, DISK_HIGH, DISK_LOW, DISK_MID};

/// What is under way: nothing; nothing, since the last command ended with an error; a sector that is
/// read or written, or the words of IDENTIFY DEVICE, each with the word that comes next.
#[derive(Clone, Copy)]
pub enum Progress {
    Idle,
    Error,
    Read { sector: u32, word: u8 },
    Write { sector: u32, word: u8 },
    Identify { word: u8 },
}

/// Status: ready, and the seek is complete.
const READY: u8 = 0x50;
/// Status: the last command ended with an error.
const READY_ERR: u8 = READY | 0x01;
/// Status: words are to move.
const READY_DRQ: u8 = READY | 0x08;
/// Status: reset holds the disk.
const BUSY: u8 = 0x80;
/// Status of a drive that is not there.
const ABSENT: u8 = 0x00;

/// What the data port gives where no word is to be read.
const NO_WORD: u16 = 0xFFFF;
/// The last word of a sector, and of IDENTIFY DEVICE.
const LAST_WORD: u8 = 255;

/// The registers, what is under way, the interrupt request, and the words of a sector that have come so far.
#[derive(Drop)]
pub struct Controller {
    pub task: TaskFile,
    pub progress: Progress,
    pub request: bool,
    pub buffer: [u8; SECTOR_BYTES],
}

impl Controller {
    /// The drive at power-on.
    pub fn power_on() -> Controller
        ensures power_on { drive_of result ≡ power_on_drive }
        ensures within { (count : ℕ) → IsOnDisk count result.progress }
    {
        Controller {
            task: TaskFile::power_on(),
            progress: Progress::Idle,
            request: false,
            buffer: [0; SECTOR_BYTES],
        }
    }

    /// The status register.
    pub fn status(&self) -> u8
        ensures status { result ≡ status_of (drive_of self.now) }
    {
        if self.task.is_drive_one() {
            return ABSENT;
        }
        if self.task.srst {
            return BUSY;
        }
        match self.progress {
            Progress::Idle => READY,
            Progress::Error => READY_ERR,
            Progress::Read { .. } | Progress::Write { .. } | Progress::Identify { .. } => READY_DRQ,
        }
    }

    /// Whether words are to move.
    fn is_drq(&self) -> bool
        ensures is_drq { result ≡ is_drq (drive_of self.now) }
    {
        self.status() == READY_DRQ
    }

    /// The level of the interrupt line: the request, unless nIEN keeps it back or drive 1 is chosen.
    pub fn is_interrupt(&self) -> bool
        ensures is_interrupt { result ≡ is_interrupt (drive_of self.now) }
    {
        self.request && !self.task.nien && !self.task.is_drive_one()
    }

    /// Ends a command by an error.
    fn fail(&mut self, fault: Fault)
        ensures failed { drive_of self.new ≡ failed (error_of fault) (drive_of self.old) }
        ensures within { (count : ℕ) → IsOnDisk count self.new.progress }
    {
        self.task.error = fault.error();
        self.progress = Progress::Error;
        self.request = true;
    }

    /// Ends a command with a request.
    fn finish(&mut self)
        ensures finished { drive_of self.new ≡ finished (drive_of self.old) }
        ensures within { (count : ℕ) → IsOnDisk count self.new.progress }
    {
        self.progress = Progress::Idle;
        self.request = true;
    }

    /// Begins to read the addressed sector, or ends the command by an error where it cannot be read.
    #[tactic(auto, unfolding(device_spec::specs::Ata::Commands::begin_read))]
    fn begin_read(&mut self, sectors: &Sectors)
        ensures begun { drive_of self.new ≡ begin_read (medium_of sectors.now) (drive_of self.old) }
        ensures within { IsOnDisk (sectors_of (medium_of sectors.now)) self.new.progress }
    {
        match sectors.readable(self.task.sector()) {
            Ok(sector) => {
                self.progress = Progress::Read { sector, word: 0 };
                self.request = true;
            }
            Err(fault) => self.fail(fault),
        }
    }

    /// Goes on after the last word of a sector that is read.
    #[tactic(auto, unfolding(device_spec::specs::Ata::Commands::sector_read))]
    fn sector_read(&mut self, sector: u32, sectors: &Sectors)
        requires { sector < sectors_of (medium_of sectors.now) }
        ensures read { drive_of self.new ≡ sector_read (medium_of sectors.now) sector (drive_of self.old) }
        ensures within { IsOnDisk (sectors_of (medium_of sectors.now)) self.new.progress }
    {
        self.task.count_down();
        if self.task.count == 0 {
            self.progress = Progress::Idle;
            return;
        }
        self.task.name(sector + 1);
        self.begin_read(sectors);
    }

    /// Begins to write the addressed sector, or ends the command by an error where it is not found.
    #[tactic(auto, unfolding(device_spec::specs::Ata::Commands::begin_write))]
    fn begin_write(&mut self, request: bool, sectors: &Sectors)
        ensures begun { drive_of self.new ≡ begin_write (medium_of sectors.now) request (drive_of self.old) }
        ensures within { IsOnDisk (sectors_of (medium_of sectors.now)) self.new.progress }
    {
        match sectors.found(self.task.sector()) {
            Ok(sector) => {
                self.progress = Progress::Write { sector, word: 0 };
                self.request = request;
            }
            Err(fault) => self.fail(fault),
        }
    }

    /// Goes on after a sector was stored.
    #[tactic(auto, unfolding(device_spec::specs::Ata::Commands::sector_written))]
    fn sector_written(&mut self, sector: u32, sectors: &Sectors)
        requires { sector < sectors_of (medium_of sectors.now) }
        ensures written { drive_of self.new ≡ sector_written (medium_of sectors.now) sector (drive_of self.old) }
        ensures within { IsOnDisk (sectors_of (medium_of sectors.now)) self.new.progress }
    {
        self.task.count_down();
        if self.task.count == 0 {
            self.finish();
            return;
        }
        self.task.name(sector + 1);
        self.begin_write(true, sectors);
    }

    /// Checks the addressed sectors in turn, up to the first that cannot be read, and moves no word.
    fn verify(&mut self, sectors: &Sectors)
        ensures verified { drive_of self.new
            ≡ verified (medium_of sectors.now) (left_of (registers_of self.old.task)) (drive_of self.old) }
        ensures within { IsOnDisk (sectors_of (medium_of sectors.now)) self.new.progress }
    {
        loop {
            let sector = match sectors.readable(self.task.sector()) {
                Ok(sector) => sector,
                Err(fault) => {
                    self.fail(fault);
                    return;
                }
            };
            self.task.count_down();
            if self.task.count == 0 {
                self.finish();
                return;
            }
            self.task.name(sector + 1);
        }
    }

    /// Leaves the signature, as a reset does.
    pub fn sign(&mut self)
        ensures signed { drive_of self.new ≡ reset_drive (registers_of self.old.task) }
        ensures within { (count : ℕ) → IsOnDisk count self.new.progress }
    {
        self.task.sign();
        self.progress = Progress::Idle;
        self.request = false;
    }

    /// Accepts the default geometry, 63 sectors and 16 heads, and aborts at any other.
    fn set_geometry(&mut self)
        ensures set { drive_of self.new ≡ geometry_set (drive_of self.old) }
        ensures within { (count : ℕ) → IsOnDisk count self.new.progress }
    {
        if self.task.count == TRACK_SECTORS && self.task.head() == HEADS - 1 {
            self.finish();
        } else {
            self.fail(Fault::Aborted);
        }
    }

    /// Accepts the features that need no effect on this drive, and aborts at any other.
    fn set_features(&mut self)
        ensures set { drive_of self.new ≡ feature_set (drive_of self.old) }
        ensures within { (count : ℕ) → IsOnDisk count self.new.progress }
    {
        match self.task.features {
            feature::WRITE_CACHE
            | feature::TRANSFER_MODE
            | feature::NO_LOOK_AHEAD
            | feature::KEEP_OVER_RESET
            | feature::NO_WRITE_CACHE
            | feature::LOOK_AHEAD
            | feature::POWER_ON_AT_RESET => self.finish(),
            _ => self.fail(Fault::Aborted),
        }
    }

    /// Makes the words of IDENTIFY DEVICE ready.
    fn begin_identify(&mut self)
        ensures begun { drive_of self.new ≡ identifies (drive_of self.old) }
        ensures within { (count : ℕ) → IsOnDisk count self.new.progress }
    {
        self.progress = Progress::Identify { word: 0 };
        self.request = true;
    }

    /// Ends what was under way, the request and the error.
    fn begin(&mut self)
        ensures begun { drive_of self.new ≡ begun (drive_of self.old) }
        ensures within { (count : ℕ) → IsOnDisk count self.new.progress }
    {
        self.task.error = 0x00;
        self.progress = Progress::Idle;
        self.request = false;
    }

    /// Does what a command says, and aborts at an unknown code.
    #[tactic(auto, unfolding(device_spec::specs::Ata::Commands::obeyed))]
    fn run_command(&mut self, code: u8, sectors: &Sectors)
        ensures obeyed { drive_of self.new ≡ obeyed (medium_of sectors.now) code (drive_of self.old) }
        ensures within { IsOnDisk (sectors_of (medium_of sectors.now)) self.new.progress }
    {
        match code {
            command::READ_SECTORS => self.begin_read(sectors),
            command::WRITE_SECTORS => self.begin_write(false, sectors),
            command::VERIFY_SECTORS => self.verify(sectors),
            command::DIAGNOSE => {
                self.sign();
                self.finish();
            }
            command::SET_GEOMETRY => self.set_geometry(),
            command::FLUSH_CACHE => self.finish(),
            command::IDENTIFY => self.begin_identify(),
            command::SET_FEATURES => self.set_features(),
            _ => self.fail(Fault::Aborted),
        }
    }

    /// Whether a command is ignored: under SRST, and at drive 1 all but the diagnosis of both drives.
    fn ignores(&self, code: u8) -> bool
        ensures ignores { result ≡ is_ignored (registers_of self.now.task) code }
    {
        self.task.srst || self.task.is_drive_one() && code != command::DIAGNOSE
    }

    /// Begins a command, which ends what was under way, or ignores it.
    #[tactic(auto, unfolding(device_spec::specs::Ata::Commands::commanded))]
    pub fn command(&mut self, code: u8, sectors: &Sectors)
        requires { IsOnDisk (sectors_of (medium_of sectors.now)) self.old.progress }
        ensures commanded { drive_of self.new ≡ commanded (medium_of sectors.now) code (drive_of self.old) }
        ensures within { IsOnDisk (sectors_of (medium_of sectors.now)) self.new.progress }
    {
        if self.ignores(code) {
            return;
        }
        self.begin();
        self.run_command(code, sectors);
    }

    /// Writes a register of the task file. Ignored under SRST and while words are to move.
    #[tactic(auto, unfolding(device_spec::specs::Ata::Steps::register_written))]
    pub fn write_register(&mut self, port: u16, byte: u8)
        ensures written { drive_of self.new ≡ register_written port byte (drive_of self.old) }
        ensures same { self.new.progress ≡ self.old.progress }
    {
        if self.task.srst || self.is_drq() {
            return;
        }
        self.task.write(port, byte);
    }

    /// Writes device control. SRST takes the request away, and as it is cleared the signature stands.
    #[tactic(auto, unfolding(device_spec::specs::Ata::Steps::control_written))]
    pub fn write_control(&mut self, byte: u8)
        ensures written { drive_of self.new ≡ control_written byte (drive_of self.old) }
        ensures within { (count : ℕ) → IsOnDisk count self.old.progress → IsOnDisk count self.new.progress }
    {
        let was_reset = self.task.srst;
        self.task.write_control(byte);
        if self.task.srst {
            self.request = false;
        } else if was_reset {
            self.sign();
        }
    }

    /// The register at a port, as it reads.
    pub fn read_register(&self, port: u16) -> u8
        ensures register { result ≡ register_of port (drive_of self.now) }
    {
        match port {
            DISK_ERROR => self.task.error,
            DISK_COUNT => self.task.count,
            DISK_LOW => self.task.low,
            DISK_MID => self.task.mid,
            DISK_HIGH => self.task.high,
            DISK_DEVICE => self.task.device,
            _ => self.status(),
        }
    }

    /// The word that the data port gives.
    pub fn word(&self, sectors: &Sectors) -> u16
        requires { IsOnDisk (sectors_of (medium_of sectors.now)) self.now.progress }
        ensures word { result ≡ word_of (record { medium = medium_of sectors.now; drive = drive_of self.now }) }
    {
        if !self.is_drq() {
            return NO_WORD;
        }
        match self.progress {
            Progress::Read { sector, word } => sectors.word(sector, word),
            Progress::Identify { word } => identify_word(sectors.count(), word),
            Progress::Idle | Progress::Error | Progress::Write { .. } => NO_WORD,
        }
    }

    /// Goes on after a word was read.
    #[tactic(auto, unfolding(device_spec::specs::Ata::Steps::after_word))]
    pub fn next_word(&mut self, sectors: &Sectors)
        requires { IsOnDisk (sectors_of (medium_of sectors.now)) self.old.progress }
        ensures next { drive_of self.new ≡ after_word (medium_of sectors.now) (drive_of self.old) }
        ensures within { IsOnDisk (sectors_of (medium_of sectors.now)) self.new.progress }
    {
        if !self.is_drq() {
            return;
        }
        match self.progress {
            Progress::Read {
                sector,
                word: LAST_WORD,
            } => self.sector_read(sector, sectors),
            Progress::Read { sector, word } => {
                self.progress = Progress::Read {
                    sector,
                    word: word + 1,
                };
            }
            Progress::Identify { word: LAST_WORD } => self.progress = Progress::Idle,
            Progress::Identify { word } => self.progress = Progress::Identify { word: word + 1 },
            Progress::Idle | Progress::Error | Progress::Write { .. } => {}
        }
    }

    /// Takes a word of a sector that is written. The last one stores the sector.
    #[tactic(auto, unfolding(device_spec::specs::Ata::Steps::word_written))]
    pub fn write_word(&mut self, value: u16, sectors: &mut Sectors)
        requires { IsOnDisk (sectors_of (medium_of sectors.old)) self.old.progress }
        ensures written { record { medium = medium_of sectors.new; drive = drive_of self.new }
            ≡ word_written value (record { medium = medium_of sectors.old; drive = drive_of self.old }) }
        ensures within { IsOnDisk (sectors_of (medium_of sectors.new)) self.new.progress }
    {
        if !self.is_drq() {
            return;
        }
        let Progress::Write { sector, word } = self.progress else {
            return;
        };
        put_word(&mut self.buffer, word, value);
        if word < LAST_WORD {
            self.progress = Progress::Write {
                sector,
                word: word + 1,
            };
            return;
        }
        sectors.store(sector, &self.buffer);
        self.progress = Progress::Idle;
        self.sector_written(sector, sectors);
    }
}

/// Puts a word into a sector's buffer, its lower byte first.
#[tactic(auto, using(crate::proofs::Words::word_put))]
fn put_word(buffer: &mut [u8], word: u8, value: u16)
    requires { length buffer.old ≡ 512 }
    ensures put { take (2 * word + 2) buffer.new ≡ take (2 * word) buffer.old ++ value % 256 ∷ value / 256 ∷ [] }
{
    let at = 2 * word as usize;
    LittleEndian::write_u16(&mut buffer[at..at + 2], value);
}
