//! The state of the drive as bytes, out and in.

ghost use Rattle.std.specs.Prelude.{◌≡◌, ◌++◌, ◌-◌, ◌<◌, ◌≤◌, nat_lt, OnOk, IfOk, take, length, ℕ, List};
ghost use Rattle.byte_fields.specs.Fields.{Took, bound_where, plain};
ghost use Rattle.ata_pio.specs.View.{registers_of, activity_of, drive_of, IsOnDisk};
ghost use Rattle.ata_pio.specs.DriveState.{AreRegisters, registers_bytes, registers_fields, IsActivity, number_of};
ghost use Rattle.ata_pio.specs.DriveState.{sector_of, next_word_of, came_of, came_size, activity_bytes, activity_with};
ghost use Rattle.ata_pio.specs.DriveState.{activity_fields, under_way_view, IsDrive, drive_bytes, drive_fields};

use crate::controller::{Controller, Progress};
use crate::sectors::SECTOR_BYTES;
use crate::task_file::TaskFile;
use board_base::NoMemory;
use byte_fields::{Bad, Fields, push_byte, push_bytes, push_flag, push_word};

/// The numbers of what is under way. From `IDENTIFY` on a word comes next, from `READ` on it is one of a sector.
const IDLE: u8 = 0;

const ERROR: u8 = 1;

const IDENTIFY: u8 = 2;

const READ: u8 = 3;

const WRITE: u8 = 4;

/// What is under way, and the words of a sector that have come.
#[derive(Clone, Copy)]
struct UnderWay {
    progress: Progress,
    buffer: [u8; SECTOR_BYTES],
}

impl TaskFile {
    /// The registers, SRST and nIEN, a byte each.
    fn bytes(&self) -> [u8; 9]
        ensures bytes { result ≡ registers_bytes (registers_of self.now) }
    {
        [
            self.features,
            self.error,
            self.count,
            self.low,
            self.mid,
            self.high,
            self.device,
            u8::from(self.srst),
            u8::from(self.nien),
        ]
    }

    /// Does nothing: its clause says that the registers are bytes.
    fn is_sound(&self)
        ensures sound { AreRegisters (registers_of self.now) }
    {
        let bytes = self.bytes();
        Fields::of(&bytes).are_bytes();
    }

    /// Reads the registers, SRST and nIEN.
    #[tactic(auto, unfolding(crate::specs::DriveState::registers_fields))]
    fn read_state(fields: &mut Fields) -> Result<TaskFile, Bad>
        ensures took { Took registers_of result fields.new (registers_fields fields.old) }
    {
        let features = fields.byte(0, u8::MAX)?;
        let error = fields.byte(0, u8::MAX)?;
        let count = fields.byte(0, u8::MAX)?;
        let low = fields.byte(0, u8::MAX)?;
        let mid = fields.byte(0, u8::MAX)?;
        let high = fields.byte(0, u8::MAX)?;
        let device = fields.byte(0, u8::MAX)?;
        let srst = fields.flag()?;
        let nien = fields.flag()?;
        Ok(TaskFile {
            features,
            error,
            count,
            low,
            mid,
            high,
            device,
            srst,
            nien,
        })
    }
}

impl Progress {
    /// The number of what is under way.
    fn number(self) -> u8
        ensures number { (buffer : List ℕ) → result ≡ number_of (activity_of buffer self) }
    {
        match self {
            Progress::Idle => IDLE,
            Progress::Error => ERROR,
            Progress::Identify { .. } => IDENTIFY,
            Progress::Read { .. } => READ,
            Progress::Write { .. } => WRITE,
        }
    }

    /// Its sector, 0 where it has none.
    fn sector(self) -> u32
        ensures sector { (buffer : List ℕ) → result ≡ sector_of (activity_of buffer self) }
    {
        match self {
            Progress::Idle | Progress::Error | Progress::Identify { .. } => 0,
            Progress::Read { sector, .. } | Progress::Write { sector, .. } => sector,
        }
    }

    /// The word that comes next, 0 where none does.
    fn word(self) -> u8
        ensures word { (buffer : List ℕ) → length buffer ≡ 512 → result ≡ next_word_of (activity_of buffer self) }
        ensures small { result < 256 }
    {
        match self {
            Progress::Idle | Progress::Error => 0,
            Progress::Identify { word }
            | Progress::Read { word, .. }
            | Progress::Write { word, .. } => word,
        }
    }

    /// How many bytes of a sector have come.
    fn came(self) -> usize
        ensures came { (buffer : List ℕ) → take result buffer ≡ came_of (activity_of buffer self) }
        ensures room { result ≤ 512 }
    {
        match self {
            Progress::Write { word, .. } => 2 * usize::from(word),
            Progress::Idle | Progress::Error | Progress::Identify { .. } | Progress::Read { .. } =>
                0,
        }
    }

    /// Does nothing: its clause says that what is under way at a disk of so many sectors is sound.
    fn is_sound(self, sectors: u32)
        requires on_disk { IsOnDisk sectors self }
        ensures sound { (buffer : List ℕ) → length buffer ≡ 512 → IsActivity sectors (activity_of buffer self) }
    {
        let _ = self.word();
    }

    /// What has this number, this sector and this word.
    fn of_numbers(number: u8, sector: u32, word: u8) -> Progress
        ensures shown { (buffer : List ℕ)
            → activity_of buffer result ≡ activity_with number sector word (take (came_size number word) buffer) }
        ensures within { (sectors : ℕ) → (2 < number → sector < sectors) → IsOnDisk sectors result }
    {
        match number {
            IDLE => Progress::Idle,
            ERROR => Progress::Error,
            IDENTIFY => Progress::Identify { word },
            READ => Progress::Read { sector, word },
            _ => Progress::Write { sector, word },
        }
    }
}

/// The largest sector that can stand beside this number at a disk of so many: 0 where there is none.
fn last_sector(number: u8, sectors: u32) -> u32
    requires some { 0 < sectors }
    ensures last { result ≡ bound_where (nat_lt 2 number) (sectors - 1) }
    ensures below { result < sectors }
{
    if IDENTIFY < number { sectors - 1 } else { 0 }
}

/// The largest word that can stand beside this number: 0 where there is none.
fn last_word(number: u8) -> u8
    ensures last { result ≡ bound_where (nat_lt 1 number) 255 }
{
    if ERROR < number { u8::MAX } else { 0 }
}

/// How many bytes of a sector have come where this number and this word stand.
fn came_size(number: u8, word: u8) -> usize
    ensures size { result ≡ came_size number word }
    ensures room { result ≤ 512 }
{
    if READ < number {
        2 * usize::from(word)
    } else {
        0
    }
}

/// Reads so many bytes of a sector into the front of a buffer for all.
fn read_came(fields: &mut Fields, size: usize, buffer: &mut [u8; SECTOR_BYTES]) -> Result<(), Bad>
    requires few { size ≤ 512 }
    ensures took { Took (λ _. take size buffer.new) result fields.new (plain size fields.old) }
{
    let came = fields.bytes(size)?;
    buffer[..size].copy_from_slice(came);
    Ok(())
}

impl UnderWay {
    /// Reads what is under way at a disk of so many sectors.
    #[tactic(auto, unfolding(crate::specs::DriveState::activity_fields))]
    fn read(fields: &mut Fields, sectors: u32) -> Result<UnderWay, Bad>
        requires some { 0 < sectors }
        ensures took { Took under_way_view result fields.new (activity_fields sectors fields.old) }
        ensures within { IfOk result (λ under_way. IsOnDisk sectors under_way.progress) }
    {
        let number = fields.byte(IDLE, WRITE)?;
        let sector = fields.word(0, last_sector(number, sectors))?;
        let word = fields.byte(0, last_word(number))?;
        let mut buffer = [0; SECTOR_BYTES];
        read_came(fields, came_size(number, word), &mut buffer)?;
        let progress = Progress::of_numbers(number, sector, word);
        Ok(UnderWay { progress, buffer })
    }
}

impl Controller {
    /// Does nothing: its clause says that the state of each drive is sound.
    pub fn is_sound(&self, sectors: u32)
        requires on_disk { IsOnDisk sectors self.now.progress }
        ensures sound { IsDrive sectors (drive_of self.now) }
    {
        self.task.is_sound();
        self.progress.is_sound(sectors);
    }

    /// Adds what is under way.
    fn save_activity(&self, into: &mut Vec<u8>) -> Result<(), NoMemory>
        ensures saved { OnOk result
            (into.new.items ≡ into.old.items ++ activity_bytes (drive_of self.now).activity) }
    {
        push_byte(into, self.progress.number())?;
        push_word(into, self.progress.sector())?;
        push_byte(into, self.progress.word())?;
        push_bytes(into, &self.buffer[..self.progress.came()])
    }

    /// Adds the registers, what is under way, and the request.
    pub fn save_state(&self, into: &mut Vec<u8>) -> Result<(), NoMemory>
        ensures saved { OnOk result (into.new.items ≡ into.old.items ++ drive_bytes (drive_of self.now)) }
    {
        push_bytes(into, &self.task.bytes())?;
        self.save_activity(into)?;
        push_flag(into, self.request)
    }

    /// Reads the registers, what is under way at a disk of so many sectors, and the request.
    #[tactic(auto, unfolding(crate::specs::DriveState::drive_fields))]
    pub fn read_state(fields: &mut Fields, sectors: u32) -> Result<Controller, Bad>
        requires some { 0 < sectors }
        ensures took { Took drive_of result fields.new (drive_fields sectors fields.old) }
        ensures within { IfOk result (λ controller. IsOnDisk sectors controller.progress) }
    {
        let task = TaskFile::read_state(fields)?;
        let under_way = UnderWay::read(fields, sectors)?;
        let request = fields.flag()?;
        let buffer = under_way.buffer;
        Ok(Controller {
            task,
            progress: under_way.progress,
            request,
            buffer,
        })
    }
}
