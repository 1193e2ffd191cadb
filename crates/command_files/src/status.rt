//! How a command ends: the status and its exit code.

ghost use Rattle.std.specs.Prelude.{◌≡◌};
ghost use Rattle.command_files.specs.Status.{code_of};

use board_base::NoMemory;
use board_core::BoardOpen;
use board_image::ImageFault;
use board_outside::PutFault;
use log_check::CheckFault;
use scripts::ScriptFault;

/// A file that a command reads.
#[derive(Clone, Copy, PartialEq, Eq, Debug)]
pub enum Which {
    Script,
    /// The BIOS ROM, which the script names.
    Rom,
    /// The disk, which the script names where one is fitted.
    Disk,
    /// The log that is checked.
    Log,
    /// The image that is resumed.
    Image,
    /// The bytes that the serial port receives.
    Input,
}

/// How a command ended.
#[derive(Clone, Copy, PartialEq, Eq, Debug)]
pub enum Status {
    /// All was done, and the whole text was written.
    Done,
    /// The words are no command.
    Usage,
    /// The shelf failed to read a file.
    ReadFault(Which),
    /// The sink failed to take the text.
    WriteFault,
    /// A file is longer than its limit.
    TooLong(Which),
    /// The script is refused: at a line, counted from 1, for a reason by its number.
    BadScript { line: u32, why: u8 },
    /// A ROM or a disk has a length that none can have, or an image is not one of a board.
    BadImage(Which),
    /// The log that is checked has a line, counted from 1, that no log of the script has after the lines before it.
    Differs { line: u32 },
    /// There was no memory.
    NoMemory,
    /// The script is for another board than that of the image: with other memory or other cards, or one of them has a
    /// disk and the other none.
    OtherBoard,
}

impl From<NoMemory> for Status {
    ghost use Rattle.std.specs.Prelude.{◌≡◌};
    ghost use Rattle.command_files.specs.declared.status.Status.{Status};

    ghost from_gives = { λ _ status. status ≡ Status.NoMemory };

    fn from(_: NoMemory) -> Status {
        Status::NoMemory
    }
}

impl From<ScriptFault> for Status {
    ghost use Rattle.std.specs.Prelude.{◌≡◌};
    ghost use Rattle.command_files.specs.Statuses.{status_of_script_fault};

    ghost from_gives = { λ fault status. status ≡ status_of_script_fault fault };

    fn from(fault: ScriptFault) -> Status {
        match fault {
            ScriptFault::Bad { line, why } => Status::BadScript { line, why },
            ScriptFault::NoMemory => Status::NoMemory,
        }
    }
}

impl From<BoardOpen> for Status {
    ghost use Rattle.std.specs.Prelude.{◌≡◌};
    ghost use Rattle.command_files.specs.Statuses.{status_of_board_fault};

    ghost from_gives = { λ fault status. status ≡ status_of_board_fault fault };

    fn from(fault: BoardOpen) -> Status {
        match fault {
            BoardOpen::BadRom => Status::BadImage(Which::Rom),
            BoardOpen::BadDisk => Status::BadImage(Which::Disk),
            BoardOpen::NoMemory => Status::NoMemory,
        }
    }
}

impl From<ImageFault> for Status {
    ghost use Rattle.std.specs.Prelude.{◌≡◌};
    ghost use Rattle.command_files.specs.Statuses.{status_of_image_fault};

    ghost from_gives = { λ fault status. status ≡ status_of_image_fault fault };

    fn from(fault: ImageFault) -> Status {
        match fault {
            ImageFault::Bad { .. } => Status::BadImage(Which::Image),
            ImageFault::NoMemory => Status::NoMemory,
        }
    }
}

impl From<CheckFault> for Status {
    ghost use Rattle.std.specs.Prelude.{◌≡◌};
    ghost use Rattle.command_files.specs.Statuses.{status_of_check_fault};

    ghost from_gives = { λ fault status. status ≡ status_of_check_fault fault };

    fn from(fault: CheckFault) -> Status {
        match fault {
            CheckFault::Differs { line } => Status::Differs { line },
            CheckFault::NoMemory => Status::NoMemory,
        }
    }
}

impl From<PutFault> for Status {
    ghost use Rattle.std.specs.Prelude.{◌≡◌};
    ghost use Rattle.command_files.specs.Statuses.{status_of_put_fault};

    ghost from_gives = { λ fault status. status ≡ status_of_put_fault fault };

    fn from(fault: PutFault) -> Status {
        match fault {
            PutFault::Failed => Status::WriteFault,
            PutFault::NoMemory => Status::NoMemory,
        }
    }
}

/// The exit code of the program for a status.
pub fn exit_code(status: &Status) -> u8
    ensures code { result ≡ code_of status.now }
{
    match status {
        Status::Done => 0,
        Status::Usage => 1,
        Status::ReadFault(_) => 2,
        Status::WriteFault => 3,
        Status::TooLong(_) => 4,
        Status::BadScript { .. } => 5,
        Status::BadImage(_) => 6,
        Status::Differs { .. } => 7,
        Status::NoMemory => 8,
        Status::OtherBoard => 9,
    }
}
