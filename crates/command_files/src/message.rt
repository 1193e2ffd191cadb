//! The text of each status, for a person.

ghost use Rattle.std.specs.Prelude.{◌≡◌, string_bytes, IfOk};
ghost use Rattle.command_files.specs.FaultText.{kind_text, text_of};

use crate::status::{Status, Which};
use board_base::NoMemory;
use command_words::USAGE;
use logs::Line;
use std::alloc::{AllocError, Global};

fn kind_text(which: Which) -> &'static str
    ensures name { result.now ≡ kind_text which }
{
    match which {
        Which::Script => "script",
        Which::Rom => "rom",
        Which::Disk => "disk",
        Which::Log => "log",
        Which::Image => "image",
        Which::Input => "input",
    }
}

fn text_of(alloc: Global, status: &Status) -> Result<String, AllocError>
    ensures text { IfOk result (λ text. string_bytes text ≡ text_of status.now) }
{
    match status {
        Status::Done => Ok(String::new(alloc)),
        Status::Usage => String::from_str(alloc, USAGE),
        Status::ReadFault(which) => format!(in alloc; "read fault: {}", kind_text(*which)),
        Status::WriteFault => String::from_str(alloc, "write fault"),
        Status::TooLong(which) => format!(in alloc; "too long: {}", kind_text(*which)),
        Status::BadScript { line, why } => format!(in alloc;
            "bad script: line {line}: reason {why}"
        ),
        Status::BadImage(which) => format!(in alloc; "bad image: {}", kind_text(*which)),
        Status::Differs { line } => format!(in alloc; "differs: line {line}"),
        Status::NoMemory => String::from_str(alloc, "no memory"),
        Status::OtherBoard => String::from_str(alloc, "other board"),
    }
}

/// The text of a status, for standard error. It is empty for Done.
pub fn fault_text(alloc: Global, status: &Status) -> Result<Line, NoMemory>
    ensures text { IfOk result (λ line. line ≡ text_of status.now) }
{
    let text = text_of(alloc, status)?;
    Ok(Line::new(text))
}
