//! The files that each command reads, in their order, and the names of those that stand in its words.

ghost use Rattle.std.specs.Prelude.{◌≡◌, option_map};
ghost use Rattle.command_words.specs.Commands.{said_by};
ghost use Rattle.command_files.specs.Table.{files_of, log_name, image_name, input_name, name_in_words};

use crate::status::Which;
use command_words::{Alone, Command, script_name};

/// The files of a script's board: the script, then the ROM and the disk that it names.
const WITH_BOARD: [Which; 3] = [Which::Script, Which::Rom, Which::Disk];

const WITH_LOG: [Which; 4] = [Which::Script, Which::Rom, Which::Disk, Which::Log];

const WITH_INPUT: [Which; 4] = [Which::Script, Which::Rom, Which::Disk, Which::Input];
/// The files of `resume`: no ROM and no disk, which are in the image.
const RESUMED: [Which; 2] = [Which::Image, Which::Script];

/// The files that a command reads, in their order.
pub(crate) fn files_of(command: &Command) -> &'static [Which]
    ensures files { result.now ≡ files_of (said_by command.now) }
{
    match command {
        Command::Alone(Alone::Check { .. }) => &WITH_LOG,
        Command::Alone(Alone::Make(_)) => &[],
        Command::Alone(Alone::Resume { .. }) => &RESUMED,
        Command::Alone(Alone::Serial { .. }) => &WITH_INPUT,
        _ => &WITH_BOARD,
    }
}

fn log_name<'a>(command: &'a Command) -> Option<&'a str>
    ensures name { option_map (λ name. name.now) result ≡ log_name (said_by command.now) }
{
    match command {
        Command::Alone(Alone::Check { log, .. }) => Some(log),
        _ => None,
    }
}

fn image_name<'a>(command: &'a Command) -> Option<&'a str>
    ensures name { option_map (λ name. name.now) result ≡ image_name (said_by command.now) }
{
    match command {
        Command::Alone(Alone::Resume { image, .. }) => Some(image),
        _ => None,
    }
}

fn input_name<'a>(command: &'a Command) -> Option<&'a str>
    ensures name { option_map (λ name. name.now) result ≡ input_name (said_by command.now) }
{
    match command {
        Command::Alone(Alone::Serial { input, .. }) => Some(input),
        _ => None,
    }
}

/// The name of a file that stands in the words themselves: those of ROM and disk stand in the script.
pub(crate) fn name_in_words<'a>(command: &'a Command, which: Which) -> Option<&'a str>
    ensures name { option_map (λ name. name.now) result ≡ name_in_words (said_by command.now) which }
{
    match which {
        Which::Script => script_name(command),
        Which::Log => log_name(command),
        Which::Image => image_name(command),
        Which::Input => input_name(command),
        Which::Rom | Which::Disk => None,
    }
}
