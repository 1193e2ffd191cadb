//! The words of the command line.

ghost use Rattle.std.specs.Prelude.{◌≡◌, option_map, map, string_bytes, IfSome};
ghost use Rattle.script_spec.specs.Numbers.{parse_hex};
ghost use Rattle.command_words.specs.Words.{Check, Resume, Serial, command_said, usage_text, name_of, names_of};
ghost use Rattle.command_words.specs.Words.{with_names, is_round_count, make_of, is_transfer, dma_with, direction_of};
ghost use Rattle.command_words.specs.Words.{dma_of, IsCommand, WordsDecide, OneCommand, script_name};
ghost use Rattle.command_words.specs.Commands.{said_by};

use crate::transfer::Transfer;
use board_spec::stimulus::LAST_SECTOR;
use scripts::{parse_decimal, parse_hex};

/// The usage text: the form of each command. Standard error gets it where the words are no command.
pub const USAGE: &str =
    "usage: board replay FILE, run FILE, map FILE, check FILE LOG, make N, dma FILE in|out TABLE LBA COUNT, save FILE, resume IMAGE FILE, serial FILE INPUT, blame FILE";

/// A command, with the file names and numbers that its words give.
#[derive(Clone, Copy)]
pub enum Command<'a> {
    /// Writes the log of a run of a script, with a thread for each processor. It alone may wait.
    Run(&'a str),
    /// A command that a single thread does.
    Alone(Alone<'a>),
}

/// A command that a single thread does, which waits for nobody.
#[derive(Clone, Copy)]
pub enum Alone<'a> {
    /// Writes the log of the replay of a script.
    Replay(&'a str),
    /// Writes the address map after that replay.
    Map(&'a str),
    /// Writes how many entries a log has, where it is that of a legal history of a script.
    Check { script: &'a str, log: &'a str },
    /// Writes the summary of the replay of a script that the program makes, of 1 to 20,000 rounds. It reads no file.
    Make(u32),
    /// Writes how a transfer of the bus master ended, which is done after the replay of a script.
    Dma { script: &'a str, transfer: Transfer },
    /// Writes the image of the board after the replay of a script.
    Save(&'a str),
    /// Writes the log of the board of an image, which goes on with a script.
    Resume { image: &'a str, script: &'a str },
    /// Writes the bytes that the serial port sends during a replay, while it receives those of the input.
    Serial { script: &'a str, input: &'a str },
    /// Writes the address map after a replay with the map writes that made it.
    Blame(&'a str),
}

/// The script that a command names.
pub fn script_name<'a>(command: &'a Command) -> Option<&'a str>
    ensures name { option_map (λ name. name.now) result ≡ script_name (said_by command.now) }
{
    match command {
        Command::Run(script) => Some(script),
        Command::Alone(Alone::Replay(script)) => Some(script),
        Command::Alone(Alone::Map(script)) => Some(script),
        Command::Alone(Alone::Check { script, .. }) => Some(script),
        Command::Alone(Alone::Make(_)) => None,
        Command::Alone(Alone::Dma { script, .. }) => Some(script),
        Command::Alone(Alone::Save(script)) => Some(script),
        Command::Alone(Alone::Resume { script, .. }) => Some(script),
        Command::Alone(Alone::Serial { script, .. }) => Some(script),
        Command::Alone(Alone::Blame(script)) => Some(script),
    }
}

/// The most rounds that `make` makes.
const MOST_ROUNDS: u32 = 20_000;

/// How many hexadecimal digits an address has.
const ADDRESS_DIGITS: usize = 8;

/// A descriptor table is at an address that is a multiple of this.
const TABLE_ALIGNMENT: u32 = 4;

/// The most sectors that a transfer moves.
const MOST_SECTORS: u32 = 256;

/// The usage text.
pub fn usage() -> &'static str
    ensures text { result.now ≡ usage_text }
{
    USAGE
}

fn is_round_count(count: u32) -> bool
    ensures rounds { result ≡ is_round_count count }
{
    count >= 1 && count <= MOST_ROUNDS
}

/// The command `make` of its one word, a decimal of 1 to 20,000. None for other words.
#[tactic(auto, unfolding(crate::specs::Words::make_of))]
fn make_of<'a>(words: &'a [String]) -> Option<Command<'a>>
    ensures said { option_map said_by result ≡ make_of (map string_bytes words.now) }
    ensures called { IfSome result (λ command. IsCommand (said_by command)) }
{
    let [word] = words else {
        return None;
    };
    let count = parse_decimal(word.as_bytes())?;
    if is_round_count(count) {
        Some(Command::Alone(Alone::Make(count)))
    } else {
        None
    }
}

fn is_transfer(transfer: &Transfer) -> bool
    ensures transfer { result ≡ is_transfer transfer.now }
{
    transfer.table % TABLE_ALIGNMENT == 0
        && transfer.lba <= LAST_SECTOR
        && transfer.count >= 1
        && transfer.count <= MOST_SECTORS
}

/// The command `dma` of a script and a transfer. None where a number of the transfer is out of range.
fn dma_with<'a>(script: &'a str, transfer: Transfer) -> Option<Command<'a>>
    ensures said { option_map said_by result ≡ dma_with script.now transfer }
    ensures called { IfSome result (λ command. IsCommand (said_by command)) }
{
    if is_transfer(&transfer) {
        Some(Command::Alone(Alone::Dma { script, transfer }))
    } else {
        None
    }
}

/// Whether a transfer is to memory: `in` is, `out` is not. None for another word.
#[tactic(auto, unfolding(crate::specs::Words::direction_of))]
fn direction_of(word: &str) -> Option<bool>
    ensures direction { result ≡ direction_of word.now }
{
    match word {
        "in" => Some(true),
        "out" => Some(false),
        _ => None,
    }
}

/// The address that a word of eight hexadecimal digits spells. None for another word.
fn address_of(word: &str) -> Option<u32>
    ensures address { result ≡ parse_hex 8 word.now }
{
    let address = parse_hex(ADDRESS_DIGITS, word.as_bytes())?;
    Some(address as u32)
}

/// The command `dma` of its words: the script, `in` or `out`, the address of the table, the first sector, and how many
/// sectors. None for other words.
#[tactic(auto, unfolding(crate::specs::Words::dma_of))]
fn dma_of<'a>(words: &'a [String]) -> Option<Command<'a>>
    ensures said { option_map said_by result ≡ dma_of (map string_bytes words.now) }
    ensures called { IfSome result (λ command. IsCommand (said_by command)) }
{
    let [script, direction, table, lba, count] = words else {
        return None;
    };
    let to_memory = direction_of(direction.as_str())?;
    let table = address_of(table.as_str())?;
    let lba = parse_decimal(lba.as_bytes())?;
    let count = parse_decimal(count.as_bytes())?;
    dma_with(
        script.as_str(),
        Transfer {
            to_memory,
            table,
            lba,
            count,
        },
    )
}

/// The word, where there is one alone.
fn name_of(words: &[String]) -> Option<&str>
    ensures name { option_map (λ name. name.now) result ≡ name_of (map string_bytes words.now) }
{
    match words {
        [name] => Some(name.as_str()),
        _ => None,
    }
}

/// The two words, where there are two and no more.
fn names_of(words: &[String]) -> Option<(&str, &str)>
    ensures names { option_map (λ names. (names.0.now, names.1.now)) result ≡ names_of (map string_bytes words.now) }
{
    match words {
        [name, other] => Some((name.as_str(), other.as_str())),
        _ => None,
    }
}

/// The command `check` of its words: the script and the log.
fn check_of<'a>(words: &'a [String]) -> Option<Command<'a>>
    ensures said { option_map said_by result ≡ with_names Check (map string_bytes words.now) }
    ensures called { IfSome result (λ command. IsCommand (said_by command)) }
{
    let (script, log) = names_of(words)?;
    Some(Command::Alone(Alone::Check { script, log }))
}

/// The command `resume` of its words: the image, and then the script.
fn resume_of<'a>(words: &'a [String]) -> Option<Command<'a>>
    ensures said { option_map said_by result ≡ with_names Resume (map string_bytes words.now) }
    ensures called { IfSome result (λ command. IsCommand (said_by command)) }
{
    let (image, script) = names_of(words)?;
    Some(Command::Alone(Alone::Resume { image, script }))
}

/// The command `serial` of its words: the script and the input.
fn serial_of<'a>(words: &'a [String]) -> Option<Command<'a>>
    ensures said { option_map said_by result ≡ with_names Serial (map string_bytes words.now) }
    ensures called { IfSome result (λ command. IsCommand (said_by command)) }
{
    let (script, input) = names_of(words)?;
    Some(Command::Alone(Alone::Serial { script, input }))
}

/// The command that the words are. None where they are none: another first word, more or fewer words, or a number that
/// is out of its range or not spelled as in a script.
#[tactic(auto, unfolding(crate::specs::Words::command_of))]
pub fn command_of(words: &[String]) -> Option<Command<'_>>
    ensures said { option_map said_by result ≡ command_said words.now }
    ensures called { IfSome result (λ command. IsCommand (said_by command)) }
{
    let [verb, words @ ..] = words else {
        return None;
    };
    match verb.as_str() {
        "replay" => Some(Command::Alone(Alone::Replay(name_of(words)?))),
        "run" => Some(Command::Run(name_of(words)?)),
        "map" => Some(Command::Alone(Alone::Map(name_of(words)?))),
        "check" => check_of(words),
        "make" => make_of(words),
        "dma" => dma_of(words),
        "save" => Some(Command::Alone(Alone::Save(name_of(words)?))),
        "resume" => resume_of(words),
        "serial" => serial_of(words),
        "blame" => Some(Command::Alone(Alone::Blame(name_of(words)?))),
        _ => None,
    }
}

/// `command_of` finds a command exactly where the words are its words, and words are those of one command at most.
pub fn law_words()
    ensures decided { WordsDecide }
    ensures one { OneCommand }
{}
