//! What a line of a script says.

ghost use Rattle.std.specs.Prelude.{◌≡◌, ℕ, option_map, bytes_eq, IfSome};
ghost use Rattle.std.specs.Option.{IfNone};
ghost use Rattle.std.specs.List.{list_all};
ghost use Rattle.script_spec.specs.Grammar.{SetCpus, SetMemory, SetRom, SetDisk, FitCard, HasForm, is_name_start};
ghost use Rattle.script_spec.specs.Grammar.{is_name_byte};
ghost use Rattle.script_spec.specs.Events.{parse_number};
ghost use Rattle.script_spec.specs.Cards.{parse_card};
ghost use Rattle.script_spec.specs.Items.{ask, parse_stimulus_item, parse_only_moment, parse_time_item, parse_by_verb};
ghost use Rattle.script_spec.specs.Items.{parse_statement_words, is_name, parse_name, parse_phase, parse_statement};
ghost use Rattle.script_spec.specs.Items.{parse_by_key, parse_item};
ghost use Rattle.scripts.specs.Items.{moment_said, asked_said, line_said, HasNoForm};

use crate::card::{CardFields, parse_card};
use crate::event::{
    parse_ack, parse_given, parse_in, parse_look, parse_number, parse_out, parse_read, parse_write,
};
use crate::fields::Fields;
use crate::moment::{MomentFields, parse_moment};
use crate::numbers::parse_decimal;
use board_base::Kind;
use board_spec::{Event, Stimulus};

/// The longest name, in bytes.
const LONGEST_NAME: usize = 64;

/// The event of a statement, with numbers that may be out of range.
#[derive(Clone, Copy, PartialEq, Eq)]
pub enum Asked {
    Event(Event),
    Moment(MomentFields),
    /// A stimulus with its number, and its level, which may be neither 0 nor 1. The level is 0 where it has none.
    Stimulus {
        stimulus: Stimulus,
        number: u32,
        level: u32,
    },
}

/// What a line of a script says, with numbers that may be out of range.
#[derive(Drop)]
pub enum Item<'a> {
    Cpus(u32),
    Memory(u32),
    Rom(&'a [u8]),
    Disk(&'a [u8]),
    Card(CardFields),
    Phase,
    Statement { actor: u32, asked: Asked },
}

/// Whether a field is this word.
pub fn is_word(field: &[u8], word: &str) -> bool
    ensures same { result ≡ bytes_eq field.now word.now }
{
    field == word.as_bytes()
}

// ---- statements

#[tactic(auto, unfolding(script_spec::specs::Items::parse_only_moment))]
fn parse_only_moment(words: Fields<'_>) -> Option<MomentFields>
    ensures moment { option_map moment_said result ≡ parse_only_moment words.entry }
{
    let field = words.only()?;
    parse_moment(field)
}

#[tactic(auto, unfolding(script_spec::specs::Items::parse_time_item))]
fn parse_time_item(words: Fields<'_>) -> Option<Asked>
    ensures asked { (actor : ℕ) → option_map (asked_said actor) result ≡ parse_time_item actor words.entry }
{
    let moment = parse_only_moment(words)?;
    Some(Asked::Moment(moment))
}

#[tactic(auto, unfolding(script_spec::specs::Items::parse_stimulus_item))]
fn parse_stimulus_item(verb: &[u8], words: Fields<'_>) -> Option<Asked>
    ensures asked { (actor : ℕ) → option_map (asked_said actor) result
        ≡ parse_stimulus_item actor verb.now words.entry }
{
    let stimulus = Stimulus::of_word(verb)?;
    let (number, level) = parse_given(stimulus, words)?;
    Some(Asked::Stimulus {
        stimulus,
        number,
        level,
    })
}

/// The event that was found.
#[inline(always)]
fn ask_event(found: Option<Event>) -> Option<Asked>
    ensures asked { (actor : ℕ) → option_map (asked_said actor) result ≡ option_map (ask actor) found }
{
    let event = found?;
    Some(Asked::Event(event))
}

#[tactic(auto, unfolding(script_spec::specs::Items::parse_by_verb))]
fn parse_by_verb(version: u8, verb: &[u8], words: Fields<'_>) -> Option<Asked>
    ensures asked { (actor : ℕ) → option_map (asked_said actor) result
        ≡ parse_by_verb version actor verb.now words.entry }
{
    if is_word(verb, "r") {
        return ask_event(parse_read(version, Kind::Read, words));
    }
    if is_word(verb, "f") {
        return ask_event(parse_read(version, Kind::Fetch, words));
    }
    if is_word(verb, "w") {
        return ask_event(parse_write(version, words));
    }
    if is_word(verb, "in") {
        return ask_event(parse_in(words));
    }
    if is_word(verb, "out") {
        return ask_event(parse_out(words));
    }
    if is_word(verb, "look") {
        return ask_event(parse_look(words));
    }
    if is_word(verb, "ack") {
        return ask_event(parse_ack(words));
    }
    if is_word(verb, "moment") {
        return parse_time_item(words);
    }
    parse_stimulus_item(verb, words)
}

/// The event of a statement, by the fields of its line after the processor's number.
#[tactic(auto, unfolding(script_spec::specs::Items::parse_statement_words))]
fn parse_statement_words(version: u8, words: Fields<'_>) -> Option<Asked>
    ensures asked { (actor : ℕ) → option_map (asked_said actor) result
        ≡ parse_statement_words version actor words.entry }
{
    let (verb, words) = words.next()?;
    parse_by_verb(version, verb, words)
}

// ---- names

/// A name begins with a letter, a digit or `_`.
fn is_name_start(byte: u8) -> bool
    ensures start { result ≡ is_name_start byte }
{
    byte.is_ascii_alphanumeric() || byte == b'_'
}

/// A name has these, `.` and `-`.
fn is_name_byte(byte: u8) -> bool
    ensures byte { result ≡ is_name_byte byte }
{
    is_name_start(byte) || byte == b'.' || byte == b'-'
}

fn are_name_bytes(bytes: &[u8]) -> bool
    ensures bytes { result ≡ list_all is_name_byte bytes.now }
{
    bytes.iter().all(|byte| is_name_byte(*byte))
}

/// Whether these bytes are a name of a file: 1 to 64 such bytes.
#[tactic(auto, unfolding(script_spec::specs::Items::is_name))]
fn is_name(bytes: &[u8]) -> bool
    ensures name { result ≡ is_name bytes.now }
{
    match bytes {
        [] => false,
        [first, ..] => bytes.len() <= LONGEST_NAME
            && is_name_start(*first)
            && are_name_bytes(bytes),
    }
}

/// The name that is the only field.
#[tactic(auto, unfolding(script_spec::specs::Items::parse_name))]
fn parse_name<'a>(words: Fields<'a>) -> Option<&'a [u8]>
    ensures name { option_map (λ name. name.now) result ≡ parse_name words.entry }
{
    let name = words.only()?;
    if is_name(name) { Some(name) } else { None }
}

// ---- all lines

#[tactic(auto, unfolding(script_spec::specs::Items::parse_phase))]
fn parse_phase<'a>(words: Fields<'a>) -> Option<Item<'a>>
    ensures item { option_map line_said result ≡ parse_phase words.entry }
{
    words.end()?;
    Some(Item::Phase)
}

fn parse_cpus<'a>(words: Fields<'a>) -> Option<Item<'a>>
    ensures item { option_map line_said result ≡ option_map SetCpus (parse_number words.entry) }
{
    let count = parse_number(words)?;
    Some(Item::Cpus(count))
}

fn parse_memory<'a>(words: Fields<'a>) -> Option<Item<'a>>
    ensures item { option_map line_said result ≡ option_map SetMemory (parse_number words.entry) }
{
    let mib = parse_number(words)?;
    Some(Item::Memory(mib))
}

fn parse_rom<'a>(words: Fields<'a>) -> Option<Item<'a>>
    ensures item { option_map line_said result ≡ option_map SetRom (parse_name words.entry) }
{
    let name = parse_name(words)?;
    Some(Item::Rom(name))
}

fn parse_disk<'a>(words: Fields<'a>) -> Option<Item<'a>>
    ensures item { option_map line_said result ≡ option_map SetDisk (parse_name words.entry) }
{
    let name = parse_name(words)?;
    Some(Item::Disk(name))
}

fn parse_fitted_card<'a>(version: u8, words: Fields<'a>) -> Option<Item<'a>>
    ensures item { option_map line_said result ≡ option_map FitCard (parse_card version words.entry) }
{
    let card = parse_card(version, words)?;
    Some(Item::Card(card))
}

#[tactic(auto, unfolding(script_spec::specs::Items::parse_statement))]
fn parse_statement<'a>(version: u8, actor: &[u8], words: Fields<'a>) -> Option<Item<'a>>
    ensures item { option_map line_said result ≡ parse_statement version actor.now words.entry }
{
    let actor = parse_decimal(actor)?;
    let asked = parse_statement_words(version, words)?;
    Some(Item::Statement { actor, asked })
}

#[tactic(auto, unfolding(script_spec::specs::Items::parse_by_key))]
fn parse_by_key<'a>(version: u8, key: &[u8], words: Fields<'a>) -> Option<Item<'a>>
    ensures item { option_map line_said result ≡ parse_by_key version key.now words.entry }
{
    if is_word(key, "phase") {
        return parse_phase(words);
    }
    if is_word(key, "cpus") {
        return parse_cpus(words);
    }
    if is_word(key, "memory") {
        return parse_memory(words);
    }
    if is_word(key, "rom") {
        return parse_rom(words);
    }
    if is_word(key, "disk") {
        return parse_disk(words);
    }
    if is_word(key, "card") {
        return parse_fitted_card(version, words);
    }
    parse_statement(version, key, words)
}

/// What a line says, by its fields.
#[tactic(auto, unfolding(script_spec::specs::Items::parse_item))]
fn parse_fields<'a>(version: u8, fields: Fields<'a>) -> Option<Item<'a>>
    ensures item { option_map line_said result ≡ parse_item version fields.entry }
{
    let (key, words) = fields.next()?;
    parse_by_key(version, key, words)
}

/// What a line of a script of this version, 1 or 2, says after the first line. None exactly where the line has no form
/// of the version; an item's numbers may be out of range.
#[tactic(auto, using(crate::proofs::ItemReading::said, crate::proofs::ItemReading::unsaid))]
pub fn parse_item(version: u8, line: &[u8]) -> Option<Item<'_>>
    ensures says { IfSome result (λ item. HasForm version line.now (line_said item)) }
    ensures none { IfNone result (HasNoForm version line.now) }
{
    let fields = Fields::of(line);
    parse_fields(version, fields)
}
