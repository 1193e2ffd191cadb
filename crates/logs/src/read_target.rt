//! What the words of a reply name: registers, denials, areas and targets. Hexadecimal digits are taken in either case.

ghost use Rattle.std.specs.Prelude.{◌≡◌, ◌<◌, IfSome, option_map};
ghost use Rattle.script_spec.specs.WellFormed.{FitsReg, FitsArea, FitsDevice, FitsTarget, FitsDenial};
ghost use Rattle.script_spec.specs.Numbers.{parse_hex};
ghost use Rattle.script_spec.specs.Targets.{parse_register, parse_denial_word, parse_denial, parse_area_of_kind};
ghost use Rattle.script_spec.specs.Targets.{parse_placed_area, parse_area, parse_target_of_kind, parse_placed_target};
ghost use Rattle.script_spec.specs.Targets.{parse_chip, parse_device, parse_other_target, parse_target};
ghost use Rattle.script_spec.specs.Targets.{parse_card_base, parse_card_target};

use crate::cuts::{cut, parse_one_digit};
use board_base::{Area, Denial, Dev, Reg, Target};
use board_spec::device::with_word;
use scripts::{is_word, parse_hex};

// ---- registers and denials

/// A register, `DD.F.OO`.
#[tactic(auto, unfolding(script_spec::specs::Targets::parse_register))]
fn parse_register(field: &[u8]) -> Option<Reg>
    ensures register { result ≡ parse_register field.now }
    ensures fits { IfSome result FitsReg }
{
    let (dev, rest) = cut(b'.', field)?;
    let (fun, off) = cut(b'.', rest)?;
    let dev = parse_hex(2, dev)?;
    let fun = parse_hex(1, fun)?;
    let off = parse_hex(2, off)?;
    Some(Reg {
        dev: dev as u8,
        fun: fun as u8,
        off: off as u8,
    })
}

/// A denial that is a word.
fn parse_denial_word(field: &[u8]) -> Option<Option<Denial>>
    ensures denial { result ≡ parse_denial_word field.now }
    ensures fits { IfSome result FitsDenial }
{
    if is_word(field, "-") {
        return Some(None);
    }
    if is_word(field, "confadd") {
        return Some(Some(Denial::Confadd));
    }
    if is_word(field, "none") {
        return Some(Some(Denial::NoRegister));
    }
    None
}

/// What denied an access: a register, or a word.
#[tactic(auto, unfolding(script_spec::specs::Targets::parse_denial))]
pub(crate) fn parse_denial(field: &[u8]) -> Option<Option<Denial>>
    ensures denial { result ≡ parse_denial field.now }
    ensures fits { IfSome result FitsDenial }
{
    match parse_register(field) {
        Some(reg) => Some(Some(Denial::Register(reg))),
        None => parse_denial_word(field),
    }
}

// ---- areas

/// A card's device and the number of its base, `D.B`.
#[tactic(auto, unfolding(script_spec::specs::Targets::parse_card_base))]
fn parse_card_base(field: &[u8]) -> Option<(u8, u8)>
    ensures base { result ≡ parse_card_base field.now }
    ensures below { IfSome result (λ p. (p.0 < 10) × (p.1 < 10)) }
{
    let (dev, base) = cut(b'.', field)?;
    let dev = parse_one_digit(dev)?;
    let base = parse_one_digit(base)?;
    Some((dev, base))
}

/// An area with a place after its word, like `dram:0`.
fn parse_area_of_kind(kind: &[u8], place: &[u8]) -> Option<Area>
    ensures area { result ≡ parse_area_of_kind kind.now place.now }
    ensures fits { IfSome result FitsArea }
{
    if is_word(kind, "dram") {
        return parse_one_digit(place).map(Area::Dram);
    }
    if is_word(kind, "shadow") {
        return parse_one_digit(place).map(Area::Shadow);
    }
    if is_word(kind, "card") {
        return parse_card_base(place).map(|(dev, base)| Area::Card(dev, base));
    }
    None
}

/// An area that is a word, a colon and a place.
#[tactic(auto, unfolding(script_spec::specs::Targets::parse_placed_area))]
fn parse_placed_area(field: &[u8]) -> Option<Area>
    ensures area { result ≡ parse_placed_area field.now }
    ensures fits { IfSome result FitsArea }
{
    let (kind, place) = cut(b':', field)?;
    parse_area_of_kind(kind, place)
}

/// The area of a look.
#[tactic(auto, unfolding(script_spec::specs::Targets::parse_area))]
pub(crate) fn parse_area(field: &[u8]) -> Option<Area>
    ensures area { result ≡ parse_area field.now }
    ensures fits { IfSome result FitsArea }
{
    if is_word(field, "smram") {
        return Some(Area::Smram);
    }
    if is_word(field, "rom") {
        return Some(Area::Rom);
    }
    if is_word(field, "abort") {
        return Some(Area::Abort);
    }
    parse_placed_area(field)
}

// ---- targets

/// A base of a card and an offset from it, `D.B:OFFSET`.
#[tactic(auto, unfolding(script_spec::specs::Targets::parse_card_target))]
fn parse_card_target(place: &[u8]) -> Option<Target>
    ensures target { result ≡ parse_card_target place.now }
    ensures fits { IfSome result FitsTarget }
{
    let (base, off) = cut(b':', place)?;
    let (dev, base) = parse_card_base(base)?;
    let off = parse_hex(8, off)?;
    Some(Target::Card(dev, base, off as u32))
}

/// An offset in the ROM has five digits.
fn parse_rom_target(place: &[u8]) -> Option<Target>
    ensures target { result ≡ option_map Target.Rom (parse_hex 5 place.now) }
    ensures fits { IfSome result FitsTarget }
{
    let off = parse_hex(5, place)?;
    Some(Target::Rom(off as u32))
}

/// A target with a place after its word, like `rom:00012`.
fn parse_target_of_kind(kind: &[u8], place: &[u8]) -> Option<Target>
    ensures target { result ≡ parse_target_of_kind kind.now place.now }
    ensures fits { IfSome result FitsTarget }
{
    if is_word(kind, "dram") {
        return parse_one_digit(place).map(Target::Dram);
    }
    if is_word(kind, "shadow") {
        return parse_one_digit(place).map(Target::Shadow);
    }
    if is_word(kind, "rom") {
        return parse_rom_target(place);
    }
    if is_word(kind, "card") {
        return parse_card_target(place);
    }
    if is_word(kind, "config") {
        return parse_register(place).map(Target::Config);
    }
    None
}

/// A target that is a word, a colon and a place.
#[tactic(auto, unfolding(script_spec::specs::Targets::parse_placed_target))]
fn parse_placed_target(field: &[u8]) -> Option<Target>
    ensures target { result ≡ parse_placed_target field.now }
    ensures fits { IfSome result FitsTarget }
{
    let (kind, place) = cut(b':', field)?;
    parse_target_of_kind(kind, place)
}

/// Who answers an interrupt acknowledge.
fn parse_chip(field: &[u8]) -> Option<Dev>
    ensures device { result ≡ parse_chip field.now }
    ensures fits { IfSome result FitsDevice }
{
    if is_word(field, "vec0") {
        return Some(Dev::Vector(0));
    }
    if is_word(field, "vec1") {
        return Some(Dev::Vector(1));
    }
    if is_word(field, "spur0") {
        return Some(Dev::Spurious(0));
    }
    if is_word(field, "spur1") {
        return Some(Dev::Spurious(1));
    }
    None
}

/// A device of the board: one with a name of its own, or an acknowledge.
#[tactic(auto, unfolding(script_spec::specs::Targets::parse_device))]
fn parse_device(field: &[u8]) -> Option<Dev>
    ensures device { result ≡ parse_device field.now }
    ensures fits { IfSome result FitsDevice }
{
    match with_word(field) {
        Some(dev) => Some(dev),
        None => parse_chip(field),
    }
}

/// A target that is no device.
fn parse_other_target(field: &[u8]) -> Option<Target>
    ensures target { result ≡ parse_other_target field.now }
    ensures fits { IfSome result FitsTarget }
{
    if is_word(field, "smram") {
        return Some(Target::Smram);
    }
    if is_word(field, "abort") {
        return Some(Target::Abort);
    }
    parse_placed_target(field)
}

/// What answered an access.
#[tactic(auto, unfolding(script_spec::specs::Targets::parse_target))]
pub(crate) fn parse_target(field: &[u8]) -> Option<Target>
    ensures target { result ≡ parse_target field.now }
    ensures fits { IfSome result FitsTarget }
{
    match parse_device(field) {
        Some(dev) => Some(Target::Device(dev)),
        None => parse_other_target(field),
    }
}
