//! What one part of a reply's record names.

ghost use Rattle.std.specs.Prelude.{◌≡◌};
ghost use Rattle.machine_records.specs.PartsBack.{numbered, device_recorded, config_recorded, target_recorded};
ghost use Rattle.machine_records.specs.PartsBack.{denial_recorded, part_recorded, area_recorded};

use crate::numbers::{
    ABORT_TARGET, CARD_TARGET, CONFADD_DENIAL, CONFIG_TARGET, DEVICE_TARGET, DRAM_TARGET,
    NO_REGISTER_DENIAL, REGISTER_DENIAL, ROM_TARGET, SHADOW_TARGET, SMRAM_TARGET, device_number,
};
use crate::reply::PartRecord;
use board_base::{Area, Denial, Dev, Reg, Target};
use board_spec::Part;
use board_spec::device::NAMED;

/// Who answers an interrupt acknowledge.
const ACKNOWLEDGES: [Dev; 4] = [
    Dev::Vector(0),
    Dev::Vector(1),
    Dev::Spurious(0),
    Dev::Spurious(1),
];

/// The one of these devices that has a number.
fn numbered(some: &[Dev], number: u8) -> Option<Dev>
    ensures device { result ≡ numbered some.now number }
{
    some.iter()
        .copied()
        .find(|dev| device_number(*dev) == number)
}

/// The device of a number.
#[tactic(auto, unfolding(crate::specs::PartsBack::device_recorded))]
fn device_recorded(number: u8) -> Option<Dev>
    ensures device { result ≡ device_recorded number }
{
    match numbered(&NAMED, number) {
        Some(dev) => Some(dev),
        None => numbered(&ACKNOWLEDGES, number),
    }
}

/// A configuration register, whose offset is a byte.
#[tactic(auto, unfolding(crate::specs::PartsBack::config_recorded))]
fn config_recorded(record: &PartRecord) -> Option<Target>
    ensures target { result ≡ config_recorded record.now }
{
    match u8::try_from(record.offset) {
        Ok(off) => Some(Target::Config(Reg {
            dev: record.unit,
            fun: record.base,
            off,
        })),
        Err(_) => None,
    }
}

/// What answered.
#[tactic(auto, unfolding(crate::specs::PartsBack::target_recorded))]
fn target_recorded(record: &PartRecord) -> Option<Target>
    ensures target { result ≡ target_recorded record.now }
{
    match record.target {
        DRAM_TARGET => Some(Target::Dram(record.unit)),
        SHADOW_TARGET => Some(Target::Shadow(record.unit)),
        SMRAM_TARGET => Some(Target::Smram),
        ROM_TARGET => Some(Target::Rom(record.offset)),
        CARD_TARGET => Some(Target::Card(record.unit, record.base, record.offset)),
        DEVICE_TARGET => device_recorded(record.unit).map(Target::Device),
        CONFIG_TARGET => config_recorded(record),
        ABORT_TARGET => Some(Target::Abort),
        _ => None,
    }
}

/// What denied it, where anything did.
#[tactic(auto, unfolding(crate::specs::PartsBack::denial_recorded))]
fn denial_recorded(record: &PartRecord) -> Option<Option<Denial>>
    ensures denial { result ≡ denial_recorded record.now }
{
    match record.denial {
        0 => Some(None),
        REGISTER_DENIAL => Some(Some(Denial::Register(Reg {
            dev: record.denial_dev,
            fun: record.denial_fun,
            off: record.denial_off,
        }))),
        CONFADD_DENIAL => Some(Some(Denial::Confadd)),
        NO_REGISTER_DENIAL => Some(Some(Denial::NoRegister)),
        _ => None,
    }
}

/// What answered, and what denied it. None where the record's reserved byte is not 0.
#[tactic(auto, unfolding(crate::specs::PartsBack::part_recorded))]
pub(crate) fn part_recorded(record: &PartRecord) -> Option<Part>
    ensures part { result ≡ part_recorded record.now }
{
    if record.reserved != 0 {
        return None;
    }
    let target = target_recorded(record)?;
    let denial = denial_recorded(record)?;
    Some(Part { target, denial })
}

/// The area that a look saw.
#[tactic(auto, unfolding(crate::specs::PartsBack::area_recorded))]
pub(crate) fn area_recorded(record: &PartRecord) -> Option<Area>
    ensures area { result ≡ area_recorded record.now }
{
    match record.target {
        DRAM_TARGET => Some(Area::Dram(record.unit)),
        SHADOW_TARGET => Some(Area::Shadow(record.unit)),
        SMRAM_TARGET => Some(Area::Smram),
        ROM_TARGET => Some(Area::Rom),
        CARD_TARGET => Some(Area::Card(record.unit, record.base)),
        ABORT_TARGET => Some(Area::Abort),
        _ => None,
    }
}
