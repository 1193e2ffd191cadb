//! Events that are in range: what a bus can ask, and what the world outside can do.

ghost use Rattle.std.specs.Prelude.{◌↔◌, ◌≡◌, true, false, IsTrue, MatchResult};
ghost use Rattle.board_prelude.specs.{card_at, FitsAccess, FitsBytes, IsBusAccess, IsInRange, IsWideAccess, is_write};
ghost use Rattle.board_chipset.specs.OutOfRange.{IsBusFault, IsFault, IsWideFault, IsWideSize};

use crate::setup::Setup;
use board_base::{Access, PortAccess, WideAccess, Width};
use board_spec::Event;
use board_spec::stimulus::{MOST_PULSES_AT_ONCE, is_free_line};
use thiserror::Error;

/// How many addresses there are.
const ADDRESSES: u64 = 0x1_0000_0000;

/// The first field of an event that is out of range.
#[derive(Clone, Copy, PartialEq, Eq, Debug, Error)]
pub enum OutOfRange {
    /// An address or a port is no multiple of the width.
    #[error("an address or a port that is no multiple of the width")]
    Alignment,
    /// A value does not fit the width, or is not 0 where nothing is written.
    #[error("a value that does not fit the width, or one where nothing is written")]
    Value,
    /// A wide access has not 2, 4 or 8 bytes.
    #[error("a wide access that has not 2, 4 or 8 bytes")]
    Bytes,
    /// A wide access of 2 or 4 bytes is aligned, so that one bus cycle does it: it is no wide one.
    #[error("a wide access that one bus cycle moves")]
    Aligned,
    /// A wide access does not end at FFFFFFFFh or below.
    #[error("a wide access past the last address")]
    End,
    /// A count of pulses is not 1 to 1,000,000.
    #[error("a count of pulses that is not 1 to 1,000,000")]
    Pulses,
    /// The calendar of 1980 to 2099 has no such date with this weekday, or the day no such time.
    #[error("a date or time that the clock cannot have")]
    Date,
    /// No card has the device number.
    #[error("a device number that no card has")]
    Device,
    /// The line is one that a part of the board drives, or there is none of this number.
    #[error("an interrupt line that cannot be set from outside")]
    Line,
}

/// Whether an event is in range for a board of this setup; if not, the first of its fields that is not.
pub(crate) fn test(setup: &Setup, event: &Event) -> Result<(), OutOfRange>
    ensures exact { MatchResult result (λ _. IsInRange setup.now event.now)
        (λ fault. IsFault setup.now event.now fault) }
{
    match event {
        Event::Memory(access) => test_memory(access),
        Event::Wide(access) => test_wide(access),
        Event::Port(access) => test_port(access),
        Event::Pulses(count) => in_case(
            1 <= *count && *count <= MOST_PULSES_AT_ONCE,
            OutOfRange::Pulses,
        ),
        Event::Time(moment) => in_case(moment.is_real(), OutOfRange::Date),
        Event::Wire { dev, .. } => in_case(setup.has_card(*dev), OutOfRange::Device),
        Event::Line { irq, .. } => in_case(is_free_line(u32::from(*irq)), OutOfRange::Line),
        _ => Ok(()),
    }
}

/// Refuses with `fault` where `holds` is false.
fn in_case(holds: bool, fault: OutOfRange) -> Result<(), OutOfRange>
    ensures exact { MatchResult result (λ _. holds ≡ true) (λ found. (found ≡ fault) × (holds ≡ false)) }
{
    if holds { Ok(()) } else { Err(fault) }
}

/// Whether an access to memory of one bus cycle is in range; if not, its first field that is not.
pub fn test_memory(access: &Access) -> Result<(), OutOfRange>
    ensures exact { MatchResult result
        (λ _. IsBusAccess (is_write access.now.kind) access.now.addr access.now.width access.now.value)
        (λ fault. IsBusFault (is_write access.now.kind) access.now.addr access.now.width access.now.value fault) }
{
    let writes = access.kind.is_write();
    test_bus(writes, access.addr, access.width, access.value)
}

/// Whether an access at a port of one bus cycle is in range; if not, its first field that is not.
pub fn test_port(access: &PortAccess) -> Result<(), OutOfRange>
    ensures exact { MatchResult result
        (λ _. IsBusAccess access.now.write access.now.port access.now.width access.now.value)
        (λ fault. IsBusFault access.now.write access.now.port access.now.width access.now.value fault) }
{
    test_bus(
        access.write,
        u32::from(access.port),
        access.width,
        access.value,
    )
}

/// Whether an access of one bus cycle is in range: `place`, its address or port, is a multiple of the width, and the
/// value fits.
fn test_bus(writes: bool, place: u32, width: Width, value: u32) -> Result<(), OutOfRange>
    ensures exact { MatchResult result (λ _. IsBusAccess writes place width value)
        (λ fault. IsBusFault writes place width value fault) }
{
    if !width.is_aligned(place) {
        return Err(OutOfRange::Alignment);
    }
    if !fits(writes, width, value) {
        return Err(OutOfRange::Value);
    }
    Ok(())
}

/// Whether a value fits the width, and is 0 where nothing is written.
fn fits(writes: bool, width: Width, value: u32) -> bool
    ensures fits { IsTrue result ↔ FitsAccess writes width value }
{
    if writes {
        width.fits(value)
    } else {
        value == 0
    }
}

/// Whether a wide access is in range; if not, the first reason in the order of its size, alignment, end and value.
pub fn test_wide(access: &WideAccess) -> Result<(), OutOfRange>
    ensures exact { MatchResult result (λ _. IsWideAccess access.now) (λ fault. IsWideFault access.now fault) }
{
    if !is_wide_size(access.bytes) {
        return Err(OutOfRange::Bytes);
    }
    if access.bytes != 8 && access.addr % u32::from(access.bytes) == 0 {
        return Err(OutOfRange::Aligned);
    }
    if u64::from(access.addr) + u64::from(access.bytes) > ADDRESSES {
        return Err(OutOfRange::End);
    }
    if !fits_bytes(access.kind.is_write(), access.bytes, access.value) {
        return Err(OutOfRange::Value);
    }
    Ok(())
}

/// Whether a wide access can have this many bytes: 2, 4 or 8.
fn is_wide_size(bytes: u8) -> bool
    ensures size { IsTrue result ↔ IsWideSize bytes }
{
    matches!(bytes, 2 | 4 | 8)
}

/// Whether a value fits 2, 4 or 8 bytes, and is 0 where nothing is written.
fn fits_bytes(writes: bool, bytes: u8, value: u64) -> bool
    requires size { IsWideSize bytes }
    ensures fits { IsTrue result ↔ FitsBytes writes bytes value }
{
    if !writes {
        return value == 0;
    }
    match bytes {
        2 => value < 0x1_0000,
        4 => value < 0x1_0000_0000,
        _ => true,
    }
}
