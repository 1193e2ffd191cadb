//! Events as records of numbers.

ghost use Rattle.std.specs.Prelude.{◌≡◌, ◌==◌, ◌%◌, IfSome, Some, option_map, option_and_then};
ghost use Rattle.board_prelude.specs.{bytes_of, stimulus_of_code};
ghost use Rattle.board_spec.specs.declared.event.Event.TheVariants.{Look as LookAt, Memory, Port, Wide};
ghost use Rattle.uart_16550.specs.declared.com1.Happening.TheVariants.{Happens};
ghost use Rattle.machine_records.specs.Events.{access_said, applied_said, asked_by, asked_said, byte_said, cycle_said};
ghost use Rattle.machine_records.specs.Events.{digits_said, direction_said, event_said, is_plain, kind_said};
ghost use Rattle.machine_records.specs.Events.{moment_said, number_said, port_said, stimulus_said, wide_access};
ghost use Rattle.machine_records.specs.Events.{width_said};
ghost use Rattle.machine_records.specs.Numbers.{look_event, memory_event, port_event};

use crate::numbers::{
    ACK_EVENT, FETCH_KIND, LOOK_EVENT, MEMORY_EVENT, PORT_EVENT, READ_KIND, SERIAL_EVENT,
    TIME_EVENT, WRITE_KIND,
};
use board_base::{Access, Kind, Moment, PortAccess, WideAccess, Width};
use board_spec::{Event, Stimulus};
use uart_16550::Happening;

/// What is asked of a board, in numbers: what is asked (`MEMORY_EVENT` ..), the kind of an access (`FETCH_KIND` ..) and
/// its count of bytes, an address, port, device, line or sector, and a value, count, moment or level. What an event
/// has no use for is not read. `reserved` is 0.
#[repr(C)]
#[derive(Clone, Copy, Default)]
pub struct EventRecord {
    pub value: u64,
    pub addr: u32,
    pub what: u8,
    pub kind: u8,
    pub bytes: u8,
    pub smm: u8,
    pub reserved: u64,
}

impl EventRecord {
    /// Whether what is kept for later versions is 0, and the flag of management mode 0 or 1.
    fn is_plain(&self) -> bool
        ensures plain { result ≡ is_plain self.now }
    {
        self.reserved == 0 && self.smm <= 1
    }

    /// Whether the access is made in system management mode.
    pub(crate) fn is_smm(&self) -> bool
        ensures smm { result ≡ (self.now.smm == 1) }
    {
        self.smm == 1
    }
}

/// What a record asks: an event, or a byte that COM1 receives. None exactly where a number of it names nothing, or does
/// not fit where it goes. An event may still be out of range, and COM1 may have no room for a byte.
#[inline(always)]
#[tactic(auto, unfolding(crate::specs::Events::asked_said))]
pub fn asked_of(record: &EventRecord) -> Option<Happening>
    ensures said { result ≡ asked_said record.now }
{
    if record.what == SERIAL_EVENT {
        return byte_of(record);
    }
    match event_of(record) {
        Some(event) => Some(Happening::Happens(event)),
        None => None,
    }
}

/// The byte that COM1 receives.
#[tactic(auto, unfolding(crate::specs::Events::byte_said))]
fn byte_of(record: &EventRecord) -> Option<Happening>
    ensures said { result ≡ byte_said record.now }
{
    if !record.is_plain() {
        return None;
    }
    match u8::try_from(record.value) {
        Ok(byte) => Some(Happening::Comes(byte)),
        Err(_) => None,
    }
}

/// The event that a record says. None exactly where a number of it names nothing, or does not fit where it goes. The
/// event may still be out of range.
#[tactic(auto, unfolding(crate::specs::Events::event_said))]
pub fn event_of(record: &EventRecord) -> Option<Event>
    ensures said { result ≡ event_said record.now }
{
    if !record.is_plain() {
        return None;
    }
    asked_by(record)
}

/// The access to memory of one bus cycle that a record of `MEMORY_EVENT` says if it is aligned, which its caller asks.
/// None where it says none of one bus cycle.
#[tactic(auto, unfolding(crate::specs::Events::asked_said, crate::specs::Events::event_said, crate::specs::Events::asked_by))]
#[inline(always)]
pub(crate) fn cycle_of(record: &EventRecord) -> Option<Access>
    requires memory { record.now.what ≡ memory_event }
    ensures said { IfSome result (λ access. access.addr % bytes_of access.width ≡ 0
        → asked_said record.now ≡ Some (Happens (Memory access))) }
{
    if !record.is_plain() {
        return None;
    }
    match kind_of(record.kind) {
        Some(kind) => kind_cycle(record, kind),
        None => None,
    }
}

#[tactic(auto, unfolding(crate::specs::Events::access_said))]
#[inline(always)]
fn kind_cycle(record: &EventRecord, kind: Kind) -> Option<Access>
    ensures said { IfSome result (λ access. access.addr % bytes_of access.width ≡ 0
        → access_said record.now kind ≡ Some (Memory access)) }
{
    if record.bytes == 8 {
        return None;
    }
    match width_of(record.bytes) {
        Some(width) => width_cycle(record, kind, width),
        None => None,
    }
}

#[tactic(auto, unfolding(crate::specs::Events::cycle_said))]
#[inline(always)]
fn width_cycle(record: &EventRecord, kind: Kind, width: Width) -> Option<Access>
    ensures said { IfSome result (λ access. access.addr % bytes_of access.width ≡ 0
        → cycle_said record.now kind width ≡ Some (Memory access)) }
{
    let Ok(value) = u32::try_from(record.value) else {
        return None;
    };
    Some(Access {
        kind,
        addr: record.addr,
        width,
        smm: record.is_smm(),
        value,
    })
}

/// The wide access that a record of `MEMORY_EVENT` says. None where it may say none.
#[tactic(auto, unfolding(crate::specs::Events::asked_said, crate::specs::Events::event_said, crate::specs::Events::asked_by))]
#[inline(always)]
pub(crate) fn wide_of(record: &EventRecord) -> Option<WideAccess>
    requires memory { record.now.what ≡ memory_event }
    ensures said { IfSome result (λ access. asked_said record.now ≡ Some (Happens (Wide access))) }
{
    if !record.is_plain() {
        return None;
    }
    match kind_of(record.kind) {
        Some(kind) => kind_wide(record, kind),
        None => None,
    }
}

#[tactic(auto, unfolding(crate::specs::Events::access_said))]
#[inline(always)]
fn kind_wide(record: &EventRecord, kind: Kind) -> Option<WideAccess>
    ensures said { IfSome result (λ access. access_said record.now kind ≡ Some (Wide access)) }
{
    if record.bytes == 8 {
        return Some(wide_access(record, kind));
    }
    match width_of(record.bytes) {
        Some(width) => width_wide(record, kind, width),
        None => None,
    }
}

#[tactic(auto, unfolding(crate::specs::Events::cycle_said))]
#[inline(always)]
fn width_wide(record: &EventRecord, kind: Kind, width: Width) -> Option<WideAccess>
    ensures said { IfSome result (λ access. cycle_said record.now kind width ≡ Some (Wide access)) }
{
    if width.is_aligned(record.addr) {
        return None;
    }
    Some(wide_access(record, kind))
}

/// The access at a port that a record of `PORT_EVENT` says. None exactly where it says none.
#[tactic(auto, unfolding(crate::specs::Events::asked_said, crate::specs::Events::event_said, crate::specs::Events::asked_by))]
pub(crate) fn port_of(record: &EventRecord) -> Option<PortAccess>
    requires port { record.now.what ≡ port_event }
    ensures said { asked_said record.now ≡ option_map (λ access. Happens (Port access)) result }
{
    if !record.is_plain() {
        return None;
    }
    port_access(record)
}

/// The kind of access of a look that a record of `LOOK_EVENT` says. None exactly where it says none.
#[tactic(auto, unfolding(crate::specs::Events::asked_said, crate::specs::Events::event_said, crate::specs::Events::asked_by))]
pub(crate) fn look_of(record: &EventRecord) -> Option<Kind>
    requires look { record.now.what ≡ look_event }
    ensures said { asked_said record.now
        ≡ option_map (λ kind. Happens (LookAt kind record.now.addr (record.now.smm == 1))) result }
{
    if !record.is_plain() {
        return None;
    }
    kind_of(record.kind)
}

/// The event by the number of what is asked.
#[tactic(auto, unfolding(crate::specs::Events::asked_by))]
fn asked_by(record: &EventRecord) -> Option<Event>
    ensures said { result ≡ asked_by record.now }
{
    match record.what {
        MEMORY_EVENT => memory_event(record),
        PORT_EVENT => port_event(record),
        LOOK_EVENT => look_event(record),
        ACK_EVENT => Some(Event::Ack),
        TIME_EVENT => time_event(record.value),
        _ => other_event(record),
    }
}

/// The kind of an access.
#[tactic(auto, unfolding(crate::specs::Events::kind_said))]
fn kind_of(number: u8) -> Option<Kind>
    ensures said { result ≡ kind_said number }
{
    match number {
        FETCH_KIND => Some(Kind::Fetch),
        READ_KIND => Some(Kind::Read),
        WRITE_KIND => Some(Kind::Write),
        _ => None,
    }
}

/// Whether a port is written.
#[tactic(auto, unfolding(crate::specs::Events::direction_said))]
fn direction_of(number: u8) -> Option<bool>
    ensures said { result ≡ direction_said number }
{
    match number {
        READ_KIND => Some(false),
        WRITE_KIND => Some(true),
        _ => None,
    }
}

/// The width of this many bytes.
#[tactic(auto, unfolding(crate::specs::Events::width_said))]
pub(crate) fn width_of(bytes: u8) -> Option<Width>
    ensures said { result ≡ width_said bytes }
{
    match bytes {
        1 => Some(Width::One),
        2 => Some(Width::Two),
        4 => Some(Width::Four),
        _ => None,
    }
}

fn memory_event(record: &EventRecord) -> Option<Event>
    ensures said { result ≡ option_and_then (access_said record.now) (kind_said record.now.kind) }
{
    match kind_of(record.kind) {
        Some(kind) => access_event(record, kind),
        None => None,
    }
}

#[tactic(auto, unfolding(crate::specs::Events::access_said))]
fn access_event(record: &EventRecord, kind: Kind) -> Option<Event>
    ensures said { result ≡ access_said record.now kind }
{
    if record.bytes == 8 {
        return Some(wide_event(record, kind));
    }
    match width_of(record.bytes) {
        Some(width) => cycle_event(record, kind, width),
        None => None,
    }
}

#[tactic(auto, unfolding(crate::specs::Events::cycle_said))]
fn cycle_event(record: &EventRecord, kind: Kind, width: Width) -> Option<Event>
    ensures said { result ≡ cycle_said record.now kind width }
{
    if !width.is_aligned(record.addr) {
        return Some(wide_event(record, kind));
    }
    let Ok(value) = u32::try_from(record.value) else {
        return None;
    };
    Some(Event::Memory(Access {
        kind,
        addr: record.addr,
        width,
        smm: record.is_smm(),
        value,
    }))
}

fn wide_event(record: &EventRecord, kind: Kind) -> Event
    ensures wide { result ≡ Wide (wide_access kind record.now) }
{
    Event::Wide(wide_access(record, kind))
}

fn wide_access(record: &EventRecord, kind: Kind) -> WideAccess
    ensures wide { result ≡ wide_access kind record.now }
{
    WideAccess {
        kind,
        bytes: record.bytes,
        smm: record.is_smm(),
        addr: record.addr,
        value: record.value,
    }
}

fn look_event(record: &EventRecord) -> Option<Event>
    ensures said { result ≡ option_map (λ kind. LookAt kind record.now.addr (record.now.smm == 1))
        (kind_said record.now.kind) }
{
    match kind_of(record.kind) {
        Some(kind) => Some(Event::Look {
            kind,
            addr: record.addr,
            smm: record.is_smm(),
        }),
        None => None,
    }
}

fn port_event(record: &EventRecord) -> Option<Event>
    ensures said { result ≡ option_and_then (λ width. option_and_then (port_said record.now width)
        (direction_said record.now.kind)) (width_said record.now.bytes) }
{
    match port_access(record) {
        Some(access) => Some(Event::Port(access)),
        None => None,
    }
}

fn port_access(record: &EventRecord) -> Option<PortAccess>
    ensures said { option_map (λ access. Port access) result
        ≡ option_and_then (λ width. option_and_then (port_said record.now width) (direction_said record.now.kind))
        (width_said record.now.bytes) }
{
    match width_of(record.bytes) {
        Some(width) => directed_access(record, width),
        None => None,
    }
}

fn directed_access(record: &EventRecord, width: Width) -> Option<PortAccess>
    ensures said { option_map (λ access. Port access) result ≡ option_and_then (port_said record.now width)
        (direction_said record.now.kind) }
{
    match direction_of(record.kind) {
        Some(write) => bus_access(record, width, write),
        None => None,
    }
}

#[tactic(auto, unfolding(crate::specs::Events::port_said))]
fn bus_access(record: &EventRecord, width: Width, write: bool) -> Option<PortAccess>
    ensures said { option_map (λ access. Port access) result ≡ port_said record.now width write }
{
    let Ok(port) = u16::try_from(record.addr) else {
        return None;
    };
    let Ok(value) = u32::try_from(record.value) else {
        return None;
    };
    Some(PortAccess {
        write,
        port,
        width,
        value,
    })
}

/// A moment as the digits of year, month, day, hour, minute and second.
#[tactic(auto, unfolding(crate::specs::Events::digits_said))]
fn time_event(digits: u64) -> Option<Event>
    ensures said { result ≡ digits_said digits }
{
    let year = digits / 10_000_000_000;
    let month = (digits / 100_000_000 % 100) as u8;
    let day = (digits / 1_000_000 % 100) as u8;
    let hour = (digits / 10_000 % 100) as u8;
    let minute = (digits / 100 % 100) as u8;
    let second = (digits % 100) as u8;
    moment_event(year, month, day, hour, minute, second)
}

#[tactic(auto, unfolding(crate::specs::Events::moment_said))]
fn moment_event(year: u64, month: u8, day: u8, hour: u8, minute: u8, second: u8) -> Option<Event>
    ensures said { result ≡ moment_said year month day hour minute second }
{
    let Ok(year) = u16::try_from(year) else {
        return None;
    };
    match Moment::new(year, month, day, hour, minute, second) {
        Some(moment) => Some(Event::Time(moment)),
        None => None,
    }
}

/// A stimulus, by its number in the table of stimuli.
fn other_event(record: &EventRecord) -> Option<Event>
    ensures said { result ≡ option_and_then (stimulus_said record.now) (stimulus_of_code record.now.what) }
{
    match Stimulus::of_code(record.what) {
        Some(one) => stimulus_event(record, one),
        None => None,
    }
}

#[tactic(auto, unfolding(crate::specs::Events::stimulus_said))]
fn stimulus_event(record: &EventRecord, one: Stimulus) -> Option<Event>
    ensures said { result ≡ stimulus_said record.now one }
{
    match number_of(record, one) {
        Some(number) => applied_event(record, one, number),
        None => None,
    }
}

/// Where the number of a stimulus stands.
fn number_of(record: &EventRecord, one: Stimulus) -> Option<u32>
    ensures said { result ≡ number_said record.now one }
{
    match one {
        Stimulus::Pulses => u32::try_from(record.value).ok(),
        _ => Some(record.addr),
    }
}

/// A stimulus of this number, with its level where it has one.
fn applied_event(record: &EventRecord, one: Stimulus, number: u32) -> Option<Event>
    ensures said { result ≡ applied_said record.now one number }
{
    if !one.has_level() {
        return Some(one.event(number, false));
    }
    if number > 255 || record.value > 1 {
        return None;
    }
    Some(one.event(number, record.value == 1))
}
