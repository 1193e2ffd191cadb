//! An access at ports from any port on, which the bus cuts into cycles as one to memory.

ghost use Rattle.std.specs.Prelude.{◌≡◌, ◌<◌, ◌≤◌, ◌+◌, ◌-◌, ◌*◌, ◌%◌, ◌^◌, ℕ, false, if◌then◌else◌};
ghost use Rattle.board_prelude.specs.{is_write, longest_at, part_at, parts_of};
ghost use Rattle.machine.specs.Machines.{MachineState};
ghost use Rattle.machine_records.specs.Numbers.{read_kind, write_kind};
ghost use Rattle.machine_records.specs.PortAccesses.{AreCycles, IsPortAccess, cycle_record, joined_parts, joined_reply};
ghost use Rattle.machine_records.specs.PortAccesses.{port_status, width_status};
ghost use Rattle.machine_records.specs.Statuses.{IsOutcome, ok};
ghost use Rattle.machine_records.specs.Strings.{IsRefused, IsStep};

use crate::asked_step::step;
use crate::event::{EventRecord, width_of};
use crate::numbers::{PARTS_REPLY, PORT_EVENT, READ_KIND, WRITE_KIND};
use crate::reply::ReplyRecord;
use crate::status::{NO_EVENT, OK, VALUE};
use board_base::{Kind, WideAccess, Width};
use machine::Machine;

/// Reads 1, 2 or 4 bytes from a port on, and writes the reply that the cycles make together. Refused with why; then
/// nothing has changed.
pub fn port_in(machine: &mut Machine, port: u16, bytes: u8, reply: &mut ReplyRecord) -> u32
    ensures outcome { IsOutcome result
        (IsPortAccess Kind.Read port bytes 0 machine.old reply.old machine.new reply.new)
        (result ≡ port_status port bytes 0)
        ((machine.new ≡ machine.old) × (reply.new ≡ reply.old)) }
{
    access(machine, Kind::Read, port, bytes, 0, reply)
}

/// Writes 1, 2 or 4 bytes from a port on, as `port_in` reads them.
pub fn port_out(
    machine: &mut Machine,
    port: u16,
    bytes: u8,
    value: u32,
    reply: &mut ReplyRecord,
) -> u32
    ensures outcome { IsOutcome result
        (IsPortAccess Kind.Write port bytes value machine.old reply.old machine.new reply.new)
        (result ≡ port_status port bytes value)
        ((machine.new ≡ machine.old) × (reply.new ≡ reply.old)) }
{
    access(machine, Kind::Write, port, bytes, value, reply)
}

/// Does an access of either kind. A read has the value 0.
fn access(
    machine: &mut Machine,
    kind: Kind,
    port: u16,
    bytes: u8,
    value: u32,
    reply: &mut ReplyRecord,
) -> u32
    requires reads { is_write kind ≡ false → value ≡ 0 }
    ensures outcome { IsOutcome result
        (IsPortAccess kind port bytes value machine.old reply.old machine.new reply.new)
        (result ≡ port_status port bytes value)
        ((machine.new ≡ machine.old) × (reply.new ≡ reply.old)) }
{
    let status = port_status(port, bytes, value);
    if status != OK {
        return status;
    }
    let access = WideAccess {
        kind,
        bytes,
        smm: false,
        addr: u32::from(port),
        value: u64::from(value),
    };
    do_cycles(machine, &access, reply);
    OK
}

/// How such an access ends.
#[tactic(auto, unfolding(crate::specs::PortAccesses::port_status))]
fn port_status(port: u16, bytes: u8, value: u32) -> u32
    ensures status { result ≡ port_status port bytes value }
{
    match width_of(bytes) {
        Some(width) => width_status(port, value, width),
        None => NO_EVENT,
    }
}

/// The same of as many bytes as the width has.
fn width_status(port: u16, value: u32, width: Width) -> u32
    ensures status { result ≡ width_status port value width }
{
    if u32::from(port) + width.bytes() > 0x1_0000 {
        return NO_EVENT;
    }
    if !width.fits(value) {
        return VALUE;
    }
    OK
}

/// Does the cycles of an access, which is in range, and joins their replies.
fn do_cycles(machine: &mut Machine, access: &WideAccess, reply: &mut ReplyRecord)
    requires in_range { port_status access.now.addr access.now.bytes access.now.value ≡ ok }
    requires reads { is_write access.now.kind ≡ false → access.now.value ≡ 0 }
    ensures cycles { AreCycles (parts_of access.now) 0 0 machine.old reply.old machine.new reply.new }
{
    let mut index = 0;
    let mut done = 0;
    while done < access.bytes {
        let before = *reply;
        let cycle = cycle_at(access, done);
        do_cycle(machine, &cycle, reply);
        join(reply, &before, index, done, cycle.bytes);
        index += 1;
        done += cycle.bytes;
    }
}

/// Does one cycle, which no board refuses.
fn do_cycle(machine: &mut Machine, cycle: &EventRecord, reply: &mut ReplyRecord)
    requires taken { (board : MachineState) (status : ℕ) → IsRefused cycle.now board status → ⊥ }
    ensures step { IsStep cycle.now machine.old machine.new reply.new }
{
    let _done = step(machine, cycle, reply);
}

/// The record of the cycle that begins so many bytes after the access.
#[tactic(auto, using(crate::proofs::PortCycles::byte_power))]
fn cycle_at(access: &WideAccess, done: u8) -> EventRecord
    requires within { done < access.now.bytes }
    requires bytes { access.now.bytes ≤ 4 }
    requires ends { access.now.addr + access.now.bytes ≤ 0x1_0000 }
    ensures said { result ≡ cycle_record (part_at access.now (access.now.addr + done)
        (longest_at (access.now.addr + done) (access.now.bytes - done))) }
{
    let port = access.addr + u32::from(done);
    let width = longest_at(port, access.bytes - done);
    let bytes = width.bytes() as u8;
    EventRecord {
        value: low_bytes(access.value >> (8 * done), bytes),
        addr: port,
        what: PORT_EVENT,
        kind: kind_number(access.kind),
        bytes,
        smm: 0,
        reserved: 0,
    }
}

/// The longest width that is aligned at a port and has no more than the bytes that are left.
fn longest_at(port: u32, left: u8) -> Width
    ensures longest { result ≡ longest_at port left }
{
    if port % 4 == 0 && left >= 4 {
        return Width::Four;
    }
    if port % 2 == 0 && left >= 2 {
        return Width::Two;
    }
    Width::One
}

/// The number of an access that reads or writes.
fn kind_number(kind: Kind) -> u8
    ensures number { result ≡ (if is_write kind then write_kind else read_kind) }
{
    if kind.is_write() {
        WRITE_KIND
    } else {
        READ_KIND
    }
}

/// Joins the reply to a cycle of so many bytes, number `index` from 0 on, to what was told of those before it, which moved
/// as many as were done.
fn join(reply: &mut ReplyRecord, before: &ReplyRecord, index: u8, done: u8, bytes: u8)
    requires index { index < 4 }
    requires bytes { done + bytes ≤ 4 }
    ensures joined { reply.new ≡ joined_reply index done before.now bytes reply.old }
{
    if index == 0 {
        return;
    }
    join_parts(reply, before, index);
    reply.value = joined_value(before.value, done, reply.value, bytes);
    if before.reset > reply.reset {
        reply.reset = before.reset;
    }
    if before.has_sent == 1 {
        reply.sent = before.sent;
        reply.has_sent = 1;
    }
    reply.rose = before.rose | reply.rose;
}

/// Makes what answered a cycle the next one of the parts before it.
fn join_parts(reply: &mut ReplyRecord, before: &ReplyRecord, index: u8)
    requires index { index < 4 }
    ensures joined { reply.new ≡ joined_parts index before.now reply.old }
{
    let last = reply.part0;
    reply.form = PARTS_REPLY;
    reply.parts = index + 1;
    reply.part0 = before.part0;
    reply.part1 = if index == 1 { last } else { before.part1 };
    reply.part2 = if index == 2 { last } else { before.part2 };
    reply.part3 = if index == 3 { last } else { before.part3 };
}

/// So many bytes of one value, and above them so many of another.
#[tactic(auto, using(crate::proofs::PortCycles::value_above, crate::proofs::PortCycles::value_fits))]
fn joined_value(low: u64, done: u8, high: u64, bytes: u8) -> u64
    requires bytes { done + bytes ≤ 4 }
    ensures joined { result ≡ low % 256 ^ done + 256 ^ done * (high % 256 ^ bytes) }
{
    low_bytes(low, done) + (low_bytes(high, bytes) << (8 * done))
}

/// So many bytes of a value, the lowest ones.
#[tactic(auto, using(crate::proofs::PortCycles::byte_power))]
fn low_bytes(value: u64, bytes: u8) -> u64
    requires few { bytes ≤ 4 }
    ensures low { result ≡ value % 256 ^ bytes }
{
    value % (1 << (8 * bytes))
}
