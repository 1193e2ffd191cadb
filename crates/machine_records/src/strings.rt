//! Accesses to one port, one after another.

ghost use Rattle.std.specs.Prelude.{◌≡◌, ◌≢◌, ◌<◌, length, drop, Ok, Err, IfOk, IfErr, OnErr};
ghost use Rattle.machine_records.specs.Statuses.{IsOutcome, bad_handle, ok};
ghost use Rattle.machine_records.specs.Strings.{AreDone, AreRead, AreWritten, IsFirstRefused, IsValue, asks_back};
ghost use Rattle.machine_records.specs.Strings.{port_record};
ghost use Rattle.machine_records.specs.Strings.{reads, writes};

use crate::asked_step::step;
use crate::event::EventRecord;
use crate::numbers::{NO_RESET, PORT_EVENT, READ_KIND, WRITE_KIND};
use crate::reply::ReplyRecord;
use crate::status::OK;
use machine::Machine;

/// Reads a port for each of the values, until the processor is asked for, and counts them; the reply is the last one's.
/// Refused with why where there is a first one and it is; then nothing has changed.
pub fn in_many(
    machine: &mut Machine,
    port: u16,
    bytes: u8,
    values: &mut [u32],
    done: &mut usize,
    reply: &mut ReplyRecord,
) -> u32
    ensures outcome { IsOutcome result
        (AreRead port bytes machine.old reply.old values.old machine.new reply.new values.new done.new)
        (IsFirstRefused (reads port bytes) (length values.old) machine.old result)
        ((machine.new ≡ machine.old) × (values.new ≡ values.old) × (done.new ≡ done.old) × (reply.new ≡ reply.old)) }
{
    match read_all(machine, port, bytes, values, reply) {
        Ok(count) => {
            *done = count;
            OK
        }
        Err(status) => status,
    }
}

fn read_all(
    machine: &mut Machine,
    port: u16,
    bytes: u8,
    values: &mut [u32],
    reply: &mut ReplyRecord,
) -> Result<usize, u32>
    ensures done { IfOk result (λ count. AreDone (reads port bytes) (IsValue values.new) (length values.old)
        machine.old reply.old machine.new count reply.new) }
    ensures size { length values.new ≡ length values.old }
    ensures rest { IfOk result (λ count. drop count values.new ≡ drop count values.old) }
    ensures status { IfErr result (λ status. (status ≢ ok) × (status ≢ bad_handle)) }
    ensures refused { IfErr result (IsFirstRefused (reads port bytes) (length values.old) machine.old) }
    ensures unchanged { OnErr result (machine.new ≡ machine.old) }
    ensures no_values { OnErr result (values.new ≡ values.old) }
    ensures untold { OnErr result (reply.new ≡ reply.old) }
{
    let event = port_record(READ_KIND, port, bytes, 0);
    for index in 0..values.len() {
        let status = step(machine, &event, reply);
        if status != OK {
            return done_or_refused(index, status);
        }
        values[index] = (reply.value % 0x1_0000_0000) as u32;
        if asks_back(reply) {
            return Ok(index + 1);
        }
    }
    Ok(values.len())
}

/// Writes each of the values to a port, until the processor is asked for, and counts them; the reply is the last one's.
/// Refused with why where there is a first one and it is; then nothing has changed.
pub fn out_many(
    machine: &mut Machine,
    port: u16,
    bytes: u8,
    values: &[u32],
    done: &mut usize,
    reply: &mut ReplyRecord,
) -> u32
    ensures outcome { IsOutcome result
        (AreWritten port bytes values.now machine.old reply.old machine.new reply.new done.new)
        (IsFirstRefused (writes port bytes values.now) (length values.now) machine.old result)
        ((machine.new ≡ machine.old) × (done.new ≡ done.old) × (reply.new ≡ reply.old)) }
{
    match write_all(machine, port, bytes, values, reply) {
        Ok(count) => {
            *done = count;
            OK
        }
        Err(status) => status,
    }
}

fn write_all(
    machine: &mut Machine,
    port: u16,
    bytes: u8,
    values: &[u32],
    reply: &mut ReplyRecord,
) -> Result<usize, u32>
    ensures done { IfOk result (λ count. AreWritten port bytes values.now machine.old reply.old machine.new reply.new count) }
    ensures status { IfErr result (λ status. (status ≢ ok) × (status ≢ bad_handle)) }
    ensures refused { IfErr result (IsFirstRefused (writes port bytes values.now) (length values.now) machine.old) }
    ensures unchanged { OnErr result (machine.new ≡ machine.old) }
    ensures untold { OnErr result (reply.new ≡ reply.old) }
{
    for index in 0..values.len() {
        let event = port_record(WRITE_KIND, port, bytes, values[index]);
        let status = step(machine, &event, reply);
        if status != OK {
            return done_or_refused(index, status);
        }
        if asks_back(reply) {
            return Ok(index + 1);
        }
    }
    Ok(values.len())
}

/// How accesses end of which the one after so many is refused.
fn done_or_refused(done: usize, status: u32) -> Result<usize, u32>
    ensures first { done ≡ 0 → result ≡ Err status }
    ensures later { 0 < done → result ≡ Ok done }
{
    if done == 0 { Err(status) } else { Ok(done) }
}

/// Whether the processor is asked for after a reply: INT is asserted, an interrupt line rose, there was a reset, or COM1
/// sent a byte.
fn asks_back(reply: &ReplyRecord) -> bool
    ensures asks { result ≡ asks_back reply.now }
{
    reply.interrupt == 1 || reply.rose != 0 || reply.reset != NO_RESET || reply.has_sent == 1
}

/// The record of one access.
fn port_record(kind: u8, port: u16, bytes: u8, value: u32) -> EventRecord
    ensures said { result ≡ port_record kind port bytes value }
{
    EventRecord {
        value: u64::from(value),
        addr: u32::from(port),
        what: PORT_EVENT,
        kind,
        bytes,
        smm: 0,
        reserved: 0,
    }
}
