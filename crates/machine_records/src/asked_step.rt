//! A step of a machine, asked by a record and told by one.

ghost use Rattle.std.specs.Prelude.{◌≡◌, ◌%◌, ℕ, Bool, true, false, IsSomeAnd, Some};
ghost use Rattle.board_prelude.specs.{IsBusAccess, IsInRange, IsWideAccess, Line, Memory, Port, Wide, bytes_of};
ghost use Rattle.board_prelude.specs.{is_write};
ghost use Rattle.board_spec.specs.declared.event.Event.TheVariants.{Look as LookAt};
ghost use Rattle.board_chipset.specs.Steps.{IsForDevices};
ghost use Rattle.uart_16550.specs.Com1.{is_for_uart};
ghost use Rattle.uart_16550.specs.Uart.{has_room};
ghost use Rattle.uart_16550.specs.declared.com1.Happening.TheVariants.{Comes, Happens};
ghost use Rattle.machine_records.specs.Events.{asked_said};
ghost use Rattle.machine_records.specs.FittedReplies.{IsMachineStep};
ghost use Rattle.machine_records.specs.Numbers.{look_event, memory_event, port_event};
ghost use Rattle.machine_records.specs.Statuses.{IsEventRefusal, IsOutcome};
ghost use Rattle.machine_records.specs.Steps.{IsAskedStep, IsStepOutcome};

use crate::event::{EventRecord, asked_of, cycle_of, look_of, port_of, wide_of};
use crate::fitted_reply::fit_reply;
use crate::lines::lines_of;
use crate::numbers::{LOOK_EVENT, MEMORY_EVENT, PORT_EVENT};
use crate::reply::{
    ReplyRecord, write_after, write_cycle, write_look, write_memory, write_port, write_reply,
    write_uart, write_wide,
};
use crate::status::{NO_EVENT, OK, SERIAL_FULL, fault_status};
use crate::step_lines::{is_pulsed, tell_lines};
use board_base::{Access, Kind, PortAccess, WideAccess};
use board_chipset::{Chipset, ResetKind, test_memory, test_port, test_wide};
use board_spec::Event;
use machine::Machine;
use uart_16550::{Happening, SerialBoard, is_for_uart};

/// Does what a record asks, and writes the reply to another: the chipset's, in which a read of configuration data has
/// the bytes of the card's identity, and one of an expansion ROM those that it was given, and then the interrupt lines;
/// what a guest writes to the address of an expansion ROM is lost. Refused with why where the record asks nothing
/// (`NO_EVENT`), an event that is out of range, or a byte for which COM1 has no room (`SERIAL_FULL`); then nothing has
/// changed.
#[inline(always)]
pub fn step(machine: &mut Machine, event: &EventRecord, reply: &mut ReplyRecord) -> u32
    ensures outcome { IsOutcome result
        (IsSomeAnd (asked_said event.now) (IsMachineStep machine.old machine.new event.now reply.new))
        (IsEventRefusal machine.old.saved.serial (asked_said event.now) result)
        ((machine.new ≡ machine.old) × (reply.new ≡ reply.old)) }
    ensures same_roms { machine.new.roms ≡ machine.old.roms }
{
    let before = lines_of(machine.serial.board());
    let is_pulsed = is_pulsed(machine.serial.board(), event);
    let status = asked(&mut machine.serial, event, reply);
    fit_reply(&machine.identities, &machine.roms, event, status, reply);
    tell_lines(reply, machine.serial.board(), before, is_pulsed, status);
    status
}

/// Does what a record asks, without the bytes of identities and expansion ROMs. What an instruction of a guest asks is
/// read straight from the record.
#[inline(always)]
fn asked(serial: &mut SerialBoard<Chipset>, event: &EventRecord, reply: &mut ReplyRecord) -> u32
    ensures outcome { IsStepOutcome result (asked_said event.now) serial.old serial.new reply.old reply.new }
{
    match event.what {
        MEMORY_EVENT => memory_asked(serial, event, reply),
        PORT_EVENT => port_asked(serial, event, reply),
        LOOK_EVENT => look_asked(serial, event, reply),
        _ => any_asked(serial, event, reply),
    }
}

/// The same of a record of `MEMORY_EVENT`.
#[inline(never)]
fn memory_asked(
    serial: &mut SerialBoard<Chipset>,
    event: &EventRecord,
    reply: &mut ReplyRecord,
) -> u32
    requires memory { event.now.what ≡ memory_event }
    ensures outcome { IsStepOutcome result (asked_said event.now) serial.old serial.new reply.old reply.new }
{
    match cycle_of(event) {
        Some(access) => cycle_asked(serial, event, &access, reply),
        None => other_memory_asked(serial, event, reply),
    }
}

/// The same of one that asks this access of one bus cycle if it is aligned. What is out of range is refused elsewhere,
/// with why, so that the alignment of an access is asked once.
#[inline(always)]
fn cycle_asked(
    serial: &mut SerialBoard<Chipset>,
    event: &EventRecord,
    access: &Access,
    reply: &mut ReplyRecord,
) -> u32
    requires memory { event.now.what ≡ memory_event }
    requires said { access.now.addr % bytes_of access.now.width ≡ 0
        → asked_said event.now ≡ Some (Happens (Memory access.now)) }
    ensures outcome { IsStepOutcome result (asked_said event.now) serial.old serial.new reply.old reply.new }
{
    match test_memory(access) {
        Ok(()) => {
            memory_access(serial, access, reply);
            OK
        }
        Err(_) => other_memory_asked(serial, event, reply),
    }
}

/// The same of a record of `MEMORY_EVENT` that asks a wide access, one that is out of range, or none.
#[inline(never)]
fn other_memory_asked(
    serial: &mut SerialBoard<Chipset>,
    event: &EventRecord,
    reply: &mut ReplyRecord,
) -> u32
    requires memory { event.now.what ≡ memory_event }
    ensures outcome { IsStepOutcome result (asked_said event.now) serial.old serial.new reply.old reply.new }
{
    match wide_of(event) {
        Some(access) => wide_asked(serial, &access, reply),
        None => any_asked(serial, event, reply),
    }
}

/// The same of a wide access. Refused with why where it is out of range.
#[inline(always)]
fn wide_asked(
    serial: &mut SerialBoard<Chipset>,
    access: &WideAccess,
    reply: &mut ReplyRecord,
) -> u32
    ensures outcome { IsStepOutcome result (Some (Happens (Wide access.now))) serial.old serial.new
        reply.old reply.new }
{
    match test_wide(access) {
        Ok(()) => {
            wide(serial, access, reply);
            OK
        }
        Err(fault) => fault_status(fault),
    }
}

/// The same of a record of `PORT_EVENT`.
#[inline(never)]
fn port_asked(
    serial: &mut SerialBoard<Chipset>,
    event: &EventRecord,
    reply: &mut ReplyRecord,
) -> u32
    requires port { event.now.what ≡ port_event }
    ensures outcome { IsStepOutcome result (asked_said event.now) serial.old serial.new reply.old reply.new }
{
    match port_of(event) {
        Some(access) => port(serial, &access, reply),
        None => NO_EVENT,
    }
}

/// The same of a record of `LOOK_EVENT`.
#[inline(never)]
fn look_asked(
    serial: &mut SerialBoard<Chipset>,
    event: &EventRecord,
    reply: &mut ReplyRecord,
) -> u32
    requires look { event.now.what ≡ look_event }
    ensures outcome { IsStepOutcome result (asked_said event.now) serial.old serial.new reply.old reply.new }
{
    match look_of(event) {
        Some(kind) => {
            look(serial, kind, event.addr, event.is_smm(), reply);
            OK
        }
        None => NO_EVENT,
    }
}

/// The same of any record.
#[inline(never)]
fn any_asked(serial: &mut SerialBoard<Chipset>, event: &EventRecord, reply: &mut ReplyRecord) -> u32
    ensures outcome { IsStepOutcome result (asked_said event.now) serial.old serial.new reply.old reply.new }
{
    match asked_of(event) {
        Some(Happening::Comes(byte)) => receive(serial, byte, reply),
        Some(Happening::Happens(event)) => other(serial, &event, reply),
        None => NO_EVENT,
    }
}

/// Gives COM1 a byte. Refused with `SERIAL_FULL` where it has no room.
fn receive(serial: &mut SerialBoard<Chipset>, byte: u8, reply: &mut ReplyRecord) -> u32
    ensures outcome { IsStepOutcome result (Some (Comes byte)) serial.old serial.new reply.old reply.new }
{
    match serial.room() {
        false => SERIAL_FULL,
        true => {
            received(serial, byte, reply);
            OK
        }
    }
}

/// Gives COM1 a byte, for which it has room.
fn received(serial: &mut SerialBoard<Chipset>, byte: u8, reply: &mut ReplyRecord)
    requires room { has_room serial.old.com1.uart ≡ true }
    ensures done { IsAskedStep serial.old serial.new reply.new (Comes byte) }
{
    serial.receive(byte);
    write_uart(reply, None, None);
    write_after(reply, serial, ResetKind::None);
}

/// Does an access to memory of one bus cycle, which is in range.
#[inline(never)]
fn memory_access(serial: &mut SerialBoard<Chipset>, access: &Access, reply: &mut ReplyRecord)
    requires bus { IsBusAccess (is_write access.now.kind) access.now.addr access.now.width access.now.value }
    ensures done { IsAskedStep serial.old serial.new reply.new (Happens (Memory access.now)) }
{
    let said = serial.memory(access);
    write_memory(reply, &said);
    write_after(reply, serial, ResetKind::None);
}

/// Does an access at a port. Refused with why where it is out of range.
#[inline(always)]
fn port(serial: &mut SerialBoard<Chipset>, access: &PortAccess, reply: &mut ReplyRecord) -> u32
    ensures outcome { IsStepOutcome result (Some (Happens (Port access.now))) serial.old serial.new
        reply.old reply.new }
{
    match test_port(access) {
        Ok(()) => {
            port_access(serial, access, reply);
            OK
        }
        Err(fault) => fault_status(fault),
    }
}

/// Does an access at a port, which is in range.
fn port_access(serial: &mut SerialBoard<Chipset>, access: &PortAccess, reply: &mut ReplyRecord)
    requires bus { IsBusAccess access.now.write access.now.port access.now.width access.now.value }
    ensures done { IsAskedStep serial.old serial.new reply.new (Happens (Port access.now)) }
{
    if is_for_uart(access) {
        uart_access(serial, access, reply);
    } else {
        board_access(serial, access, reply);
    }
}

/// Does an access to the UART, which is in range.
fn uart_access(serial: &mut SerialBoard<Chipset>, access: &PortAccess, reply: &mut ReplyRecord)
    requires uart { is_for_uart access.now ≡ true }
    requires bus { IsBusAccess access.now.write access.now.port access.now.width access.now.value }
    ensures done { IsAskedStep serial.old serial.new reply.new (Happens (Port access.now)) }
{
    let reset = serial.board().reset_by(access);
    let said = serial.uart_access(access);
    write_uart(reply, said.value, said.sent);
    write_after(reply, serial, reset);
}

/// Does an access at a port of the board, which is in range.
fn board_access(serial: &mut SerialBoard<Chipset>, access: &PortAccess, reply: &mut ReplyRecord)
    requires board { is_for_uart access.now ≡ false }
    requires bus { IsBusAccess access.now.write access.now.port access.now.width access.now.value }
    ensures done { IsAskedStep serial.old serial.new reply.new (Happens (Port access.now)) }
{
    let reset = serial.board().reset_by(access);
    let said = serial.port(access);
    write_port(reply, &said);
    write_after(reply, serial, reset);
}

/// Does an event. Refused with why where it is out of range.
#[inline(never)]
fn other(serial: &mut SerialBoard<Chipset>, event: &Event, reply: &mut ReplyRecord) -> u32
    ensures outcome { IsStepOutcome result (Some (Happens event.now)) serial.old serial.new reply.old reply.new }
{
    match serial.test(event) {
        Ok(()) => {
            happened(serial, event, reply);
            OK
        }
        Err(fault) => fault_status(fault),
    }
}

/// Does an event, which is in range.
#[inline(always)]
pub(crate) fn happened(serial: &mut SerialBoard<Chipset>, event: &Event, reply: &mut ReplyRecord)
    requires in_range { IsInRange serial.old.board.setup event.now }
    ensures done { IsAskedStep serial.old serial.new reply.new (Happens event.now) }
{
    match event {
        Event::Wide(access) => wide(serial, access, reply),
        Event::Look { kind, addr, smm } => look(serial, *kind, *addr, *smm, reply),
        Event::Memory(access) => memory_access(serial, access, reply),
        Event::Port(access) => port_access(serial, access, reply),
        Event::Line { irq, on } => line(serial, *irq, *on, reply),
        _ => outside(serial, event, reply),
    }
}

/// Does a wide access, which is in range.
fn wide(serial: &mut SerialBoard<Chipset>, access: &WideAccess, reply: &mut ReplyRecord)
    requires wide { IsWideAccess access.now }
    ensures done { IsAskedStep serial.old serial.new reply.new (Happens (Wide access.now)) }
{
    let said = serial.wide(access);
    write_wide(reply, &said);
    write_after(reply, serial, ResetKind::None);
}

/// Looks at the memory map.
fn look(serial: &SerialBoard<Chipset>, kind: Kind, addr: u32, smm: bool, reply: &mut ReplyRecord)
    ensures done { IsAskedStep serial.now serial.now reply.new (Happens (LookAt kind addr smm)) }
{
    let said = serial.look(kind, addr, smm);
    write_look(reply, &said);
    write_after(reply, serial, ResetKind::None);
}

/// Does an event that is for the devices of the chipset alone.
fn outside(serial: &mut SerialBoard<Chipset>, event: &Event, reply: &mut ReplyRecord)
    requires devices { IsForDevices event.now }
    requires no_line { (irq : ℕ) (on : Bool) → event.now ≡ Line irq on → ⊥ }
    requires in_range { IsInRange serial.old.board.setup event.now }
    ensures done { IsAskedStep serial.old serial.new reply.new (Happens event.now) }
{
    let reset = serial.board().reset_of(event);
    let said = serial.outside(event);
    write_cycle(reply, &said);
    write_after(reply, serial, reset);
}

/// Sets the level of a line, which can be set from outside.
fn line(serial: &mut SerialBoard<Chipset>, irq: u8, on: bool, reply: &mut ReplyRecord)
    requires in_range { IsInRange serial.old.board.setup (Line irq on) }
    ensures done { IsAskedStep serial.old serial.new reply.new (Happens (Line irq on)) }
{
    let event = Event::Line { irq, on };
    let reset = serial.board().reset_of(&event);
    let said = serial.step(0, &event);
    write_reply(reply, &said);
    write_after(reply, serial, reset);
}
