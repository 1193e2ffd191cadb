//! Replies as records of numbers. A record has two halves: what answered, and what stands after the step. Of that the
//! interrupt lines are written last, by `step_lines`.

ghost use Rattle.std.specs.Prelude.{◌≡◌, List, Some};
ghost use Rattle.board_base.specs.declared.target.Denial.TheVariants.{Register};
ghost use Rattle.board_prelude.specs.{Entry};
ghost use Rattle.board_chipset.specs.Chipset.{IsLeftBy as IsChipsetLeftBy};
ghost use Rattle.machine_records.specs.Numbers.{reset_number};
ghost use Rattle.machine_records.specs.Replies.{area_said, cleared, no_part, of_part, part_said, placed, target_said};
ghost use Rattle.machine_records.specs.Replies.{uart_part, with_after, with_board, with_cycle, with_denial, with_look};
ghost use Rattle.machine_records.specs.Replies.{with_parts, with_reply, with_uart, with_value, with_wide};
ghost use Rattle.machine_records.specs.Steps.{after_step, held_after};

use crate::numbers::{
    ABORT_TARGET, BUS_REPLY, CARD_TARGET, CONFADD_DENIAL, CONFIG_TARGET, DEVICE_TARGET,
    DRAM_TARGET, HARD_RESET, LOOK_REPLY, NO_REGISTER_DENIAL, NO_RESET, PARTS_REPLY,
    REGISTER_DENIAL, ROM_TARGET, SHADOW_TARGET, SMRAM_TARGET, SOFT_RESET, UART_DEVICE,
    device_number,
};
use board_base::{Area, Denial, Reg, Target};
use board_chipset::{BusReply, Chipset, ResetKind, WideReply};
use board_spec::{Look, Part, Parts, Reply};
use uart_16550::{SerialBoard, SerialReply};

/// What answered an access, or one part of it, and what denied it: a target (`DRAM_TARGET` ..), the row of DRAM, the
/// device (a PCI device of a card or register, `PIT_DEVICE` .. of the board), the base of a card or function of a
/// register, and the offset in it; a denial (`REGISTER_DENIAL` ..) and of a register where it lies.
#[repr(C)]
#[derive(Clone, Copy, Default)]
pub struct PartRecord {
    pub offset: u32,
    pub target: u8,
    pub unit: u8,
    pub base: u8,
    pub denial: u8,
    pub denial_dev: u8,
    pub denial_fun: u8,
    pub denial_off: u8,
    pub reserved: u8,
}

/// A reply in numbers: what was read, where anything was; which reply it is (`BUS_REPLY` ..) and how many of its parts
/// are filled; of a look the version of the map before it and the interval; the byte that COM1 sent, where it sent one;
/// and what stands after the step: the version of the map, whether INT is asserted, the reset that the step made, the
/// level of interrupt line 4, whether COM1 has room for a byte, the levels of the sixteen interrupt lines, and which of
/// them rose in it.
#[repr(C)]
#[derive(Clone, Copy, Default)]
pub struct ReplyRecord {
    pub value: u64,
    pub version: u32,
    pub seen: u32,
    pub lo: u32,
    pub hi: u32,
    pub form: u8,
    pub has_value: u8,
    pub parts: u8,
    pub interrupt: u8,
    pub reset: u32,
    pub part0: PartRecord,
    pub part1: PartRecord,
    pub part2: PartRecord,
    pub part3: PartRecord,
    pub sent: u8,
    pub has_sent: u8,
    pub irq4: u8,
    pub serial_room: u8,
    pub lines: u16,
    pub rose: u16,
}

/// Writes what stands of a chipset with a serial port after a step that made this reset.
#[inline(always)]
pub(crate) fn write_after(into: &mut ReplyRecord, serial: &SerialBoard<Chipset>, reset: ResetKind)
    ensures after { (history : List Entry) → IsChipsetLeftBy serial.now.board history
        → into.new ≡ with_after into.old (after_step serial.now.board.setup history reset serial.now.com1) }
    ensures held { into.new ≡ with_after into.old (held_after serial.now reset) }
{
    let chipset = serial.board();
    into.version = chipset.map().version();
    into.reset = reset_number(reset);
    into.irq4 = u8::from(serial.level());
    into.serial_room = u8::from(serial.room());
    into.interrupt = u8::from(chipset.interrupt());
}

/// Writes what answered.
pub(crate) fn write_reply(into: &mut ReplyRecord, reply: &SerialReply)
    ensures written { into.new ≡ with_reply into.old reply.now }
{
    match reply {
        SerialReply::Board(reply) => write_board(into, reply),
        SerialReply::Uart { value, sent } => write_uart(into, *value, *sent),
    }
}

fn write_board(into: &mut ReplyRecord, reply: &Reply)
    ensures written { into.new ≡ with_board into.old reply.now }
{
    match reply {
        Reply::Bus {
            value,
            target,
            denial,
        } => {
            let said = BusReply {
                value: *value,
                target: *target,
                denial: *denial,
            };
            write_cycle(into, &said);
        }
        Reply::Parts { parts, value } => {
            let said = WideReply {
                value: *value,
                parts: *parts,
            };
            write_wide(into, &said);
        }
        Reply::Saw(look) => write_look(into, look),
    }
}

/// Writes what answered an access to memory, as `write_cycle` does. DRAM and the ROM go a way of their own each, on which
/// nothing is asked of the target again.
#[inline(always)]
pub(crate) fn write_memory(into: &mut ReplyRecord, reply: &BusReply)
    ensures written { into.new ≡ with_cycle into.old reply.now.value reply.now.target reply.now.denial }
{
    match reply.target {
        Target::Dram(row) => write_at(into, Target::Dram(row), reply.value, reply.denial),
        Target::Rom(offset) => write_at(into, Target::Rom(offset), reply.value, reply.denial),
        _ => write_cycle(into, reply),
    }
}

/// Writes what answered an access at a port, as `write_cycle` does. A device and a register go a way of their own each.
#[inline(always)]
pub(crate) fn write_port(into: &mut ReplyRecord, reply: &BusReply)
    ensures written { into.new ≡ with_cycle into.old reply.now.value reply.now.target reply.now.denial }
{
    match reply.target {
        Target::Device(dev) => write_at(into, Target::Device(dev), reply.value, reply.denial),
        Target::Config(reg) => write_at(into, Target::Config(reg), reply.value, reply.denial),
        _ => write_cycle(into, reply),
    }
}

/// Writes what a target answered whose kind the caller has asked.
#[inline(always)]
fn write_at(into: &mut ReplyRecord, target: Target, value: Option<u32>, denial: Option<Denial>)
    ensures written { into.new ≡ with_cycle into.old value target denial }
{
    match denial {
        None => {
            let undenied = BusReply {
                value,
                target,
                denial: None,
            };
            write_cycle(into, &undenied);
        }
        Some(_) => {
            let denied = BusReply {
                value,
                target,
                denial,
            };
            write_cycle(into, &denied);
        }
    }
}

/// Writes what answered one bus cycle: each field once.
#[inline(always)]
pub(crate) fn write_cycle(into: &mut ReplyRecord, reply: &BusReply)
    ensures written { into.new ≡ with_cycle into.old reply.now.value reply.now.target reply.now.denial }
{
    into.part0 = part_record(reply.target, reply.denial);
    into.form = BUS_REPLY;
    into.parts = 1;
    match reply.value {
        Some(value) => write_value(into, value.into()),
        None => {
            into.value = 0;
            into.has_value = 0;
        }
    }
    into.seen = 0;
    into.lo = 0;
    into.hi = 0;
    into.part1 = no_part();
    into.part2 = no_part();
    into.part3 = no_part();
    into.sent = 0;
    into.has_sent = 0;
    into.lines = 0;
    into.rose = 0;
}

/// Writes what answered a wide access.
#[inline(always)]
pub(crate) fn write_wide(into: &mut ReplyRecord, reply: &WideReply)
    ensures written { into.new ≡ with_wide into.old reply.now.parts reply.now.value }
{
    clear(into);
    into.form = PARTS_REPLY;
    write_parts(into, &reply.parts);
    if let Some(value) = reply.value {
        write_value(into, value);
    }
}

/// Writes what a look saw.
pub(crate) fn write_look(into: &mut ReplyRecord, look: &Look)
    ensures written { into.new ≡ with_look into.old look.now }
{
    clear(into);
    into.form = LOOK_REPLY;
    into.parts = 1;
    into.part0 = area_record(look.area);
    into.seen = look.version;
    into.lo = look.lo;
    into.hi = look.hi;
}

/// Writes that the UART answered, or that COM1 received a byte.
pub(crate) fn write_uart(into: &mut ReplyRecord, value: Option<u8>, sent: Option<u8>)
    ensures written { into.new ≡ with_uart into.old value sent }
{
    clear(into);
    into.form = BUS_REPLY;
    into.parts = 1;
    into.part0 = uart_part();
    if let Some(value) = value {
        write_value(into, value.into());
    }
    if let Some(sent) = sent {
        into.sent = sent;
        into.has_sent = 1;
    }
}

/// Writes that nothing answered.
#[inline(always)]
pub(crate) fn clear(into: &mut ReplyRecord)
    ensures cleared { into.new ≡ cleared into.old }
{
    into.value = 0;
    into.seen = 0;
    into.lo = 0;
    into.hi = 0;
    into.form = 0;
    into.has_value = 0;
    into.parts = 0;
    into.part0 = no_part();
    into.part1 = no_part();
    into.part2 = no_part();
    into.part3 = no_part();
    into.sent = 0;
    into.has_sent = 0;
    into.lines = 0;
    into.rose = 0;
}

fn write_value(into: &mut ReplyRecord, value: u64)
    ensures value { into.new ≡ with_value into.old (Some value) }
{
    into.value = value;
    into.has_value = 1;
}

fn write_parts(into: &mut ReplyRecord, parts: &Parts)
    ensures parts { into.new ≡ with_parts into.old parts.now }
{
    match parts {
        Parts::Two(a, b) => {
            into.parts = 2;
            into.part0 = of_part(*a);
            into.part1 = of_part(*b);
        }
        Parts::Three(a, b, c) => {
            into.parts = 3;
            into.part0 = of_part(*a);
            into.part1 = of_part(*b);
            into.part2 = of_part(*c);
        }
        Parts::Four(a, b, c, d) => {
            into.parts = 4;
            into.part0 = of_part(*a);
            into.part1 = of_part(*b);
            into.part2 = of_part(*c);
            into.part3 = of_part(*d);
        }
    }
}

/// The UART of COM1, as a part.
pub(crate) fn uart_part() -> PartRecord
    ensures part { result ≡ uart_part }
{
    placed(DEVICE_TARGET, UART_DEVICE, 0, 0)
}

/// A part that is not filled.
fn no_part() -> PartRecord
    ensures none { result ≡ no_part }
{
    PartRecord {
        offset: 0,
        target: 0,
        unit: 0,
        base: 0,
        denial: 0,
        denial_dev: 0,
        denial_fun: 0,
        denial_off: 0,
        reserved: 0,
    }
}

/// A part, in few steps where a row of DRAM answers it.
#[tactic(auto, unfolding(crate::specs::Replies::part_said))]
pub fn of_part(part: Part) -> PartRecord
    ensures part { result ≡ of_part part }
{
    match (part.target, part.denial) {
        (Target::Dram(row), None) => placed(DRAM_TARGET, row, 0, 0),
        (target, denial) => other_part(target, denial),
    }
}

/// A part that something else answers. It is not inlined, as a wide access has up to four.
#[inline(never)]
fn other_part(target: Target, denial: Option<Denial>) -> PartRecord
    ensures said { result ≡ part_said target denial }
{
    part_record(target, denial)
}

#[tactic(auto, unfolding(crate::specs::Replies::part_said))]
#[inline(always)]
fn part_record(target: Target, denial: Option<Denial>) -> PartRecord
    ensures said { result ≡ part_said target denial }
{
    let record = target_record(target);
    match denial {
        Some(Denial::Register(reg)) => denied_by(record, reg),
        Some(Denial::Confadd) => PartRecord {
            denial: CONFADD_DENIAL,
            ..record
        },
        Some(Denial::NoRegister) => PartRecord {
            denial: NO_REGISTER_DENIAL,
            ..record
        },
        None => record,
    }
}

#[inline(always)]
fn denied_by(record: PartRecord, reg: Reg) -> PartRecord
    ensures denied { result ≡ with_denial «record» (Some (Register reg)) }
{
    PartRecord {
        denial: REGISTER_DENIAL,
        denial_dev: reg.dev,
        denial_fun: reg.fun,
        denial_off: reg.off,
        ..record
    }
}

#[inline(always)]
fn target_record(target: Target) -> PartRecord
    ensures said { result ≡ target_said target }
{
    match target {
        Target::Dram(row) => placed(DRAM_TARGET, row, 0, 0),
        Target::Shadow(row) => placed(SHADOW_TARGET, row, 0, 0),
        Target::Smram => placed(SMRAM_TARGET, 0, 0, 0),
        Target::Rom(offset) => placed(ROM_TARGET, 0, 0, offset),
        Target::Card(dev, base, offset) => placed(CARD_TARGET, dev, base, offset),
        Target::Device(dev) => placed(DEVICE_TARGET, device_number(dev), 0, 0),
        Target::Config(reg) => placed(CONFIG_TARGET, reg.dev, reg.fun, reg.off.into()),
        Target::Abort => placed(ABORT_TARGET, 0, 0, 0),
    }
}

pub(crate) fn area_record(area: Area) -> PartRecord
    ensures said { result ≡ area_said area }
{
    match area {
        Area::Dram(row) => placed(DRAM_TARGET, row, 0, 0),
        Area::Shadow(row) => placed(SHADOW_TARGET, row, 0, 0),
        Area::Smram => placed(SMRAM_TARGET, 0, 0, 0),
        Area::Rom => placed(ROM_TARGET, 0, 0, 0),
        Area::Card(dev, base) => placed(CARD_TARGET, dev, base, 0),
        Area::Abort => placed(ABORT_TARGET, 0, 0, 0),
    }
}

fn placed(target: u8, unit: u8, base: u8, offset: u32) -> PartRecord
    ensures placed { result ≡ placed target unit base offset }
{
    PartRecord {
        offset,
        target,
        unit,
        base,
        ..no_part()
    }
}

fn reset_number(reset: ResetKind) -> u32
    ensures number { result ≡ reset_number reset }
{
    match reset {
        ResetKind::None => NO_RESET,
        ResetKind::Soft => SOFT_RESET,
        ResetKind::Hard => HARD_RESET,
    }
}
