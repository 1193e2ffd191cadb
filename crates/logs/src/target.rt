//! What answers an access, as text.

ghost use Rattle.std.specs.Prelude.{◌≡◌, ◌+◌, ◌++◌, length, OnOk, OnErr};
ghost use Rattle.board_spec.specs.Text.{register_text, base_text, area_text, device_text, target_text, denial_text};
ghost use Rattle.logs.specs.Adds.{AddsWords, KeepsFront};
ghost use Rattle.logs.specs.Tails.{HasRoom, GrowsBy};

use crate::hex::{hex_digit, put_hex_byte, put_hex_long, put_hex_offset};
use crate::tail::Tail;
use crate::words::put_numbered;
use board_base::{Area, Denial, Dev, NoMemory, Reg, Target};
use board_spec::device::word;

/// Puts a register as its device, its function and its offset, like `00.0.72`.
pub(crate) fn put_register(line: &mut Tail, reg: Reg)
    requires room { HasRoom line.old 7 }
    ensures words { line.new ≡ register_text reg ++ line.old }
    ensures length { GrowsBy line.old line.new 7 }
{
    put_hex_byte(line, reg.off);
    line.put(&[b'.', hex_digit(reg.fun), b'.']);
    put_hex_byte(line, reg.dev);
}

/// Puts a card's device number and the number of one of its bases, like `card:2.7`.
fn put_base(line: &mut Tail, dev: u8, base: u8)
    requires room { HasRoom line.old 29 }
    ensures words { line.new ≡ base_text dev base ++ line.old }
    ensures length { GrowsBy line.old line.new 12 }
{
    put_numbered(line, b".", base);
    put_numbered(line, b"card:", dev);
}

/// Puts an area of the memory map.
pub(crate) fn put_area(line: &mut Tail, area: Area)
    requires room { HasRoom line.old 29 }
    ensures words { line.new ≡ area_text area ++ line.old }
    ensures length { GrowsBy line.old line.new 12 }
{
    match area {
        Area::Dram(row) => put_numbered(line, b"dram:", row),
        Area::Shadow(row) => put_numbered(line, b"shadow:", row),
        Area::Smram => line.put(b"smram"),
        Area::Rom => line.put(b"rom"),
        Area::Card(dev, base) => put_base(line, dev, base),
        Area::Abort => line.put(b"abort"),
    }
}

/// Appends an area of the memory map.
pub(crate) fn push_area(text: &mut String, area: Area) -> Result<(), NoMemory>
    ensures appended { OnOk result (AddsWords text.old text.new (area_text area)) }
    ensures front { OnErr result (KeepsFront text.old text.new) }
{
    let mut line = Tail::new();
    put_area(&mut line, area);
    line.push_onto(text)
}

/// Puts the name of a device.
fn put_device(line: &mut Tail, dev: Dev)
    requires room { HasRoom line.old 24 }
    ensures words { line.new ≡ device_text dev ++ line.old }
    ensures length { GrowsBy line.old line.new 7 }
{
    match dev {
        Dev::Vector(chip) => put_numbered(line, word(dev).as_bytes(), chip),
        Dev::Spurious(chip) => put_numbered(line, word(dev).as_bytes(), chip),
        _ => line.put(word(dev).as_bytes()),
    }
}

/// Puts the ROM and an offset in it, like `rom:00012`.
fn put_rom(line: &mut Tail, offset: u32)
    requires room { HasRoom line.old 9 }
    ensures words { line.new ≡ target_text (Target.Rom offset) ++ line.old }
    ensures length { GrowsBy line.old line.new 9 }
{
    put_hex_offset(line, offset);
    line.put(b"rom:");
}

/// Puts a base of a card and an offset from it, like `card:2.7:00000010`.
fn put_card(line: &mut Tail, dev: u8, base: u8, offset: u32)
    requires room { HasRoom line.old 38 }
    ensures words { line.new ≡ target_text (Target.Card dev base offset) ++ line.old }
    ensures length { GrowsBy line.old line.new 21 }
{
    put_hex_long(line, offset);
    line.put(b":");
    put_base(line, dev, base);
}

/// Puts a configuration register as a target, like `config:00.0.72`.
fn put_config(line: &mut Tail, reg: Reg)
    requires room { HasRoom line.old 14 }
    ensures words { line.new ≡ target_text (Target.Config reg) ++ line.old }
    ensures length { GrowsBy line.old line.new 14 }
{
    put_register(line, reg);
    line.put(b"config:");
}

/// Puts what answered an access.
pub(crate) fn put_target(line: &mut Tail, target: &Target)
    requires room { HasRoom line.old 38 }
    ensures words { line.new ≡ target_text target.now ++ line.old }
    ensures length { GrowsBy line.old line.new 21 }
{
    match target {
        Target::Dram(row) => put_numbered(line, b"dram:", *row),
        Target::Shadow(row) => put_numbered(line, b"shadow:", *row),
        Target::Smram => line.put(b"smram"),
        Target::Rom(offset) => put_rom(line, *offset),
        Target::Card(dev, base, offset) => put_card(line, *dev, *base, *offset),
        Target::Device(dev) => put_device(line, *dev),
        Target::Config(reg) => put_config(line, *reg),
        Target::Abort => line.put(b"abort"),
    }
}

/// Puts what denied an access, `-` where nothing did, and `none` where no register could help.
#[inline(always)]
pub(crate) fn put_denial(line: &mut Tail, denial: &Option<Denial>)
    requires room { HasRoom line.old 7 }
    ensures words { line.new ≡ denial_text denial.now ++ line.old }
    ensures length { GrowsBy line.old line.new 7 }
{
    match denial {
        None => line.put(b"-"),
        Some(Denial::Register(reg)) => put_register(line, *reg),
        Some(Denial::Confadd) => line.put(b"confadd"),
        Some(Denial::NoRegister) => line.put(b"none"),
    }
}

/// Appends what denied an access, as `put_denial` does.
pub fn push_denial(text: &mut String, denial: &Option<Denial>) -> Result<(), NoMemory>
    ensures appended { OnOk result (AddsWords text.old text.new (denial_text denial.now)) }
    ensures front { OnErr result (KeepsFront text.old text.new) }
{
    let mut line = Tail::new();
    put_denial(&mut line, denial);
    line.push_onto(text)
}
