//! The address map without a board. `edges` and cards, then `dev.off.bytes=value` stores and `addr?` asks for the next
//! edge above an address; `touches` and cards, then `dev.off.bytes` asks whether the map depends on a byte of such a
//! store;
//! `changes` and cards, then stores, each told with the first and last address of what it may have changed; `reset` is
//! a hard reset.

ghost use Rattle.std.specs.Prelude.{◌≡◌, ◌<◌, ◌≤◌, IfSome};
ghost use Rattle.board_spec.specs.Setup.{IsCard};
ghost use Rattle.pci_bars.specs.Cards.{AreFitted};

use crate::told::{push_hex, space};
use addr_decode::{MapChange, MapRegs, next_edge, touches};
use arrayvec::ArrayVec;
use board_base::{NoMemory, Reg, Steps, Width};
use call_words::{byte, number, width};
use map_builder::{Changed, FlatMap};
use pci_bars::{BaseSpec, CardSpec};
use std::alloc::{AllocError, Global};
use std::marker::Brand;
use std::sync::ledger::{Blank, Ledger};

/// A card with one base, of 2^K bytes of memory.
fn memory_card(dev: u8, k: u8) -> CardSpec
    requires from { 2 ≤ dev }
    requires to { dev ≤ 9 }
    requires least { 4 ≤ k }
    requires most { k ≤ 24 }
    ensures card { IsCard result }
    ensures dev { result.dev ≡ dev }
{
    let mut bases = ArrayVec::new();
    bases.push(BaseSpec::Memory(k));
    CardSpec {
        dev,
        vga: false,
        bases,
        rom: None,
    }
}

/// A VGA card with a base of 1 MiB of memory and one of 16 ports.
fn vga_card(dev: u8) -> CardSpec
    requires from { 2 ≤ dev }
    requires to { dev ≤ 9 }
    ensures card { IsCard result }
    ensures dev { result.dev ≡ dev }
{
    let mut bases = ArrayVec::new();
    bases.push(BaseSpec::Memory(20));
    bases.push(BaseSpec::Io(4));
    CardSpec {
        dev,
        vga: true,
        bases,
        rom: None,
    }
}

/// A card that has an expansion ROM of 64 KiB alone.
fn rom_card(dev: u8) -> CardSpec
    requires from { 2 ≤ dev }
    requires to { dev ≤ 9 }
    ensures card { IsCard result }
    ensures dev { result.dev ≡ dev }
{
    CardSpec {
        dev,
        vga: false,
        bases: ArrayVec::new(),
        rom: Some(16),
    }
}

/// The registers after a reset: with no card; with bases of 1 MiB and 4 KiB at devices 2 and 3; with an expansion ROM
/// at device 2 and a base of 4 KiB at device 3; or with a VGA card at device 2 and an expansion ROM at device 3.
fn registers(cards: &str) -> MapRegs
    ensures fitted { AreFitted result.cards.items }
{
    match cards {
        "bases" => MapRegs::reset_of(&[memory_card(2, 20), memory_card(3, 12)]),
        "rom" => MapRegs::reset_of(&[rom_card(2), memory_card(3, 12)]),
        "vga" => MapRegs::reset_of(&[vga_card(2), rom_card(3)]),
        _ => MapRegs::reset_of(&[]),
    }
}

/// The register of function 0 and the width of a word `dev.off.bytes`.
fn place(word: &str) -> Option<(Reg, Width)> {
    let (dev, rest) = word.split_once('.')?;
    let (off, bytes) = rest.split_once('.')?;
    let reg = Reg {
        dev: byte(dev),
        fun: 0,
        off: byte(off),
    };
    Some((reg, width(bytes)))
}

/// The change of a word.
fn change(word: &str) -> Option<MapChange> {
    if word == "reset" {
        return Some(MapChange::Reset);
    }
    let (at, value) = word.split_once('=')?;
    let (reg, width) = place(at)?;
    Some(MapChange::Store {
        reg,
        width,
        value: number(value),
    })
}

/// Makes a change, or tells the next edge above an address.
fn act(regs: &mut MapRegs, step: &str, text: &mut String) -> Result<(), AllocError>
    requires fitted { AreFitted regs.old.cards.items }
    ensures fitted { AreFitted regs.new.cards.items }
{
    match change(step) {
        Some(change) => {
            regs.apply(&change);
            text.push('-')
        }
        None => match next_edge(regs, number(step.trim_end_matches('?'))) {
            Some(edge) => push_hex(text, edge),
            None => text.push_str("none"),
        },
    }
}

/// Stores, and the next edges above addresses.
pub fn tell_edges(words: &[&str], text: &mut String) -> Result<(), NoMemory> {
    let Some((cards, steps)) = words.split_first() else {
        return Ok(text.push_str("no cards")?);
    };
    let mut regs = registers(cards);
    for step in steps {
        space(text)?;
        act(&mut regs, step, text)?;
    }
    Ok(())
}

/// Whether the map depends on a byte of a place.
fn push_touches(text: &mut String, regs: &MapRegs, word: &str) -> Result<(), AllocError>
    requires fitted { AreFitted regs.now.cards.items }
{
    match place(word) {
        Some((reg, width)) => text.push_str(if touches(regs, reg, width) {
            "yes "
        } else {
            "no "
        }),
        None => Ok(()),
    }
}

/// Whether the map depends on a byte of each place.
pub fn tell_touches(words: &[&str], text: &mut String) -> Result<(), NoMemory> {
    let Some((cards, places)) = words.split_first() else {
        return Ok(text.push_str("no cards")?);
    };
    let regs = registers(cards);
    for word in places {
        push_touches(text, &regs, word)?;
    }
    Ok(())
}

/// Makes a change, counted under a ledger of its own.
fn counted<L: Ledger>(map: &mut FlatMap, change: &MapChange, blank: Blank) -> Changed
    requires name { blank.name ≡ L.name }
    requires parts { blank.parts ≡ L.parts }
    requires some_part { 0 < L.parts }
{
    let mut steps = Steps::<L>::new(blank);
    map.apply_counted(change, &mut steps)
}

/// Appends an interval.
fn push_interval(text: &mut String, interval: &Changed) -> Result<(), AllocError> {
    write!(text, "{:08X}-{:08X}", interval.lo, interval.hi)
}

/// Makes a change by the call that counts its steps, and tells whether ranges or interval are others than a map's.
fn is_other(map: &FlatMap, copy: &mut FlatMap, change: &MapChange, changed: Changed) -> bool {
    let again = counted::<Brand>(copy, change, Blank::new(1));
    again != changed || copy.ranges() != map.ranges()
}

/// Makes a change by both calls, by one of them on a copy, and tells the first and last address of what it may have
/// changed.
fn tell_change(map: &mut FlatMap, change: &MapChange, text: &mut String) -> Result<(), AllocError> {
    let mut copy = map.copy();
    let has_windows = copy.changed() == map.changed();
    let changed = map.apply(change);
    push_interval(text, &changed)?;
    if has_windows && !is_other(map, &mut copy, change, changed) {
        return Ok(());
    }
    text.push_str(" copied or counted as another")
}

/// A change of a map, on a line of its own.
fn push_change(map: &mut FlatMap, step: &str, text: &mut String) -> Result<(), AllocError> {
    match change(step) {
        Some(change) => {
            text.push_str("\n  ")?;
            tell_change(map, &change, text)
        }
        None => Ok(()),
    }
}

/// Changes of a map, one after another.
pub fn tell_changes(words: &[&str], text: &mut String) -> Result<(), NoMemory> {
    let Some((cards, steps)) = words.split_first() else {
        return Ok(text.push_str("no cards")?);
    };
    let mut map = FlatMap::from_scratch(registers(cards));
    for step in steps {
        push_change(&mut map, step, text)?;
    }
    Ok(())
}
