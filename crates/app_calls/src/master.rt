//! The registers of the bus master, over a board of 8 MiB with a VGA card at device 2, which is enabled, and a disk of
//! four sectors, whose bytes are the number of their sector and 1. The first word has doublewords that are written on
//! the board before, as `1000:2000,1004:80000200`. Then `0=FF` writes a register, `2?` reads one, and `all` reads all
//! eight; `go1` moves sector 1, `go1.2` two sectors from it on, and tells how the transfer ends and how many bytes
//! moved.

ghost use Rattle.std.specs.Prelude.{IfOk};
ghost use Rattle.board_chipset.specs.Stores.{IsOfBoard};

use crate::told::push_byte;
use arrayvec::ArrayVec;
use board_base::Width::{self, Four, One};
use board_base::{Access, Kind, NoMemory, PortAccess};
use board_chipset::{Chipset, Setup, Store};
use board_spec::Event;
use board_spec::stimulus::LAST_SECTOR;
use bus_master::{BusMaster, Done};
use call_words::{byte, number};
use pci_bars::CardSpec;
use std::alloc::{AllocError, Global};

/// How many registers there are.
const REGISTERS: u8 = 8;

/// How many words a sector has.
const SECTOR_WORDS: u32 = 256;

/// The device number of the card.
const CARD: u8 = 2;

/// The disk.
fn disk(alloc: Global) -> Result<Vec<u8>, AllocError> {
    let mut disk = vec![in alloc; 1; 512]?;
    for byte in 2..=4 {
        disk.extend_from_slice(&[byte; 512])?;
    }
    Ok(disk)
}

/// The card in a list.
fn cards(alloc: Global) -> Result<Vec<CardSpec>, AllocError> {
    let mut cards = Vec::new(alloc);
    cards.push(CardSpec {
        dev: CARD,
        vga: true,
        bases: ArrayVec::new(),
        rom: None,
    })?;
    Ok(cards)
}

fn setup(alloc: Global) -> Result<Setup, AllocError> {
    Ok(Setup {
        mib: 8,
        cards: cards(alloc)?,
        rom: vec![in alloc; 0; 0x1_0000]?,
        disk: Some(disk(alloc)?),
    })
}

/// The write of a doubleword.
fn write(addr: u32, value: u32) -> Event {
    Event::Memory(Access {
        kind: Kind::Write,
        addr,
        width: Four,
        smm: false,
        value,
    })
}

/// The write of a port.
fn output(port: u16, width: Width, value: u32) -> Event {
    Event::Port(PortAccess {
        write: true,
        port,
        width,
        value,
    })
}

/// Asks a chipset, whose answer is not told.
fn ask(chipset: &mut Chipset, event: &Event) {
    let _ = chipset.ask(event);
}

/// The chipset of a setup that is one.
fn opened(alloc: Global, setup: Setup) -> Result<Chipset, NoMemory> {
    match Chipset::open_checked(alloc, setup) {
        Ok(chipset) => Ok(chipset),
        Err(_) => Err(NoMemory),
    }
}

/// The board, with its card enabled.
fn chipset(alloc: Global) -> Result<Chipset, NoMemory> {
    let mut chipset = opened(alloc, setup(alloc)?)?;
    ask(&mut chipset, &output(0xCF8, Four, 0x8000_1004));
    ask(&mut chipset, &output(0xCFC, One, 0x02));
    Ok(chipset)
}

/// Writes a doubleword on the board.
fn preset(chipset: &mut Chipset, word: &str) {
    if let Some((addr, value)) = word.split_once(':') {
        ask(chipset, &write(number(addr), number(value)));
    }
}

/// The store of the board, after these doublewords were written on it.
fn store(alloc: Global, presets: &str) -> Result<Store, NoMemory>
    ensures sound { IfOk result IsOfBoard }
{
    let mut chipset = chipset(alloc)?;
    for word in presets.split(',') {
        preset(&mut chipset, word);
    }
    Ok(chipset.into_store())
}

/// The first sector of a word, and how many.
fn sectors_of(word: &str) -> (u32, u32) {
    match word.split_once('.') {
        Some((lba, count)) => (number(lba), number(count)),
        None => (number(word), 1),
    }
}

/// Moves sectors, where the transfer is started.
fn transfer(bus: &mut BusMaster, store: &mut Store, sectors: (u32, u32)) -> Option<Done>
    requires sound { IsOfBoard store.old }
    ensures sound { IsOfBoard store.new }
{
    let (lba, count) = sectors;
    if !bus.is_started() || lba > LAST_SECTOR || count == 0 || count > SECTOR_WORDS {
        return None;
    }
    Some(bus.transfer(store, lba, count))
}

/// Tells how a transfer ended, and how many bytes moved.
fn push_done(text: &mut String, done: Option<Done>) -> Result<(), AllocError> {
    match done {
        Some(Done { end, moved }) => write!(text, "{end:?} {moved} "),
        None => text.push_str("not started "),
    }
}

/// Tells all registers.
fn push_all(text: &mut String, bus: &BusMaster) -> Result<(), AllocError> {
    for off in 0..REGISTERS {
        push_byte(text, bus.port_read(off))?;
    }
    Ok(())
}

/// A step that writes a register, or reads one or all.
fn act(bus: &mut BusMaster, step: &str, text: &mut String) -> Result<(), AllocError> {
    if let Some((off, value)) = step.split_once('=') {
        bus.port_write(byte(off) % REGISTERS, byte(value));
        return Ok(());
    }
    match step {
        "all" => push_all(text, bus),
        _ => push_byte(
            text,
            bus.port_read(byte(step.trim_end_matches('?')) % REGISTERS),
        ),
    }
}

/// Does all steps at a new bus master.
fn act_all(store: &mut Store, steps: &[&str], text: &mut String) -> Result<(), AllocError>
    requires sound { IsOfBoard store.old }
{
    let mut bus = BusMaster::new();
    for step in steps {
        match step.strip_prefix("go") {
            Some(word) => push_done(text, transfer(&mut bus, store, sectors_of(word)))?,
            None => act(&mut bus, step, text)?,
        }
    }
    Ok(())
}

/// Does all steps at a new bus master, over a board on which doublewords were written.
pub fn tell(alloc: Global, words: &[&str], text: &mut String) -> Result<(), NoMemory> {
    let Some((presets, steps)) = words.split_first() else {
        return Ok(text.push_str("no board")?);
    };
    let mut store = store(alloc, presets)?;
    Ok(act_all(&mut store, steps, text)?)
}
