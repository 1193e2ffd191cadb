//! Writes an image.

ghost use Rattle.std.specs.Prelude.{◌≡◌, ◌≤◌, ◌++◌, ◌∷◌, [], length, is_some, flat_map, map, All, IfOk, OnOk};
ghost use Rattle.board_prelude.specs.{IsBase, IsCard, IsSetup, statements_of};
ghost use Rattle.pci_bars.specs.Bases.{base_of};
ghost use Rattle.board_image.specs.ImageBytes.{flag_byte, base_byte, card_bytes, disk_bytes, head_bytes, size_bytes};
ghost use Rattle.board_image.specs.ImageBytes.{image_bytes};

use crate::event_writer::{push_word, steps_piece};
use crate::format::{IO_BASE, MAGIC, OUTSIDE_BASE, VERSION};
use crate::pieces::ImageBytes;
use access_history::History;
use board_base::NoMemory;
use board_chipset::Setup;
use pci_bars::{BaseSpec, CardSpec};
use std::alloc::Global;

/// The byte of a base.
fn base_byte(base: BaseSpec) -> u8
    requires base { IsBase (base_of base) }
    ensures byte { result ≡ base_byte (base_of base) }
{
    match base {
        BaseSpec::Memory(bits) => bits,
        BaseSpec::Io(bits) => IO_BASE + bits,
        BaseSpec::Outside(bits) => OUTSIDE_BASE + bits,
    }
}

/// Adds bases.
fn push_bases(out: &mut Vec<u8>, bases: &[BaseSpec]) -> Result<(), NoMemory>
    requires bases { All IsBase (map base_of bases.now) }
    ensures added { OnOk result (out.new.items ≡ out.old.items ++ map base_byte (map base_of bases.now)) }
{
    for base in bases {
        out.push(base_byte(*base))?;
    }
    Ok(())
}

/// Adds a card.
#[tactic(auto, unfolding(crate::specs::ImageBytes::card_bytes))]
pub fn push_card(out: &mut Vec<u8>, card: &CardSpec) -> Result<(), NoMemory>
    requires card { IsCard card.now }
    ensures added { OnOk result (out.new.items ≡ out.old.items ++ card_bytes card.now) }
{
    let count = card.bases.len() as u8;
    out.extend_from_slice(&[card.dev, u8::from(card.vga), card.rom.unwrap_or(0), count])?;
    push_bases(out, &card.bases)
}

/// Four bytes: the memory in MiB, the number of cards, whether there is a disk, and 0, which is reserved.
fn fittings(setup: &Setup) -> [u8; 4]
    requires fitted { IsSetup setup.now }
    requires few_mib { setup.now.mib ≤ 64 }
    ensures bytes { result ≡ setup.now.mib ∷ length setup.now.cards ∷ flag_byte (is_some setup.now.disk) ∷ 0 ∷ [] }
{
    let has_disk = u8::from(setup.disk.is_some());
    [setup.mib as u8, setup.cards.len() as u8, has_disk, 0]
}

/// The length of the ROM.
fn rom_size(setup: &Setup) -> u32
    requires fitted { IsSetup setup.now }
    ensures size { result ≡ length setup.now.rom }
{
    setup.rom.len() as u32
}

/// The length of the disk, 0 where there is none.
fn disk_size(setup: &Setup) -> u32
    requires fitted { IsSetup setup.now }
    ensures size { result ≡ length (disk_bytes setup.now) }
{
    match &setup.disk {
        Some(disk) => disk.len() as u32,
        None => 0,
    }
}

/// Adds the lengths of the ROM and of the disk, and the number of steps.
#[tactic(auto, unfolding(crate::specs::ImageBytes::size_bytes))]
fn push_sizes(out: &mut Vec<u8>, setup: &Setup, steps: u32) -> Result<(), NoMemory>
    requires fitted { IsSetup setup.now }
    ensures added { OnOk result (out.new.items ≡ out.old.items ++ size_bytes setup.now steps) }
{
    push_word(out, rom_size(setup))?;
    push_word(out, disk_size(setup))?;
    push_word(out, steps)
}

/// Adds the head.
#[tactic(auto, unfolding(crate::specs::ImageBytes::head_bytes))]
fn push_head(out: &mut Vec<u8>, setup: &Setup, steps: u32) -> Result<(), NoMemory>
    requires fitted { IsSetup setup.now }
    requires few_mib { setup.now.mib ≤ 64 }
    ensures added { OnOk result (out.new.items ≡ out.old.items ++ head_bytes setup.now steps) }
{
    out.extend_from_slice(&MAGIC)?;
    out.extend_from_slice(&VERSION.to_le_bytes())?;
    out.extend_from_slice(&fittings(setup))?;
    push_sizes(out, setup, steps)
}

/// The head, and the cards.
fn front_piece(alloc: Global, setup: &Setup, steps: u32) -> Result<Vec<u8>, NoMemory>
    requires fitted { IsSetup setup.now }
    requires few_mib { setup.now.mib ≤ 64 }
    ensures bytes { IfOk result (λ piece. piece.items
        ≡ head_bytes setup.now steps ++ flat_map card_bytes setup.now.cards) }
{
    let mut piece = Vec::new(alloc);
    push_head(&mut piece, setup, steps)?;
    for card in &setup.cards {
        push_card(&mut piece, card)?;
    }
    Ok(piece)
}

/// The disk, where there is one.
fn disk_piece(alloc: Global, setup: &Setup) -> Result<Vec<u8>, NoMemory>
    ensures bytes { IfOk result (λ piece. piece.items ≡ disk_bytes setup.now) }
{
    match &setup.disk {
        Some(disk) => Ok(Vec::from_slice(alloc, disk)?),
        None => Ok(Vec::new(alloc)),
    }
}

/// The image of a board: its setup, and the processor and the event of each entry of its history. The replies are not
/// kept: `load` gives them again. It can be read again where the board keeps the bytes of all its bases, and the
/// history has at most 250,000 entries, of processors 0 to 7 and each in range.
pub fn save(alloc: Global, setup: &Setup, history: &History) -> Result<ImageBytes, NoMemory>
    requires fitted { IsSetup setup.now }
    requires few_mib { setup.now.mib ≤ 64 }
    ensures bytes { IfOk result (λ bytes. bytes ≡ image_bytes setup.now (statements_of history.now.entries)) }
{
    Ok(ImageBytes {
        front: front_piece(alloc, setup, history.len())?,
        rom: Vec::from_slice(alloc, &setup.rom)?,
        disk: disk_piece(alloc, setup)?,
        steps: steps_piece(alloc, &history.entries())?,
    })
}
