//! Reads an image.

ghost use Rattle.std.specs.Prelude.{◌≡◌, ◌≤◌, ◌⊎◌, ℕ, List, Ok, Err, IfOk, length};
ghost use Rattle.board_prelude.specs.{w32, is_rom_size, Statement, Setup as Fitting};
ghost use Rattle.board_image.specs.declared.fault.ImageFault.{ImageFault};
ghost use Rattle.board_image.specs.ImageBytes.{Saved, image_bytes, IsImage};
ghost use Rattle.byte_fields.specs.Fields.{Took, Filled, number_where, plain};
ghost use Rattle.board_image.specs.ImageFields.{has_disk_size, head_fields, setup_fields, steps_fields, saved_fields};
ghost use Rattle.board_image.specs.ImageFields.{image_fields, IsBadAt};

use crate::card_reader::cards;
use crate::event_reader::step;
use crate::fault::ImageFault;
use crate::format::{MAGIC, VERSION};
use crate::head::Head;
use crate::image::Image;
use board_core::{Setup, is_disk_size, is_rom_size};
use board_spec::Statement;
use board_spec::limits::MOST_STATEMENTS;
use byte_fields::{Bad, Fault, Fields};
use pci_bars::CardSpec;
use std::alloc::Global;

/// The most memory in MiB, and the most cards.
const MOST_MIB: u8 = 64;

const MOST_CARDS: u8 = 8;

/// The length of a ROM.
fn rom_size(fields: &mut Fields) -> Result<u32, Bad>
    ensures took { Took (λ n. n) result fields.new (number_where w32 is_rom_size fields.old) }
{
    let size = u32::from_le_bytes(fields.front()?);
    fields.past(4, is_rom_size(size as usize))?;
    Ok(size)
}

/// Whether a disk can have this length, which is 0 where there is none.
fn has_disk_size(has_disk: bool, size: u32) -> bool
    ensures size { result ≡ has_disk_size has_disk size }
{
    if has_disk {
        is_disk_size(size as usize)
    } else {
        size == 0
    }
}

/// The length of a disk.
fn disk_size(fields: &mut Fields, has_disk: bool) -> Result<u32, Bad>
    ensures took { Took (λ n. n) result fields.new (number_where w32 (has_disk_size has_disk) fields.old) }
{
    let size = u32::from_le_bytes(fields.front()?);
    fields.past(4, has_disk_size(has_disk, size))?;
    Ok(size)
}

/// What stands before the cards.
#[tactic(auto, unfolding(crate::specs::ImageFields::head_fields))]
fn head(fields: &mut Fields) -> Result<Head, Bad>
    ensures took { Took (λ head. head) result fields.new (head_fields fields.old) }
{
    fields.exactly(&MAGIC)?;
    fields.half(VERSION, VERSION)?;
    let mib = fields.byte(1, MOST_MIB)?.into();
    let cards = fields.byte(0, MOST_CARDS)?;
    let has_disk = fields.flag()?;
    fields.byte(0, 0)?;
    let rom_size = rom_size(fields)?;
    let disk_size = disk_size(fields, has_disk)?;
    let steps = fields.word(0, MOST_STATEMENTS as u32)?;
    Ok(Head {
        mib,
        cards,
        has_disk,
        rom_size,
        disk_size,
        steps,
    })
}

/// Reads `size` bytes, and copies them.
fn copied(alloc: Global, fields: &mut Fields, size: u32) -> Result<Vec<u8>, Fault>
    ensures filled { Filled (λ bytes. bytes.items) result fields.new (plain size fields.old) }
{
    let bytes = fields.bytes(size as usize)?;
    Ok(Vec::from_slice(alloc, bytes)?)
}

/// Reads the setup.
#[tactic(auto, unfolding(crate::specs::ImageFields::setup_fields))]
fn setup(alloc: Global, fields: &mut Fields, head: &Head) -> Result<Setup, Fault>
    ensures filled { Filled (λ setup. setup) result fields.new (setup_fields head.now fields.old) }
{
    let cards = cards(alloc, fields, false, head.cards)?;
    let rom = copied(alloc, fields, head.rom_size)?;
    let disk = copied(alloc, fields, head.disk_size)?;
    Ok(Setup {
        mib: head.mib,
        cards,
        rom,
        disk: head.has_disk.then_some(disk),
    })
}

/// Reads some steps of a board with these cards.
fn steps(
    alloc: Global,
    fields: &mut Fields,
    cards: &[CardSpec],
    count: u32,
) -> Result<Vec<Statement>, Fault>
    ensures filled { (setup : Fitting) → setup.cards ≡ cards.now
        → Filled (λ steps. steps.items) result fields.new (steps_fields setup count fields.old) }
{
    let mut steps = Vec::with_capacity(alloc, count as usize)?;
    for _ in 0..count {
        steps.push(step(fields, cards)?)?;
    }
    Ok(steps)
}

/// What an image says.
#[tactic(auto, unfolding(crate::specs::ImageFields::saved_fields))]
fn saved(alloc: Global, fields: &mut Fields) -> Result<Image, Fault>
    ensures filled { Filled (λ image. image) result fields.new (saved_fields fields.old) }
{
    let head = head(fields)?;
    let setup = setup(alloc, fields, &head)?;
    let steps = steps(alloc, fields, &setup.cards, head.steps)?;
    Ok(Image { setup, steps })
}

/// What an image says, after which nothing follows.
#[tactic(auto, unfolding(crate::specs::ImageFields::image_fields))]
fn image(alloc: Global, fields: &mut Fields) -> Result<Image, Fault>
    ensures filled { Filled (λ image. image) result fields.new (image_fields fields.old) }
{
    let image = saved(alloc, fields)?;
    fields.end()?;
    Ok(image)
}

/// The image that bytes are, or the offset of the first field that is not whole or out of range, or of the first byte
/// too many. Exactly the bytes that `save` writes of some setup and history are an image.
#[tactic(auto, using(crate::proofs::ImageFormats::read_image_rules))]
pub fn read_image(alloc: Global, bytes: &[u8]) -> Result<Image, ImageFault>
    ensures image { IfOk result (λ image. IsImage image.setup image.steps
        × (bytes.now ≡ image_bytes image.setup image.steps)) }
    ensures only { (setup : Fitting) (steps : List Statement) → IsImage setup steps
        → bytes.now ≡ image_bytes setup steps
        → (result ≡ Ok (record { setup = setup; steps = steps })) ⊎ (result ≡ Err ImageFault.NoMemory) }
    ensures bad { (at : ℕ) → result ≡ Err (ImageFault.Bad at) → IsBadAt bytes.now at }
    ensures only_bad { (at : ℕ) → IsBadAt bytes.now at
        → (result ≡ Err (ImageFault.Bad at)) ⊎ (result ≡ Err ImageFault.NoMemory) }
{
    let mut fields = Fields::of(bytes);
    match image(alloc, &mut fields) {
        Ok(image) => Ok(image),
        Err(Fault::Bad) => Err(ImageFault::Bad {
            at: (bytes.len() - fields.len()) as u32,
        }),
        Err(Fault::NoMemory) => Err(ImageFault::NoMemory),
    }
}
