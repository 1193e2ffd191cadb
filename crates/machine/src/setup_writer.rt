//! Adds a setup to bytes.

ghost use Rattle.std.specs.Prelude.{◌≡◌, ◌<◌, ◌^◌, ◌++◌, length, flat_map, All, OnOk};
ghost use Rattle.board_prelude.specs.{IsCard, IsSetup};
ghost use Rattle.board_chipset.specs.Given.{unless_left, zeros};
ghost use Rattle.board_image.specs.ImageBytes.{card_bytes};
ghost use Rattle.machine.specs.Setups.{bytes_on, counted_bytes, disk_unless_left, setup_bytes};

use board_base::NoMemory;
use board_chipset::Setup;
use board_image::push_card;
use byte_fields::{MEMORY_PAGE, push_byte, push_memory, push_pages, push_word};
use pci_bars::CardSpec;

/// Adds bytes, with their count before them.
fn push_counted(into: &mut Vec<u8>, bytes: &[u8]) -> Result<(), NoMemory>
    requires few { length bytes.now < 2 ^ 32 }
    ensures added { OnOk result (into.new.items ≡ into.old.items ++ counted_bytes bytes.now) }
{
    push_word(into, bytes.len() as u32)?;
    push_memory(into, bytes)
}

/// Adds cards.
fn push_cards(into: &mut Vec<u8>, cards: &[CardSpec]) -> Result<(), NoMemory>
    requires each { All IsCard cards.now }
    ensures added { OnOk result (into.new.items ≡ into.old.items ++ flat_map card_bytes cards.now) }
{
    for card in cards {
        push_card(into, card)?;
    }
    Ok(())
}

/// The bytes of the disk as it was fitted. None where there is no disk.
fn disk_bytes(setup: &Setup) -> &[u8]
    ensures bytes { result.now ≡ bytes_on setup.now.disk }
{
    match &setup.disk {
        Some(disk) => disk,
        None => &[],
    }
}

/// Adds as many zeros as these bytes are, with their count before them.
fn push_blank(into: &mut Vec<u8>, bytes: &[u8]) -> Result<(), NoMemory>
    requires few { length bytes.now < 2 ^ 32 }
    ensures added { OnOk result (into.new.items ≡ into.old.items ++ counted_bytes (zeros bytes.now)) }
{
    push_word(into, bytes.len() as u32)?;
    push_pages(into, MEMORY_PAGE, bytes, bytes)
}

/// Adds the bytes of the disk, unless they are left out.
fn push_disk(into: &mut Vec<u8>, bytes: &[u8], left: bool) -> Result<(), NoMemory>
    requires few { length bytes.now < 2 ^ 32 }
    ensures added { OnOk result (into.new.items ≡ into.old.items ++ counted_bytes (unless_left left bytes.now)) }
{
    if left {
        push_blank(into, bytes)
    } else {
        push_counted(into, bytes)
    }
}

/// Adds the ROM and the disk, unless its bytes are left out.
fn push_media(into: &mut Vec<u8>, setup: &Setup, left: bool) -> Result<(), NoMemory>
    requires fits { IsSetup setup.now }
    ensures added { OnOk result (into.new.items ≡ into.old.items
        ++ (counted_bytes setup.now.rom ++ counted_bytes (unless_left left (bytes_on setup.now.disk)))) }
{
    push_counted(into, &setup.rom)?;
    push_disk(into, disk_bytes(setup), left)
}

/// Adds the setup. The bytes of its disk may be left out.
pub(crate) fn push_setup(into: &mut Vec<u8>, setup: &Setup, left: bool) -> Result<(), NoMemory>
    requires fits { IsSetup setup.now }
    ensures added { OnOk result (into.new.items ≡ into.old.items ++ setup_bytes (disk_unless_left left setup.now)) }
{
    push_word(into, setup.mib)?;
    push_byte(into, setup.cards.len() as u8)?;
    push_cards(into, &setup.cards)?;
    push_media(into, setup, left)
}
