//! The bytes behind the bases of the cards as bytes, out and in.
ghost use Rattle.std.specs.Prelude.{◌≡◌, ◌++◌, List, map, All, OnOk};
ghost use Rattle.board_prelude.specs.{FittedCard, IsCard, Setup};
ghost use Rattle.byte_fields.specs.Fields.{Filled};
ghost use Rattle.byte_fields.specs.Loads.{LoadsWith, OneSpelling};
ghost use Rattle.byte_fields.specs.Pages.{memory_fields};
ghost use Rattle.pci_bars.specs.Contents.{HaveSizes};
ghost use Rattle.pci_bars.specs.State.{AreContents, contents_bytes, contents_fields};

use crate::contents::{Contents, SLOTS, slot_size};
use crate::spec::CardSpec;
use board_base::NoMemory;
use byte_fields::{Fault, Fields, MEMORY_PAGE, push_memory};
use std::alloc::Global;

impl Contents {
    /// Adds the bytes of each base, by pages of memory: those of device 2 first, and of a device those of base 0 first.
    /// Of a base that does not exist, of an outside base, and of an expansion ROM, there are none.
    pub fn save_state(&self, into: &mut Vec<u8>) -> Result<(), NoMemory>
        ensures saved { OnOk result (into.new.items ≡ into.old.items ++ contents_bytes self.now) }
        ensures sound { (setup : Setup) → HaveSizes setup self.now → AreContents setup.cards self.now }
    {
        save_buffers(&self.buffers, into)
    }

    /// The contents of these cards whose bytes are at the front. Refused where a page is (`Fields::page`): the bytes
    /// left then begin with its flag or its bytes. It takes all their memory, and no later call takes any.
    pub fn load_state(
        alloc: Global,
        specs: &[CardSpec],
        fields: &mut Fields,
    ) -> Result<Contents, Fault>
        requires cards { All IsCard specs.now }
        ensures loaded { LoadsWith (contents_fields specs.now) contents_bytes (AreContents specs.now) fields.old
            fields.new result }
    {
        fields.are_bytes();
        Contents::read_state(alloc, specs, fields)
    }

    /// Reads the bytes of each base.
    fn read_state(alloc: Global, specs: &[CardSpec], fields: &mut Fields) -> Result<Contents, Fault>
        requires cards { All IsCard specs.now }
        ensures filled { Filled (λ contents. contents) result fields.new (contents_fields specs.now fields.old) }
    {
        let mut buffers = Vec::new(alloc);
        for slot in 0..SLOTS {
            let size = slot_size(specs, slot);
            buffers.push(read_buffer(alloc, size, fields)?)?;
        }
        Ok(Contents { buffers })
    }
}

/// Adds the bytes of each buffer.
fn save_buffers(buffers: &[Vec<u8>], into: &mut Vec<u8>) -> Result<(), NoMemory>
    ensures saved { OnOk result
        (into.new.items ≡ into.old.items ++ contents_bytes (map (λ buffer. buffer.items) buffers.now)) }
{
    for buffer in buffers {
        push_memory(into, buffer)?;
    }
    Ok(())
}

/// Reads memory of so many bytes.
fn read_buffer(alloc: Global, size: usize, fields: &mut Fields) -> Result<Vec<u8>, Fault>
    ensures filled { Filled (λ buffer. buffer.items) result fields.new (memory_fields size fields.old) }
{
    let mut buffer = vec![in alloc; 0; size]?;
    fields.pages(MEMORY_PAGE, &mut buffer)?;
    Ok(buffer)
}

/// The contents of some cards have one spelling, and one spelling is of one.
pub fn law_one_contents()
    ensures one { (cards : List FittedCard) → All IsCard cards → OneSpelling contents_bytes (AreContents cards) }
{}
