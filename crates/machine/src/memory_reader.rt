//! Reads memory by pages, and takes no memory for pages that the bytes are too few to tell.

ghost use Rattle.std.specs.Prelude.{◌*◌, ◌-◌};
ghost use Rattle.byte_fields.specs.Fields.{Filled};
ghost use Rattle.byte_fields.specs.Pages.{memory_fields};
ghost use Rattle.machine.specs.Setups.{parts_fields};

use byte_fields::{Fault, Fields, MEMORY_PAGE};
use std::alloc::Global;

/// Reads so many bytes by pages.
fn pages(alloc: Global, fields: &mut Fields, count: usize) -> Result<Vec<u8>, Fault>
    ensures filled { Filled (λ bytes. bytes.items) result fields.new (memory_fields count fields.old) }
{
    let mut bytes = vec![in alloc; 0; count]?;
    fields.pages(MEMORY_PAGE, &mut bytes)?;
    Ok(bytes)
}

/// The same, and takes no memory where nothing is left to read.
#[tactic(auto, using(crate::proofs::FittedFormat::none_left))]
fn last_pages(alloc: Global, fields: &mut Fields, count: usize) -> Result<Vec<u8>, Fault>
    ensures filled { Filled (λ bytes. bytes.items) result fields.new (memory_fields count fields.old) }
{
    if count > 0 && fields.len() == 0 {
        return Err(Fault::Bad);
    }
    pages(alloc, fields, count)
}

/// Reads bytes by pages, and then more.
#[tactic(auto, unfolding(crate::specs::Setups::parts_fields))]
fn parts(alloc: Global, fields: &mut Fields, first: usize, more: usize) -> Result<Vec<u8>, Fault>
    ensures filled { Filled (λ bytes. bytes.items) result fields.new (parts_fields first more fields.old) }
{
    let mut bytes = pages(alloc, fields, first)?;
    let later = last_pages(alloc, fields, more)?;
    bytes.extend_from_slice(&later)?;
    Ok(bytes)
}

/// Reads so many bytes by pages. Each page has a byte at least among those that are left, so no more memory is taken
/// than for as many pages.
#[tactic(auto, using(crate::proofs::FittedFormat::in_parts))]
pub(crate) fn memory(alloc: Global, fields: &mut Fields, size: u32) -> Result<Vec<u8>, Fault>
    ensures filled { Filled (λ bytes. bytes.items) result fields.new (memory_fields size fields.old) }
{
    let size = size as usize;
    let first = (size / MEMORY_PAGE).min(fields.len()) * MEMORY_PAGE;
    parts(alloc, fields, first, size - first)
}
