//! Bytes beside plain ones, page by page: a byte 0 for a page that is the plain one, else a byte 1 and the page.

ghost use Rattle.std.specs.Prelude.{◌≡◌, ◌<◌, ℕ, List, ◌++◌, length, replicate, Option, OnOk, IfOk, IfSome, option_map};
ghost use Rattle.std.specs.Prelude.{unwrap_or};
ghost use Rattle.byte_fields.specs.Fields.{Took};
ghost use Rattle.byte_fields.specs.Pages.{page_bytes, page_field, pages_bytes, pages_fields, memory_bytes};

use crate::fault::Bad;
use crate::fields::Fields;
use crate::push::{push_bytes, push_flag};
use board_base::NoMemory;

/// How many bytes a page of memory has.
pub const MEMORY_PAGE: usize = 0x1000;

/// Adds a page, beside the plain one.
pub fn push_page(into: &mut Vec<u8>, plain: &[u8], page: &[u8]) -> Result<(), NoMemory>
    ensures added { OnOk result (into.new.items ≡ into.old.items ++ page_bytes plain.now page.now) }
{
    if page == plain {
        return push_flag(into, false);
    }
    push_flag(into, true)?;
    push_bytes(into, page)
}

/// Adds bytes by pages of this size, beside plain bytes of the same length. The last page may be shorter.
pub fn push_pages(
    into: &mut Vec<u8>,
    size: usize,
    plain: &[u8],
    bytes: &[u8],
) -> Result<(), NoMemory>
    requires some { 0 < size }
    requires same { length plain.now ≡ length bytes.now }
    ensures added { OnOk result (into.new.items ≡ into.old.items ++ pages_bytes size plain.now bytes.now) }
{
    let mut done = 0;
    while done < bytes.len() {
        let end = done + size.min(bytes.len() - done);
        push_page(into, &plain[done..end], &bytes[done..end])?;
        done = end;
    }
    Ok(())
}

/// Adds memory, which begins with zeros, by pages of 4,096 bytes.
pub fn push_memory(into: &mut Vec<u8>, bytes: &[u8]) -> Result<(), NoMemory>
    ensures added { OnOk result (into.new.items ≡ into.old.items ++ memory_bytes bytes.now) }
{
    let zeros = [0; MEMORY_PAGE];
    let mut done = 0;
    while done < bytes.len() {
        let count = MEMORY_PAGE.min(bytes.len() - done);
        push_page(into, &zeros[..count], &bytes[done..done + count])?;
        done += count;
    }
    Ok(())
}

impl<'a> Fields<'a> {
    /// Reads a page beside the plain one: None where it is that. Refused where the flag before it is not 0 or 1, or
    /// where the page is not whole, or is told though it is the plain one: the bytes left then begin with the flag, or
    /// with the page.
    #[tactic(auto, unfolding(crate::specs::Pages::page_field))]
    pub fn page(&mut self, plain: &[u8]) -> Result<Option<&'a [u8]>, Bad>
        ensures took { Took (λ page. unwrap_or (option_map (λ bytes. bytes.now) page) plain.now) result self.new
            (page_field plain.now self.old) }
        ensures whole { IfOk result (λ page. IfSome page (λ bytes. length bytes.now ≡ length plain.now)) }
    {
        if !self.flag()? {
            return Ok(None);
        }
        let bytes = self.other_than(plain)?;
        Ok(Some(bytes))
    }

    /// Reads a page into the plain one.
    fn page_into(&mut self, page: &mut [u8]) -> Result<(), Bad>
        ensures took { Took (λ _. page.new) result self.new (page_field page.old self.old) }
        ensures length { length page.new ≡ length page.old }
    {
        if let Some(bytes) = self.page(page)? {
            page.copy_from_slice(bytes);
        }
        Ok(())
    }

    /// Reads bytes by pages of this size into plain ones. Refused where a page is (`Fields::page`); pages before it
    /// are then replaced.
    pub fn pages(&mut self, size: usize, into: &mut [u8]) -> Result<(), Bad>
        requires some { 0 < size }
        ensures took { Took (λ _. into.new) result self.new (pages_fields size into.old self.old) }
        ensures length { length into.new ≡ length into.old }
    {
        let mut done = 0;
        while done < into.len() {
            let end = done + size.min(into.len() - done);
            self.page_into(&mut into[done..end])?;
            done = end;
        }
        Ok(())
    }
}
