//! A mebibyte of the DRAM, of which only the bytes up to the highest page written are kept.
ghost use Rattle.std.specs.Prelude.{◌≡◌, ◌≤◌, ◌<◌, ◌+◌, ◌-◌, ◌%◌, ℕ, [], ◌++◌, length, replicate, slice_index};
ghost use Rattle.std.specs.Prelude.{vec_capacity, IfOk, OnOk};
ghost use Rattle.board_prelude.specs.{bytes_of, largest_of, byte, wide};
ghost use Rattle.byte_fields.specs.Fields.{Took, Filled};
ghost use Rattle.byte_fields.specs.Pages.{memory_bytes, memory_fields};
ghost use Rattle.dram_store.specs.Bank.{IsBank, IsKept, IsZero, IsPut, bank_of, bank_size, page_end};

use board_base::{NoMemory, Width};
use board_spec::wide::{read_at, write_at};
use byte_fields::{Bad, Fault, Fields, MEMORY_PAGE, push_bytes, push_memory};
use std::alloc::Global;
use std::marker::Model;

/// How many bytes a bank has.
pub(crate) const BANK: usize = 0x10_0000;

/// How many bytes a page has.
const PAGE: usize = 0x1_0000;

/// How many pages of memory a bank has.
const MEMORY_PAGES: usize = BANK / MEMORY_PAGE;

/// A mebibyte of memory. Contracts see the list of its bytes.
///
/// Its front is kept, up to the highest page that was written. The bytes above are 0 and cost no time, so one
/// write fills at most a mebibyte with zeros, and no byte is filled twice.
#[derive(Drop)]
pub(crate) struct Bank {
    /// The bytes that are kept, in whole pages of memory, with room for all.
    kept: Vec<u8>,
}

impl Model for Bank {
    ghost use Rattle.std.specs.Prelude.{ℕ, List, length, vec_capacity};
    ghost use Rattle.dram_store.specs.Bank.{IsKept, bank_of};

    ghost Value = { List ℕ };

    ghost view = { λ bank. bank_of bank.kept.items };

    ghost invariant = { λ bank. IsKept (length bank.kept.items) (vec_capacity bank.kept) };
}

impl Bank {
    /// A bank of zeros, with room for all its bytes. No later call takes memory.
    #[tactic(auto, using(crate::proofs::BankLemmas::same_byte))]
    pub(crate) fn open(alloc: Global) -> Result<Bank, NoMemory>
        ensures size { IfOk result IsBank }
        ensures zeros { IfOk result IsZero }
    {
        let kept = Vec::with_capacity(alloc, BANK)?;
        Ok(Bank { kept })
    }

    /// Reads the bytes from a place on, which is a multiple of the width, the low byte first.
    pub(crate) fn read(&self, at: usize, width: Width) -> u32
        requires inside { at < bank_size }
        requires aligned { at % bytes_of width ≡ 0 }
        ensures value { result ≡ wide (slice_index self.now) at width }
    {
        if at < self.kept.len() {
            read_at(&self.kept, at, width)
        } else {
            0
        }
    }

    /// Writes a value that fits the width to the bytes from a place on, which is a multiple of the width, the
    /// low byte first.
    pub(crate) fn write(&mut self, at: usize, width: Width, value: u32)
        requires inside { at < bank_size }
        requires aligned { at % bytes_of width ≡ 0 }
        requires fits { value ≤ largest_of width }
        ensures length { length self.new ≡ length self.old }
        ensures bytes { IsPut self.old at (bytes_of width) (byte value) self.new }
    {
        keep_page(&mut self.kept, at);
        write_at(&mut self.kept, at, width, value);
    }
}

impl Bank {
    /// The bytes that are kept, from the first place on. Those after them are 0.
    pub(crate) fn kept(&self) -> &[u8]
        ensures bytes { bank_of result.now ≡ self.now }
        ensures within { length result.now ≤ bank_size }
    {
        &self.kept
    }

    /// Copies the bytes from a place on.
    pub(crate) fn read_bytes(&self, at: usize, into: &mut [u8])
        requires inside { at + length into.old ≤ bank_size }
        ensures length { length into.new ≡ length into.old }
        ensures bytes { (k : ℕ) → k < length into.old → slice_index into.new k ≡ slice_index self.now (at + k) }
    {
        let from = at.min(self.kept.len());
        let count = (self.kept.len() - from).min(into.len());
        into[..count].copy_from_slice(&self.kept[from..from + count]);
        into[count..].fill(0);
    }

    /// Replaces the bytes from a place on.
    pub(crate) fn write_bytes(&mut self, at: usize, bytes: &[u8])
        requires inside { at + length bytes.now ≤ bank_size }
        ensures length { length self.new ≡ length self.old }
        ensures bytes { IsPut self.old at (length bytes.now) (slice_index bytes.now) self.new }
    {
        if bytes.is_empty() {
            return;
        }
        keep_page(&mut self.kept, at + (bytes.len() - 1));
        self.kept[at..at + bytes.len()].copy_from_slice(bytes);
    }
}

impl Bank {
    /// Adds the bytes, by pages of memory. Those that are not kept are zeros and need no look.
    pub(crate) fn save_state(&self, into: &mut Vec<u8>) -> Result<(), NoMemory>
        ensures saved { OnOk result (into.new.items ≡ into.old.items ++ memory_bytes self.now) }
    {
        push_memory(into, &self.kept)?;
        let zero_pages = [0; MEMORY_PAGES];
        let count = (BANK - self.kept.len()) / MEMORY_PAGE;
        push_bytes(into, &zero_pages[..count])?;
        Ok(())
    }

    /// The bank whose bytes are at the front, by pages of memory. Zeros after the last page of others are not kept.
    pub(crate) fn load_state(alloc: Global, fields: &mut Fields) -> Result<Bank, Fault>
        ensures filled { Filled (λ bank. bank) result fields.new (memory_fields bank_size fields.old) }
        ensures size { IfOk result IsBank }
    {
        let mut kept = Vec::with_capacity(alloc, BANK)?;
        read_kept(&mut kept, fields)?;
        Ok(Bank { kept })
    }
}

/// Reads the bytes of a bank, and keeps those up to the last page that is not all zeros.
fn read_kept(kept: &mut Vec<u8>, fields: &mut Fields) -> Result<(), Bad>
    requires none { kept.old.items ≡ [] }
    requires room { bank_size ≤ vec_capacity kept.old }
    ensures took { Took (λ _. bank_of kept.new.items) result fields.new (memory_fields bank_size fields.old) }
    ensures kept { IsKept (length kept.new.items) (vec_capacity kept.new) }
{
    let zeros = [0; MEMORY_PAGE];
    for page in 0..MEMORY_PAGES {
        if let Some(bytes) = fields.page(&zeros)? {
            put_page(kept, page * MEMORY_PAGE, bytes);
        }
    }
    Ok(())
}

/// Keeps zeros up to a place, and then a page.
fn put_page(kept: &mut Vec<u8>, at: usize, page: &[u8])
    requires after { length kept.old.items ≤ at }
    requires room { at + length page.now ≤ vec_capacity kept.old }
    ensures bytes { kept.new.items ≡ (kept.old.items ++ replicate (at - length kept.old.items) 0) ++ page.now }
    ensures room { vec_capacity kept.old ≤ vec_capacity kept.new }
{
    kept.resize(at, 0).unwrap();
    kept.extend_from_slice(page).unwrap();
}

/// Keeps all bytes up to the end of the page of a place. New bytes are 0.
fn keep_page(kept: &mut Vec<u8>, at: usize)
    requires room { page_end at ≤ vec_capacity kept.old }
    ensures bytes { kept.new.items ≡ kept.old.items ++ replicate (page_end at - length kept.old.items) 0 }
    ensures room { vec_capacity kept.old ≤ vec_capacity kept.new }
{
    let end = (at / PAGE + 1) * PAGE;
    if kept.len() < end {
        kept.resize(end, 0).unwrap();
    }
}
