//! The installed DRAM: a bank for each MiB.
ghost use Rattle.std.specs.Prelude.{◌≡◌, ◌≤◌, ◌<◌, ◌+◌, ◌*◌, ◌%◌, ℕ, List, [], ◌∷◌, length, replicate, slice_index};
ghost use Rattle.std.specs.Prelude.{IfOk, OnOk, OnErr, IfSome, None};
ghost use Rattle.board_prelude.specs.{bytes_of, largest_of, Dram as DramTarget, Entry, most_mib, Setup, installed};
ghost use Rattle.board_prelude.specs.{byte, wide, DramCell, byte_put, entry_put, dram_byte};
ghost use Rattle.dram_store.specs.Bank.{bank_size};
ghost use Rattle.dram_store.specs.Dram.{dram_at, IsDramOf, IsWritten};

use crate::bank::{BANK, Bank};
use board_base::{NoMemory, Width};
use std::alloc::Global;
use std::marker::Model;

/// Bytes do not all lie in the installed memory.
#[derive(Clone, Copy, PartialEq, Eq, Debug)]
pub struct PastTheEnd;

/// The installed DRAM, in whole MiB, up to 512. Contracts see the list of its bytes. `board_example::dram` has an
/// example.
#[derive(Drop)]
pub struct Dram {
    /// A bank for each MiB.
    pub(crate) banks: Vec<Bank>,
}

impl Model for Dram {
    ghost use Rattle.std.specs.Prelude.{ℕ, List};
    ghost use Rattle.std.specs.List.{concat};
    ghost use Rattle.dram_store.specs.Dram.{AreBanks};

    ghost Value = { List ℕ };

    ghost view = { λ dram. concat dram.banks.items };

    ghost invariant = { λ dram. AreBanks dram.banks.items };
}

impl Dram {
    /// A DRAM of `mib` MiB, 1 to 512, all zeros. No later call takes memory.
    #[tactic(auto, using(crate::proofs::ConcatLemmas::zero_banks))]
    pub fn open(alloc: Global, mib: u32) -> Result<Dram, NoMemory>
        requires some { 1 ≤ mib }
        requires most { mib ≤ most_mib }
        ensures zeros { IfOk result (λ dram. (setup : Setup) → setup.mib ≡ mib
            → dram ≡ replicate (installed setup) 0) }
        ensures fresh { IfOk result (λ dram. (setup : Setup) → setup.mib ≡ mib → IsDramOf setup [] dram) }
    {
        let mut banks = Vec::with_capacity(alloc, mib as usize)?;
        for _ in 0..mib {
            banks.push(Bank::open(alloc)?)?;
        }
        Ok(Dram { banks })
    }

    /// Reads the bytes from an address on, which is a multiple of the width, the low byte first. At and
    /// past the installed memory every byte reads FFh.
    pub fn read(&self, addr: u32, width: Width) -> u32
        requires aligned { addr % bytes_of width ≡ 0 }
        ensures value { result ≡ wide (λ at. dram_at self.now at) addr width }
        ensures stored { (setup : Setup) (history : List Entry) → IsDramOf setup history self.now
            → result ≡ wide (λ at. dram_byte setup history at) addr width }
    {
        match self.banks.get(addr as usize / BANK) {
            Some(bank) => bank.read(addr as usize % BANK, width),
            None => width.largest(),
        }
    }

    /// Writes a value that fits the width to the bytes from an address on, which is a multiple of the
    /// width, the low byte first. At and past the installed memory the write is lost.
    pub fn write(&mut self, addr: u32, width: Width, value: u32)
        requires aligned { addr % bytes_of width ≡ 0 }
        requires fits { value ≤ largest_of width }
        ensures bytes { IsWritten self.old addr (bytes_of width) (byte value) self.new }
        ensures size { length self.new ≡ length self.old }
        ensures stored { (setup : Setup) (history : List Entry) (entry : Entry) → IsDramOf setup history self.old
            → ((at : ℕ) → entry_put entry.event entry.reply (DramCell at)
            ≡ byte_put (DramTarget 0) addr width value (DramCell at))
            → IsDramOf setup (entry ∷ history) self.new }
    {
        if let Some(bank) = self.banks.get_mut(addr as usize / BANK) {
            bank.write(addr as usize % BANK, width, value);
        }
    }
}

impl Dram {
    /// How many bytes are installed.
    #[tactic(auto, using(crate::proofs::ConcatLemmas::banks_length))]
    pub fn size(&self) -> usize
        ensures size { result ≡ length self.now }
    {
        self.banks.len() * BANK
    }

    /// The bytes of a MiB that are kept, from its first on: those after them are 0, and are not filled in for this.
    /// None past the installed memory.
    #[tactic(auto, using(crate::proofs::ConcatLemmas::banks_length, crate::proofs::StretchLemmas::kept_bytes))]
    pub fn kept(&self, mib: usize) -> Option<&[u8]>
        ensures none { result ≡ None → length self.now ≤ mib * bank_size }
        ensures some { IfSome result (λ kept. (mib + 1) * bank_size ≤ length self.now) }
        ensures within { IfSome result (λ kept. length kept.now ≤ bank_size) }
        ensures bytes { IfSome result (λ kept. (at : ℕ) → at < bank_size
            → slice_index self.now (mib * bank_size + at) ≡ slice_index kept.now at) }
    {
        match self.banks.get(mib) {
            Some(bank) => Some(bank.kept()),
            None => None,
        }
    }

    /// Copies the bytes from an address on, as reads of one byte each would give them.
    pub fn read_bytes(&self, addr: u32, into: &mut [u8])
        ensures length { length into.new ≡ length into.old }
        ensures bytes { (k : ℕ) → k < length into.old → slice_index into.new k ≡ dram_at self.now (addr + k) }
    {
        let mut done = 0;
        while done < into.len() {
            done += self.read_front((addr as usize).saturating_add(done), &mut into[done..]);
        }
    }

    /// Copies the bytes from an address on up to the end of its MiB, and returns how many they are.
    fn read_front(&self, at: usize, into: &mut [u8]) -> usize
        requires some { 0 < length into.old }
        ensures some { 0 < result }
        ensures within { result ≤ length into.old }
        ensures length { length into.new ≡ length into.old }
        ensures bytes { (k : ℕ) → k < result → slice_index into.new k ≡ dram_at self.now (at + k) }
        ensures others { (k : ℕ) → result ≤ k → slice_index into.new k ≡ slice_index into.old k }
    {
        let count = (BANK - at % BANK).min(into.len());
        let front = &mut into[..count];
        match self.banks.get(at / BANK) {
            Some(bank) => bank.read_bytes(at % BANK, front),
            None => front.fill(0xFF),
        }
        count
    }

    /// Replaces the bytes from an address on, as writes of one byte each would.
    pub fn write_bytes(&mut self, addr: u32, bytes: &[u8])
        ensures bytes { IsWritten self.old addr (length bytes.now) (slice_index bytes.now) self.new }
        ensures size { length self.new ≡ length self.old }
    {
        let mut done = 0;
        while done < bytes.len() {
            done += self.write_front((addr as usize).saturating_add(done), &bytes[done..]);
        }
    }

    /// Replaces the bytes from an address on up to the end of its MiB, and returns how many they are.
    fn write_front(&mut self, at: usize, bytes: &[u8]) -> usize
        requires some { 0 < length bytes.now }
        ensures some { 0 < result }
        ensures within { result ≤ length bytes.now }
        ensures bytes { IsWritten self.old at result (slice_index bytes.now) self.new }
        ensures size { length self.new ≡ length self.old }
    {
        let count = (BANK - at % BANK).min(bytes.len());
        if let Some(bank) = self.banks.get_mut(at / BANK) {
            bank.write_bytes(at % BANK, &bytes[..count]);
        }
        count
    }

    /// Puts bytes into the memory from an address on, for a loader. Refused where they do not all lie in the
    /// installed memory, and then nothing changed. It takes no memory.
    pub fn load(&mut self, addr: u32, bytes: &[u8]) -> Result<(), PastTheEnd>
        ensures fits { OnOk result (addr + length bytes.now ≤ length self.old) }
        ensures bytes { OnOk result (IsWritten self.old addr (length bytes.now) (slice_index bytes.now) self.new) }
        ensures size { length self.new ≡ length self.old }
        ensures refused { OnErr result (length self.old < addr + length bytes.now) }
        ensures same { OnErr result (self.new ≡ self.old) }
    {
        let size = self.size();
        if size < addr as usize || size - (addr as usize) < bytes.len() {
            return Err(PastTheEnd);
        }
        self.write_bytes(addr, bytes);
        Ok(())
    }
}
