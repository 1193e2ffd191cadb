//! The state of the DRAM as bytes, out and in.
ghost use Rattle.std.specs.Prelude.{◌≡◌, ◌≤◌, ◌*◌, ℕ, ◌++◌, All, OnOk};
ghost use Rattle.std.specs.List.{concat};
ghost use Rattle.board_prelude.specs.{most_mib};
ghost use Rattle.byte_fields.specs.Fields.{Filled};
ghost use Rattle.byte_fields.specs.Loads.{LoadsWith, OneSpelling};
ghost use Rattle.byte_fields.specs.Pages.{memory_bytes};
ghost use Rattle.dram_store.specs.Bank.{IsBank};
ghost use Rattle.dram_store.specs.State.{HasMib, dram_bytes, dram_fields};

use crate::bank::Bank;
use crate::dram::Dram;
use board_base::NoMemory;
use byte_fields::{Fault, Fields};
use std::alloc::Global;

impl Dram {
    /// Adds the bytes by pages of 4,096 bytes: a byte 0 for a page of zeros, else a byte 1 and the page.
    pub fn save_state(&self, into: &mut Vec<u8>) -> Result<(), NoMemory>
        ensures saved { OnOk result (into.new.items ≡ into.old.items ++ dram_bytes self.now) }
    {
        save_banks(&self.banks, into)
    }

    /// The DRAM of `mib` MiB, 1 to 512, whose bytes are at the front. Refused where a page is (`Fields::page`): the
    /// bytes left then begin with its flag or its bytes. No later call takes memory.
    pub fn load_state(alloc: Global, mib: u32, fields: &mut Fields) -> Result<Dram, Fault>
        requires some { 1 ≤ mib }
        requires most { mib ≤ most_mib }
        ensures loaded { LoadsWith (dram_fields mib) dram_bytes (HasMib mib) fields.old fields.new result }
    {
        fields.are_bytes();
        Dram::read_state(alloc, mib, fields)
    }

    /// Reads a bank for each MiB.
    #[tactic(auto, using(crate::proofs::StateFormats::banks_done))]
    fn read_state(alloc: Global, mib: u32, fields: &mut Fields) -> Result<Dram, Fault>
        requires most { mib ≤ most_mib }
        ensures filled { Filled (λ dram. dram) result fields.new (dram_fields mib fields.old) }
    {
        let mut banks = Vec::with_capacity(alloc, mib as usize)?;
        for _ in 0..mib {
            banks.push(Bank::load_state(alloc, fields)?)?;
        }
        Ok(Dram { banks })
    }
}

/// Adds the bytes of banks that follow one another.
fn save_banks(banks: &[Bank], into: &mut Vec<u8>) -> Result<(), NoMemory>
    requires each { All IsBank banks.now }
    ensures saved { OnOk result (into.new.items ≡ into.old.items ++ memory_bytes (concat banks.now)) }
{
    for bank in banks {
        bank.save_state(into)?;
    }
    Ok(())
}

/// One DRAM of so many MiB has one spelling, and one spelling is of one.
pub fn law_one_dram()
    ensures one { (mib : ℕ) → OneSpelling dram_bytes (HasMib mib) }
{}
