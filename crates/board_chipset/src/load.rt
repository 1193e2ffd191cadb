//! Bytes that are written to a chipset from outside the bus.

ghost use Rattle.std.specs.Prelude.{◌≡◌, ◌≤◌, ◌<◌, ◌+◌, ◌↔◌, ◌++◌, List, length, IsErr, OnOk, OnErr};
ghost use Rattle.board_prelude.specs.{Entry, installed};
ghost use Rattle.board_chipset.specs.Chipset.{IsLeftBy};
ghost use Rattle.board_chipset.specs.Loads.{WriteAll, WriteClockByte};

use crate::chipset::Chipset;
use cmos_clock::CLOCK_BYTES;
use dram_store::PastTheEnd;
use thiserror::Error;

/// The refusal of an address of the clock that is not below 128.
#[derive(Clone, Copy, PartialEq, Eq, Debug, Error)]
#[error("the clock has no byte at this address")]
pub struct NoClockByte;

impl Chipset {
    /// Puts bytes into the DRAM from an address on, for a loader, as if writes had put them there one after another.
    /// Refused exactly where they do not all lie in the installed memory; then nothing has changed. It takes no memory.
    #[tactic(auto, using(crate::proofs::LoadSteps::write_dram_rules), unfolding(crate::specs::Chipset::IsLeftBy))]
    pub fn write_dram(&mut self, addr: u32, bytes: &[u8]) -> Result<(), PastTheEnd>
        ensures refused { IsErr result ↔ installed self.old.setup < addr + length bytes.now }
        ensures unchanged { OnErr result (self.new ≡ self.old) }
        ensures setup { self.new.setup ≡ self.old.setup }
        ensures left { OnOk result ((history entries : List Entry) → IsLeftBy self.old history
            → WriteAll addr bytes.now entries → IsLeftBy self.new (entries ++ history)) }
        ensures goes_on { (history : List Entry) → IsLeftBy self.old history
            → (later : List Entry) × IsLeftBy self.new later }
    {
        self.state.stores.dram.load(addr, bytes)
    }

    /// Writes the byte of the clock at an address below 128, as a processor does by ports 70h and 71h, and leaves the
    /// index at port 70h as it was. A write changes some bits of registers A and B, and none of C and D. Refused
    /// exactly where the address is not below 128; then nothing has changed.
    #[tactic(auto, using(crate::proofs::StateSteps::sound_devices))]
    pub fn set_clock_byte(&mut self, address: u8, byte: u8) -> Result<(), NoClockByte>
        ensures refused { IsErr result ↔ 128 ≤ address }
        ensures unchanged { OnErr result (self.new ≡ self.old) }
        ensures setup { self.new.setup ≡ self.old.setup }
        ensures left { OnOk result ((history later : List Entry) → IsLeftBy self.old history
            → WriteClockByte history address byte later → IsLeftBy self.new later) }
        ensures goes_on { (history : List Entry) → IsLeftBy self.old history
            → (later : List Entry) × IsLeftBy self.new later }
    {
        if usize::from(address) >= CLOCK_BYTES {
            return Err(NoClockByte);
        }
        let routes = &self.state.registers.south.routes;
        self.state.devices.set_clock_byte(routes, address, byte);
        Ok(())
    }
}
