//! The bytes of expansion ROMs, by the device numbers of their cards.

ghost use Rattle.std.specs.Prelude.{◌≡◌, ◌≢◌, ◌<◌, ◌≤◌, ◌+◌, ◌==◌, ℕ, [], length, slice_index, not, IfOk, OnOk, OnErr};
ghost use Rattle.machine.specs.Roms.{IsKept, byte_over, given, put_byte, rom_byte};

use crate::rom::{Rom, fixed_byte};
use board_base::NoMemory;
use std::alloc::Global;
use std::marker::Model;

/// How many device numbers there are up to the last that a card can have.
const DEVICES: usize = 10;

/// What expansion ROMs were given: of each device number the bytes from the ROM's first on, none where it was given
/// none.
#[derive(Drop)]
pub struct Roms {
    all: Vec<Rom>,
}

impl Model for Roms {
    ghost use Rattle.std.specs.Prelude.{◌≡◌, ℕ, List, vec_len};

    ghost Value = { List (List ℕ) };

    ghost view = { λ roms. roms.all.items };

    ghost invariant = { λ roms. vec_len roms.all ≡ 10 };
}

impl Roms {
    /// Of no ROM any bytes.
    #[tactic(auto, using(crate::proofs::RomBytes::none_given))]
    pub fn open(alloc: Global) -> Result<Roms, NoMemory>
        ensures none { IfOk result (λ roms. (dev : ℕ) → given roms dev ≡ []) }
    {
        let mut all = Vec::new(alloc);
        for _ in 0..DEVICES {
            all.push(Rom::none(alloc))?;
        }
        Ok(Roms { all })
    }

    /// Whether the ROM of the card at a device was given bytes.
    #[tactic(auto, using(std::proofs::lemmas::List::get_or_past, std::proofs::lemmas::Bool::Decides::nat_tests))]
    pub fn is_given(&self, dev: u8) -> bool
        ensures given { result ≡ not (length (given self.now dev) == 0) }
    {
        let at = usize::from(dev);
        let count = self.all.len();
        if at >= count {
            return false;
        }
        self.all[at].len() != 0
    }

    /// The byte that the ROM of the card at a device was given at an offset, and `old` where it was given none.
    #[tactic(auto, using(std::proofs::lemmas::List::get_or_past, std::proofs::lemmas::Bool::Decides::nat_tests))]
    pub fn byte(&self, dev: u8, off: usize, old: u8) -> u8
        ensures byte { result ≡ byte_over self.now dev off old }
    {
        let at = usize::from(dev);
        let count = self.all.len();
        if at >= count {
            return old;
        }
        self.all[at].byte(off, old)
    }

    /// Fills `into` with the bytes of the ROM of the card at a device from an offset on, as reads give them.
    pub fn read(&self, dev: u8, off: u32, into: &mut [u8])
        requires within { off + length into.old < 0x1_0000_0000 }
        ensures size { length into.new ≡ length into.old }
        ensures bytes { (k : ℕ) → k < length into.old → slice_index into.new k ≡ rom_byte self.now dev (off + k) }
    {
        for k in 0..into.len() {
            let at = off as usize + k;
            into[k] = self.byte(dev, at, fixed_byte(dev, at));
        }
    }

    /// Gives the ROM of the card at a device, which has so many bytes, these from an offset on; from then on all its
    /// bytes are kept. It takes memory only where they were not, and is refused where there is none; then nothing has
    /// changed.
    pub fn put(
        &mut self,
        alloc: Global,
        dev: u8,
        size: usize,
        off: u32,
        bytes: &[u8],
    ) -> Result<(), NoMemory>
        requires device { dev < 10 }
        requires within { off + length bytes.now ≤ size }
        ensures put { OnOk result ((d at : ℕ)
            → rom_byte self.new d at ≡ put_byte dev off bytes.now d at (rom_byte self.old d at)) }
        ensures kept { OnOk result (IsKept self.new dev size) }
        ensures others { OnOk result ((d : ℕ) → d ≢ dev → given self.new d ≡ given self.old d) }
        ensures refused { OnErr result (¬ IsKept self.old dev size) }
        ensures unchanged { OnErr result (self.new ≡ self.old) }
    {
        self.grow(alloc, dev, size)?;
        self.all[usize::from(dev)].write(off as usize, bytes);
        Ok(())
    }

    /// Gives the ROM of the card at a device all its bytes, as reads give them now. Refused where there is no memory.
    fn grow(&mut self, alloc: Global, dev: u8, size: usize) -> Result<(), NoMemory>
        requires device { dev < 10 }
        ensures same { OnOk result ((d at : ℕ) → rom_byte self.new d at ≡ rom_byte self.old d at) }
        ensures kept { OnOk result (IsKept self.new dev size) }
        ensures others { OnOk result ((d : ℕ) → d ≢ dev → given self.new d ≡ given self.old d) }
        ensures refused { OnErr result (¬ IsKept self.old dev size) }
        ensures unchanged { OnErr result (self.new ≡ self.old) }
    {
        let at = usize::from(dev);
        if self.all[at].len() >= size {
            return Ok(());
        }
        let rom = self.all[at].grown(alloc, dev, size)?;
        self.all[at] = rom;
        Ok(())
    }
}
