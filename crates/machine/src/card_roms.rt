//! The bytes that expansion ROMs of cards were given, out and in.

ghost use Rattle.std.specs.Prelude.{◌≡◌, ◌≢◌, ◌==◌, ◌+◌, ◌<◌, ◌≤◌, ◌^◌, ℕ, All, find, option_and_then, [], None};
ghost use Rattle.std.specs.Prelude.{length, slice_index, IfOk, IfErr, OnOk, OnErr, true, false};
ghost use Rattle.board_prelude.specs.{IsCard, IsExpansionRom, expansion_byte};
ghost use Rattle.machine.specs.CardRoms.{IsPastRom, IsRomRead, IsRomRefusal, IsRomWritten, rom_size, size_of_rom};
ghost use Rattle.machine.specs.Roms.{IsKept, given, put_byte, rom_byte, roms_in};

use crate::machine::Machine;
use crate::refusal::Refusal;
use crate::rom::fixed_byte;
use crate::roms::Roms;
use board_base::NoMemory;
use board_chipset::Chipset;
use pci_bars::CardSpec;
use std::alloc::Global;

impl Machine {
    /// Fills `into` with the bytes of the expansion ROM of a card from an offset on, as reads give them. Refused with
    /// `PastEnd` where they do not all lie in it: a card that is not there, or has no such ROM, has none.
    pub fn read_rom(&self, dev: u8, off: u32, into: &mut [u8]) -> Result<(), Refusal>
        ensures read { OnOk result (IsRomRead dev off into.old into.new self.now) }
        ensures refused { IfErr result (λ why. IsPastRom dev off (length into.old) why self.now) }
        ensures unread { OnErr result (into.new ≡ into.old) }
    {
        let size = rom_size(self.serial.board(), dev);
        if !lies_in(off, into.len(), size) {
            return Err(Refusal::PastEnd);
        }
        read_given(&self.roms, dev, off, into);
        Ok(())
    }

    /// Gives the expansion ROM of a card bytes from an offset on: reads give these from now on, and a write of the
    /// guest changes none. Refused with `PastEnd` as `read_rom` is, and with `NoMemory` only of a ROM into which no
    /// bytes were put yet, which takes memory for all of its bytes at once; then nothing has changed.
    pub fn write_rom(
        &mut self,
        alloc: Global,
        dev: u8,
        off: u32,
        bytes: &[u8],
    ) -> Result<(), Refusal>
        ensures written { OnOk result (IsRomWritten dev off bytes.now self.old self.new) }
        ensures refused { IfErr result (λ why. IsRomRefusal dev off (length bytes.now) why self.old) }
        ensures unchanged { OnErr result (self.new ≡ self.old) }
    {
        let size = rom_size(self.serial.board(), dev);
        if !lies_in(off, bytes.len(), size) {
            return Err(Refusal::PastEnd);
        }
        if bytes.is_empty() {
            return Ok(());
        }
        match put_given(alloc, &mut self.roms, dev, size, off, bytes) {
            Ok(()) => Ok(()),
            Err(_) => Err(Refusal::NoMemory),
        }
    }
}

/// Whether so many bytes from an offset on lie in as many as the size.
fn lies_in(off: u32, count: usize, size: usize) -> bool
    ensures within { result ≡ true → off + count ≤ size }
    ensures past { result ≡ false → size < off + count }
{
    let off = off as usize;
    off <= size && count <= size - off
}

/// How many bytes the expansion ROM of a card has: 0 where there is no such card, or it has none.
pub fn rom_size(chipset: &Chipset, dev: u8) -> usize
    ensures size { result ≡ rom_size chipset.now.setup dev }
    ensures most { result ≤ 2 ^ 24 }
    ensures device { 0 < result → dev < 10 }
{
    rom_in(&chipset.setup().cards, dev)
}

/// The same by the cards of a board.
#[tactic(auto, using(crate::proofs::RomCards::card_next))]
fn rom_in(cards: &[CardSpec], dev: u8) -> usize
    requires cards { All IsCard cards.now }
    ensures size { result
        ≡ size_of_rom (option_and_then (λ card. card.rom) (find (λ card. card.dev == dev) cards.now)) }
    ensures most { result ≤ 2 ^ 24 }
    ensures device { 0 < result → dev < 10 }
{
    for card in cards {
        if card.dev == dev {
            return size_of_rom(card.rom);
        }
    }
    0
}

/// How many bytes an expansion ROM has, where there is one.
#[tactic(auto, using(pci_bars::proofs::BaseLemmas::rom_size))]
fn size_of_rom(bits: Option<u8>) -> usize
    requires rom { IsExpansionRom bits }
    ensures size { result ≡ size_of_rom bits }
    ensures most { result ≤ 2 ^ 24 }
{
    match bits {
        Some(bits) => 1 << bits,
        None => 0,
    }
}

/// Fills `into` with the bytes of the expansion ROM of the card at a device from an offset on, as reads give them.
#[tactic(auto, using(crate::proofs::RomBytes::none_in))]
fn read_given(roms: &Option<Roms>, dev: u8, off: u32, into: &mut [u8])
    requires within { off + length into.old ≤ 2 ^ 24 }
    ensures size { length into.new ≡ length into.old }
    ensures bytes { (k : ℕ) → k < length into.old
        → slice_index into.new k ≡ rom_byte (roms_in roms.now) dev (off + k) }
{
    match roms {
        Some(roms) => roms.read(dev, off, into),
        None => read_fixed(dev, off, into),
    }
}

/// The same of a ROM that was given none.
fn read_fixed(dev: u8, off: u32, into: &mut [u8])
    requires within { off + length into.old ≤ 2 ^ 24 }
    ensures size { length into.new ≡ length into.old }
    ensures bytes { (k : ℕ) → k < length into.old → slice_index into.new k ≡ expansion_byte dev (off + k) }
{
    for k in 0..into.len() {
        into[k] = fixed_byte(dev, off as usize + k);
    }
}

/// Gives the expansion ROM of the card at a device, which has so many bytes, these from an offset on; from then on all
/// its bytes are kept. It takes memory only where they were not, and is refused where there is none; then nothing has
/// changed.
fn put_given(
    alloc: Global,
    roms: &mut Option<Roms>,
    dev: u8,
    size: usize,
    off: u32,
    bytes: &[u8],
) -> Result<(), NoMemory>
    requires device { dev < 10 }
    requires within { off + length bytes.now ≤ size }
    ensures put { OnOk result ((d at : ℕ) → rom_byte (roms_in roms.new) d at
        ≡ put_byte dev off bytes.now d at (rom_byte (roms_in roms.old) d at)) }
    ensures kept { OnOk result (IsKept (roms_in roms.new) dev size) }
    ensures others { OnOk result ((d : ℕ) → d ≢ dev → given (roms_in roms.new) d ≡ given (roms_in roms.old) d) }
    ensures refused { OnErr result (0 < size → ¬ IsKept (roms_in roms.old) dev size) }
    ensures unchanged { OnErr result (roms.new ≡ roms.old) }
{
    match roms {
        Some(roms) => roms.put(alloc, dev, size, off, bytes),
        None => put_first(alloc, roms, dev, size, off, bytes),
    }
}

/// The same where no ROM was given any.
fn put_first(
    alloc: Global,
    roms: &mut Option<Roms>,
    dev: u8,
    size: usize,
    off: u32,
    bytes: &[u8],
) -> Result<(), NoMemory>
    requires none { roms.old ≡ None }
    requires device { dev < 10 }
    requires within { off + length bytes.now ≤ size }
    ensures put { OnOk result ((d at : ℕ) → rom_byte (roms_in roms.new) d at
        ≡ put_byte dev off bytes.now d at (rom_byte (roms_in roms.old) d at)) }
    ensures kept { OnOk result (IsKept (roms_in roms.new) dev size) }
    ensures others { OnOk result ((d : ℕ) → d ≢ dev → given (roms_in roms.new) d ≡ given (roms_in roms.old) d) }
    ensures refused { OnErr result (0 < size → ¬ IsKept (roms_in roms.old) dev size) }
    ensures unchanged { OnErr result (roms.new ≡ roms.old) }
{
    match first_roms(alloc, dev, size, off, bytes) {
        Ok(first) => {
            *roms = Some(first);
            Ok(())
        }
        Err(refused) => Err(refused),
    }
}

/// The ROMs of which one was given bytes.
fn first_roms(alloc: Global, dev: u8, size: usize, off: u32, bytes: &[u8]) -> Result<Roms, NoMemory>
    requires device { dev < 10 }
    requires within { off + length bytes.now ≤ size }
    ensures put { IfOk result (λ roms. (d at : ℕ)
        → rom_byte roms d at ≡ put_byte dev off bytes.now d at (rom_byte [] d at)) }
    ensures kept { IfOk result (λ roms. IsKept roms dev size) }
    ensures others { IfOk result (λ roms. (d : ℕ) → d ≢ dev → given roms d ≡ []) }
{
    let mut roms = Roms::open(alloc)?;
    roms.put(alloc, dev, size, off, bytes)?;
    Ok(roms)
}
