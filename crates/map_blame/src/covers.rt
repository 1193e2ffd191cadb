//! The last changes that cover each register, and the first that locks SMRAM.
ghost use Rattle.std.specs.Prelude.{◌≡◌, ◌<◌, ◌+◌, ◌&&◌, if◌then◌else◌, [], ◌∷◌, List, Some, true, false, length};
ghost use Rattle.board_prelude.specs.{Reg, MapChange, Store, is_bit, byte, reg_after, is_same};
ghost use Rattle.board_prelude.specs.{covers as covers_register};
ghost use Rattle.map_blame.specs.Keep.{locks as locks_by};
ghost use Rattle.map_blame.specs.Covers.{AreCoversOf, is_placed, place_of as place_by, number_at};

use board_base::{Reg, Width};
use board_spec::MapChange;
use board_spec::bits::is_set;
use board_spec::offset::{HOST_BRIDGE, SMRAM};

/// The bit of the SMRAM register that locks it (82441FX, SMRAM register).
const DLCK: u32 = 4;

/// How many devices a board can have on bus 0: the two bridges and eight cards.
const DEVICES: u8 = 10;

/// How many registers a function has.
const REGISTERS: usize = 256;

/// How many registers function 0 of all devices has.
const PLACES: usize = 2560;

/// The numbers of changes on which the map may rest.
#[derive(Drop)]
pub struct Covers {
    /// For each register of function 0 of each device, the last change since the last reset that covers it.
    pub last: [Option<u32>; PLACES],
    /// The first change since the last reset that sets DLCK.
    pub lock: Option<u32>,
}

impl Covers {
    /// The covers where there were no changes: none.
    pub fn new() -> Covers
        ensures none { AreCoversOf [] result }
    {
        Covers {
            last: [None; PLACES],
            lock: None,
        }
    }

    /// Adds a change with its number.
    pub fn add(&mut self, number: u32, change: &MapChange)
        ensures added { (changes : List MapChange) → number ≡ length changes + 1 → AreCoversOf changes self.old
            → AreCoversOf (change.now ∷ changes) self.new }
    {
        match change {
            MapChange::Store { reg, width, value } => self.add_store(number, *reg, *width, *value),
            MapChange::Reset => *self = Covers::new(),
        }
    }

    /// Adds a store with its number.
    fn add_store(&mut self, number: u32, reg: Reg, width: Width, value: u32)
        ensures added { (changes : List MapChange) → number ≡ length changes + 1 → AreCoversOf changes self.old
            → AreCoversOf (Store reg width value ∷ changes) self.new }
    {
        cover_all(&mut self.last, number, reg, width);
        self.lock = self.lock.or(locks(reg, width, value).then_some(number));
    }

    /// The number of the last change that covers a register. None where the register has no place.
    pub fn last_of(&self, reg: Reg) -> Option<u32>
        ensures number { result ≡ number_at self.now.last reg }
    {
        match place_of(reg) {
            Some(place) => self.last[place],
            None => None,
        }
    }
}

/// Notes a number as the last for the registers that a store covers.
fn cover_all(last: &mut [Option<u32>; PLACES], number: u32, reg: Reg, width: Width)
    ensures covered { (other : Reg) → is_placed other ≡ true → number_at last.new other
        ≡ (if covers_register reg width other then Some number else number_at last.old other) }
{
    for k in 0..width.bytes() as u8 {
        cover_after(last, number, reg, k);
    }
}

/// Notes a number as the last for the register `k` offsets after another. There is none past offset FFh.
fn cover_after(last: &mut [Option<u32>; PLACES], number: u32, reg: Reg, k: u8)
    ensures covered { (other : Reg) → is_placed other ≡ true → number_at last.new other
        ≡ (if is_same other (reg_after reg k) then Some number else number_at last.old other) }
{
    match reg.off.checked_add(k) {
        Some(off) => cover(last, number, Reg { off, ..reg }),
        None => {}
    }
}

/// Notes a number as the last for a register.
fn cover(last: &mut [Option<u32>; PLACES], number: u32, reg: Reg)
    ensures covered { (other : Reg) → is_placed other ≡ true → number_at last.new other
        ≡ (if is_same other reg then Some number else number_at last.old other) }
{
    if let Some(place) = place_of(reg) {
        last[place] = Some(number);
    }
}

/// The place of a register of function 0 of a device that a board can have.
fn place_of(reg: Reg) -> Option<usize>
    ensures place { result ≡ place_by reg }
{
    if reg.dev < DEVICES && reg.fun == 0 {
        return Some(usize::from(reg.dev) * REGISTERS + usize::from(reg.off));
    }
    None
}

/// Whether a store writes the SMRAM register with DLCK at 1.
fn locks(reg: Reg, width: Width, value: u32) -> bool
    ensures locks { result ≡ locks_by (Store reg width value) }
{
    if reg.dev != HOST_BRIDGE || reg.fun != 0 || reg.off > SMRAM {
        return false;
    }
    let index = SMRAM - reg.off;
    u32::from(index) < width.bytes() && has_lock(value, index)
}

/// Whether DLCK is 1 in a byte of a value, the low byte first.
fn has_lock(value: u32, index: u8) -> bool
    requires index { index < 4 }
    ensures lock { result ≡ is_bit (byte value index) 4 }
{
    is_set(u32::from(value.to_le_bytes()[usize::from(index)]), DLCK)
}
