//! A wide access is cut into aligned bus cycles.
ghost use Rattle.std.specs.Prelude.{◌≡◌, ◌≤◌, ◌<◌, ◌+◌, ◌-◌, List, length, map};
ghost use Rattle.board_prelude.specs.{Setup, IsRomSize, IsWideAccess, longest_at, part_at, parts_of, Bytes};
ghost use Rattle.pci_bars.specs.Cards.{AreFitted};
ghost use Rattle.addr_decode.specs.MapRegs.{StandsFor, map_bytes};
ghost use Rattle.board_stores.specs.Targets.{part_in};
ghost use Rattle.board_stores.specs.Cycles.{accesses, answers};

use crate::memory::decoded;
use addr_decode::MapRegs;
use arrayvec::ArrayVec;
use board_base::{Access, Kind, Target, WideAccess, Width};
use board_spec::Part;

/// The most cycles that a wide access has.
pub const MOST_CYCLES: usize = 4;

/// One aligned part of a wide access, with what it reaches and what denies it.
#[derive(Clone, Copy)]
pub struct Cycle {
    pub access: Access,
    pub answer: Part,
}

impl Default for Cycle {
    fn default() -> Cycle {
        Cycle {
            access: Access {
                kind: Kind::Read,
                addr: 0,
                width: Width::One,
                smm: false,
                value: 0,
            },
            answer: Part {
                target: Target::Abort,
                denial: None,
            },
        }
    }
}

/// The cycles of a wide access, two to four, in rising order of address.
#[tactic(auto, using(crate::proofs::CutLemmas::all_parts))]
pub fn cycles_of(regs: &MapRegs, rom: &[u8], access: &WideAccess) -> ArrayVec<Cycle, MOST_CYCLES>
    requires wide { IsWideAccess access.now }
    requires cards { AreFitted regs.now.cards.items }
    requires rom { IsRomSize (length rom.now) }
    ensures parts { accesses result.items ≡ parts_of access.now }
    ensures decoded { (setup : Setup) (bytes : Bytes) → StandsFor setup bytes (map_bytes regs.now)
        → setup.rom ≡ rom.now → answers result.items ≡ map (part_in setup bytes) (parts_of access.now) }
{
    let mut cycles = ArrayVec::new();
    let mut done = 0;
    for _ in 0..MOST_CYCLES {
        if done < access.bytes {
            let part = part_at(access, done);
            done += part.width.bytes() as u8;
            cycles.push(Cycle {
                access: part,
                answer: decoded(regs, rom, &part),
            });
        }
    }
    cycles
}

/// The part that begins `done` bytes after the first.
#[tactic(auto, using(crate::proofs::CutLemmas::part_cut))]
fn part_at(access: &WideAccess, done: u8) -> Access
    requires inside { done < access.now.bytes }
    requires bytes { access.now.bytes ≤ 8 }
    requires ends { access.now.addr + access.now.bytes ≤ 0x1_0000_0000 }
    ensures part { result ≡ part_at access.now (access.now.addr + done)
        (longest_at (access.now.addr + done) (access.now.bytes - done)) }
{
    let addr = access.addr + u32::from(done);
    let width = longest_at(addr, access.bytes - done);
    let value = access.value >> (8 * u32::from(done)) & u64::from(width.largest());
    Access {
        kind: access.kind,
        addr,
        width,
        smm: access.smm,
        value: value as u32,
    }
}

/// The longest width that is aligned at an address and has no more than the bytes that are left.
fn longest_at(addr: u32, left: u8) -> Width
    ensures longest { result ≡ longest_at addr left }
{
    if addr % 4 == 0 && left >= 4 {
        return Width::Four;
    }
    if addr % 2 == 0 && left >= 2 {
        return Width::Two;
    }
    Width::One
}
