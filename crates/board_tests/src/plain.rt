//! A board without cards, a register that the tests write, and an entry.

ghost use Rattle.std.specs.Prelude.{◌≡◌, ◌≤◌, [], IfOk};

use board_base::{Dev, Reg, Target};
use board_core::{Board, Setup};
use board_spec::{Entry, Event, Reply};
use std::alloc::Global;
use std::test::Fail;

/// PAM0, which governs F0000h to FFFFFh.
pub const PAM0: Reg = Reg {
    dev: 0,
    fun: 0,
    off: 0x59,
};

/// A board with a ROM of 64 KiB, without cards and without a disk.
pub fn plain_board(alloc: Global, mib: u32) -> Result<Board, Fail>
    requires some { 1 ≤ mib }
    requires most { mib ≤ 64 }
    ensures fresh { IfOk result (λ board. board.entries ≡ []) }
{
    let setup = Setup {
        mib,
        cards: Vec::new(alloc),
        rom: vec![in alloc; 0; 0x1_0000]?,
        disk: None,
    };
    Ok(Board::open(alloc, setup)?)
}

/// The interrupt acknowledge of a processor, which is its first entry.
pub const fn acknowledged(actor: u8, vector: u32) -> Entry {
    Entry {
        actor,
        seq: 1,
        event: Event::Ack,
        reply: Reply::Bus {
            value: Some(vector),
            target: Target::Device(Dev::Vector(0)),
            denial: None,
        },
    }
}
