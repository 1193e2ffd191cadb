//! The callers of a shared board.

use crate::caller::Caller;
use board_base::{Kind, NoMemory};
use board_core::UnrecordedBoard;
use board_live::{Cpu, Live, Origin};
use board_spec::{Event, Look, Reply};
use std::sync::Wait;

impl Caller for Cpu<UnrecordedBoard> {
    type Shared = Live<UnrecordedBoard>;

    type Fixed = Option<Origin>;

    ghost use Rattle.bus_turn.specs.Passes.{part_of};
    ghost use Rattle.board_live.specs.Callers.{IsCallerOf, setup_of, seen_of, known_of};

    ghost number = { λ cpu. cpu.number };

    ghost setup = { λ cpu. setup_of cpu };

    ghost fixed = { λ cpu. part_of cpu.pass };

    ghost seen = { λ cpu. seen_of cpu };

    ghost known = { λ cpu. known_of cpu };

    ghost is_of = { λ live cpu. IsCallerOf live cpu };

    fn number(&self) -> u8 {
        self.number
    }

    fn version(&self) -> u32 {
        Cpu::version(self)
    }

    fn bus<R: Wait>(
        &mut self,
        live: &Live<UnrecordedBoard>,
        rt: &R,
        event: &Event,
    ) -> Result<Reply, NoMemory> {
        let answered = Cpu::bus(self, live, rt, event)?;
        Ok(answered.reply)
    }

    fn look(&mut self, addr: u32, kind: Kind, smm: bool) -> Look {
        Cpu::look(self, addr, kind, smm)
    }
}
