//! Accesses to memory.

ghost use Rattle.std.specs.Prelude.{◌≡◌, List, ◌∷◌};
ghost use Rattle.board_prelude.specs.{Bytes, Entry, Memory, Setup, IsBusAccess, is_write, memory_answer};
ghost use Rattle.addr_decode.specs.MapRegs.{StandsFor};
ghost use Rattle.board_stores.specs.Targets.{part_in};
ghost use Rattle.board_chipset.specs.BusReplies.{reply_of};
ghost use Rattle.board_chipset.specs.Held.{memory_reply_in};
ghost use Rattle.board_chipset.specs.Kept.{IsState, IsStateOf, StaysSound};

use crate::bus_reply::BusReply;
use crate::state::State;
use addr_decode::plain_row;
use board_base::{Access, Target};
use board_spec::Part;
use board_stores::{decoded_elsewhere, read, write};

/// Does an access to memory of one bus cycle, and returns the reply.
#[inline(always)]
pub fn access(state: &mut State, rom: &[u8], access: &Access) -> BusReply
    requires bus { IsBusAccess (is_write access.now.kind) access.now.addr access.now.width access.now.value }
    requires kept { IsState state.old rom.now }
    ensures sound { StaysSound state.old state.new }
    ensures answer { (setup : Setup) (history : List Entry) → IsStateOf setup history state.old
        → setup.rom ≡ rom.now
        → reply_of result ≡ memory_answer setup history access.now }
    ensures board { (setup : Setup) (history : List Entry) (entry : Entry)
        → IsStateOf setup history state.old → setup.rom ≡ rom.now
        → entry.event ≡ Memory access.now → entry.reply ≡ reply_of result
        → IsStateOf setup (entry ∷ history) state.new }
    ensures held { (setup : Setup) (bytes : Bytes) → StandsFor setup bytes state.old.registers.map.regs
        → setup.rom ≡ rom.now → reply_of result ≡ memory_reply_in state.old.stores setup bytes access.now }
{
    let regs = state.registers.regs();
    match plain_row(regs, access.addr) {
        Some(row) => {
            let answer = Part {
                target: Target::Dram(row),
                denial: None,
            };
            answered(state, rom, access, &answer)
        }
        None => {
            let answer = decoded_elsewhere(regs, rom, access);
            answered(state, rom, access, &answer)
        }
    }
}

/// Does an access to memory of one bus cycle where what it reaches is known, and what denies it.
#[tactic(auto, using(crate::proofs::MemorySteps::answered_rules), unfolding(board_spec::specs::Answer::memory_answer, board_spec::specs::Answer::part_answer))]
#[inline(always)]
fn answered(state: &mut State, rom: &[u8], access: &Access, answer: &Part) -> BusReply
    requires bus { IsBusAccess (is_write access.now.kind) access.now.addr access.now.width access.now.value }
    requires kept { IsState state.old rom.now }
    requires decoded { (setup : Setup) (bytes : Bytes) → StandsFor setup bytes state.old.registers.map.regs
        → setup.rom ≡ rom.now → answer.now ≡ part_in setup bytes access.now }
    ensures sound { StaysSound state.old state.new }
    ensures answer { (setup : Setup) (history : List Entry) → IsStateOf setup history state.old
        → setup.rom ≡ rom.now
        → reply_of result ≡ memory_answer setup history access.now }
    ensures board { (setup : Setup) (history : List Entry) (entry : Entry)
        → IsStateOf setup history state.old → setup.rom ≡ rom.now
        → entry.event ≡ Memory access.now → entry.reply ≡ reply_of result
        → IsStateOf setup (entry ∷ history) state.new }
    ensures held { (setup : Setup) (bytes : Bytes) → StandsFor setup bytes state.old.registers.map.regs
        → setup.rom ≡ rom.now → reply_of result ≡ memory_reply_in state.old.stores setup bytes access.now }
{
    let (target, denial) = (answer.target, answer.denial);
    if access.kind.is_write() {
        write(&mut state.stores, access, answer);
        return BusReply {
            value: None,
            target,
            denial,
        };
    }
    let value = Some(read(&state.stores, rom, access, answer));
    BusReply {
        value,
        target,
        denial,
    }
}
