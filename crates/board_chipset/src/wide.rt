//! Wide accesses to memory: those that take two to four bus cycles.

ghost use Rattle.std.specs.Prelude.{◌≡◌, ◌≤◌, List, ◌∷◌, length, map};
ghost use Rattle.board_prelude.specs.{Bytes, Entry, Wide, Setup, IsWideAccess, parts_list, parts_of, IsAnswer};
ghost use Rattle.addr_decode.specs.MapRegs.{StandsFor};
ghost use Rattle.board_stores.specs.Cycles.{answers};
ghost use Rattle.board_stores.specs.Rows.{in_row as answers_in};
ghost use Rattle.board_stores.specs.Targets.{part_in};
ghost use Rattle.board_chipset.specs.BusReplies.{wide_reply_of};
ghost use Rattle.board_chipset.specs.Held.{ArePartsIn};
ghost use Rattle.board_chipset.specs.Kept.{IsState, IsStateOf, StaysSound};

use crate::bus_reply::WideReply;
use crate::state::State;
use board_base::WideAccess;
use board_spec::Parts;
use board_spec::laws::law_parts;
use board_stores::{
    Cycle, cycles_of, parts_in_row, read_cycles, read_row, row_of_all, write_cycles, write_row,
};

/// Does a wide access, and returns the reply. First each of its cycles is decoded, then they are done one after
/// another. Where all lie in one row of ordinary DRAM, that is asked once, and they are done at once.
/// It is not inlined, as few statements are wide.
#[inline(never)]
pub fn access(state: &mut State, rom: &[u8], access: &WideAccess) -> WideReply
    requires wide { IsWideAccess access.now }
    requires kept { IsState state.old rom.now }
    ensures sound { StaysSound state.old state.new }
    ensures answer { (setup : Setup) (history : List Entry) → IsStateOf setup history state.old
        → setup.rom ≡ rom.now
        → IsAnswer setup history (Wide access.now) (wide_reply_of result) }
    ensures board { (setup : Setup) (history : List Entry) (entry : Entry)
        → IsStateOf setup history state.old → setup.rom ≡ rom.now
        → entry.event ≡ Wide access.now → entry.reply ≡ wide_reply_of result
        → IsStateOf setup (entry ∷ history) state.new }
    ensures held { (setup : Setup) (bytes : Bytes) → StandsFor setup bytes state.old.registers.map.regs
        → setup.rom ≡ rom.now → ArePartsIn setup bytes access.now result.parts }
{
    match row_of_all(state.registers.regs(), access) {
        Some(row) => in_row(state, rom, row, access),
        None => in_cycles(state, rom, access),
    }
}

/// Does a wide access all of whose cycles reach a row of ordinary DRAM.
#[tactic(auto, using(crate::proofs::StateSteps::sound_put))]
#[inline(always)]
fn in_row(state: &mut State, rom: &[u8], row: u8, access: &WideAccess) -> WideReply
    requires wide { IsWideAccess access.now }
    requires kept { IsState state.old rom.now }
    requires row { (setup : Setup) (bytes : Bytes) → StandsFor setup bytes state.old.registers.map.regs
        → map (part_in setup bytes) (parts_of access.now) ≡ answers_in row (parts_of access.now) }
    ensures sound { StaysSound state.old state.new }
    ensures answer { (setup : Setup) (history : List Entry) → IsStateOf setup history state.old
        → setup.rom ≡ rom.now
        → IsAnswer setup history (Wide access.now) (wide_reply_of result) }
    ensures board { (setup : Setup) (history : List Entry) (entry : Entry)
        → IsStateOf setup history state.old → setup.rom ≡ rom.now
        → entry.event ≡ Wide access.now → entry.reply ≡ wide_reply_of result
        → IsStateOf setup (entry ∷ history) state.new }
    ensures held { (setup : Setup) (bytes : Bytes) → StandsFor setup bytes state.old.registers.map.regs
        → setup.rom ≡ rom.now → ArePartsIn setup bytes access.now result.parts }
{
    law_parts();
    let parts = parts_in_row(row, access);
    if access.kind.is_write() {
        write_row(&mut state.stores, access);
        return WideReply { value: None, parts };
    }
    let value = Some(read_row(&state.stores.dram, access));
    WideReply { value, parts }
}

/// Does the cycles of a wide access one after another.
#[tactic(auto, using(crate::proofs::StateSteps::sound_put))]
#[inline(never)]
fn in_cycles(state: &mut State, rom: &[u8], access: &WideAccess) -> WideReply
    requires wide { IsWideAccess access.now }
    requires kept { IsState state.old rom.now }
    ensures sound { StaysSound state.old state.new }
    ensures answer { (setup : Setup) (history : List Entry) → IsStateOf setup history state.old
        → setup.rom ≡ rom.now
        → IsAnswer setup history (Wide access.now) (wide_reply_of result) }
    ensures board { (setup : Setup) (history : List Entry) (entry : Entry)
        → IsStateOf setup history state.old → setup.rom ≡ rom.now
        → entry.event ≡ Wide access.now → entry.reply ≡ wide_reply_of result
        → IsStateOf setup (entry ∷ history) state.new }
    ensures held { (setup : Setup) (bytes : Bytes) → StandsFor setup bytes state.old.registers.map.regs
        → setup.rom ≡ rom.now → ArePartsIn setup bytes access.now result.parts }
{
    law_parts();
    let cut = cycles_of(state.registers.regs(), rom, access);
    let cycles = cut.as_slice();
    let parts = parts_of(cycles);
    if access.kind.is_write() {
        write_cycles(&mut state.stores, cycles);
        return WideReply { value: None, parts };
    }
    let value = Some(read_cycles(&state.stores, rom, cycles));
    WideReply { value, parts }
}

/// The parts of the reply, one for each of the two to four cycles.
fn parts_of(cycles: &[Cycle]) -> Parts
    requires least { 2 ≤ length cycles.now }
    requires most { length cycles.now ≤ 4 }
    ensures answers { parts_list result ≡ answers cycles.now }
{
    match cycles {
        [a, b] => Parts::Two(a.answer, b.answer),
        [a, b, c] => Parts::Three(a.answer, b.answer, c.answer),
        [a, b, c, d] => Parts::Four(a.answer, b.answer, c.answer, d.answer),
        _ => unreachable!(),
    }
}
