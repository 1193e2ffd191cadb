//! The state of a map as bytes, out and in: its registers, its version, and the windows of the last change. The ranges
//! are built anew, since registers have one flat map.

ghost use Rattle.std.specs.Prelude.{◌≡◌, ◌≤◌, ◌<◌, ◌^◌, ◌++◌, List, length, flat_map, All, OnOk, IfOk};
ghost use Rattle.board_prelude.specs.{FittedCard, Setup, IsCardList, Bytes};
ghost use Rattle.byte_fields.specs.Fields.{Took};
ghost use Rattle.byte_fields.specs.Loads.{OneSpelling};
ghost use Rattle.pci_bars.specs.Cards.{AreCardsOf};
ghost use Rattle.map_builder.specs.Map.{IsMapOf};
ghost use Rattle.map_builder.specs.State.{IsWindow, window_bytes, window_fields, windows_bytes, so_many_windows};
ghost use Rattle.map_builder.specs.State.{windows_fields, bare, IsMapped, mapped_bytes, mapped_fields, LoadsMap};
ghost use Rattle.map_builder.specs.State.{SameMap};

use crate::flat_map::FlatMap;
use crate::list::FixedList;
use crate::range::Changed;
use crate::windows::Windows;
use addr_decode::MapRegs;
use board_base::NoMemory;
use board_spec::laws::law_one_flat_map;
use byte_fields::{Bad, Fields, push_byte, push_word};
use pci_bars::CardSpec;

/// The most windows of a change.
const MOST_WINDOWS: u8 = 64;

/// Does nothing: its clause says that the addresses of windows are as wide as their types.
fn are_wide(windows: &[Changed])
    ensures widths { All IsWindow windows.now }
{
    for window in windows {
        is_wide(*window);
    }
}

/// Does nothing: its clause says that the addresses of a window are as wide as their types.
fn is_wide(window: Changed)
    ensures width { IsWindow window }
{
    is_doubleword(window.lo);
    is_doubleword(window.hi);
}

/// Does nothing: its clause says that the value is below 2^32.
fn is_doubleword(value: u32)
    ensures doubleword { value < 2 ^ 32 }
{}

/// Adds the first and the last address of a window.
fn push_window(into: &mut Vec<u8>, window: Changed) -> Result<(), NoMemory>
    ensures added { OnOk result (into.new.items ≡ into.old.items ++ window_bytes window) }
{
    push_word(into, window.lo)?;
    push_word(into, window.hi)
}

/// Adds the bytes of some windows.
fn push_each(into: &mut Vec<u8>, windows: &[Changed]) -> Result<(), NoMemory>
    ensures added { OnOk result (into.new.items ≡ into.old.items ++ flat_map window_bytes windows.now) }
{
    for window in windows {
        push_window(into, *window)?;
    }
    Ok(())
}

/// Adds how many windows there are, and their bytes.
fn push_windows(into: &mut Vec<u8>, windows: &[Changed]) -> Result<(), NoMemory>
    requires few { length windows.now ≤ 64 }
    ensures added { OnOk result (into.new.items ≡ into.old.items ++ windows_bytes windows.now) }
{
    push_byte(into, windows.len() as u8)?;
    push_each(into, windows)
}

/// Reads a window.
#[tactic(auto, unfolding(crate::specs::State::window_fields))]
fn read_window(fields: &mut Fields) -> Result<Changed, Bad>
    ensures took { Took (λ window. window) result fields.new (window_fields fields.old) }
{
    let lo = fields.word(0, u32::MAX)?;
    let hi = fields.word(0, u32::MAX)?;
    Ok(Changed { lo, hi })
}

/// Reads so many windows, one after another.
fn read_so_many(count: u8, fields: &mut Fields) -> Result<Windows, Bad>
    requires few { count ≤ 64 }
    ensures took { Took (λ windows. windows.items) result fields.new (so_many_windows count fields.old) }
{
    let mut windows = FixedList::new();
    for _ in 0..count {
        windows.push(read_window(fields)?);
    }
    Ok(windows)
}

/// Reads how many windows there are, and these.
#[tactic(auto, unfolding(crate::specs::State::windows_fields))]
fn read_windows(fields: &mut Fields) -> Result<Windows, Bad>
    ensures took { Took (λ windows. windows.items) result fields.new (windows_fields fields.old) }
{
    let count = fields.byte(0, MOST_WINDOWS)?;
    let windows = read_so_many(count, fields)?;
    Ok(windows)
}

impl FlatMap {
    /// Adds the bytes of the state: those of the registers, the version (4 bytes), how many windows the last change
    /// changed (1 byte), and the first and last address of each (4 bytes each).
    pub fn save_state(&self, into: &mut Vec<u8>) -> Result<(), NoMemory>
        ensures saved { OnOk result (into.new.items ≡ into.old.items ++ mapped_bytes self.now) }
        ensures sound { (setup : Setup) (bytes : Bytes) → AreCardsOf setup bytes self.now.regs.cards
            → OnOk result (IsMapped setup.cards self.now) }
    {
        let windows = self.chosen.as_slice();
        are_wide(windows);
        is_doubleword(self.version);
        self.regs.save_state(into)?;
        push_word(into, self.version)?;
        push_windows(into, windows)
    }

    /// The map of a board with these cards, whose state is at the front of the bytes, with its ranges. Refused where a
    /// field is not whole or out of range: the bytes left then begin with the first such field.
    pub fn load_state(specs: &[CardSpec], fields: &mut Fields) -> Result<FlatMap, Bad>
        requires cards { IsCardList specs.now }
        ensures loaded { LoadsMap specs.now fields.old fields.new result }
    {
        law_one_flat_map();
        fields.are_bytes();
        FlatMap::read_state(specs, fields)
    }

    /// Reads the fields one after another.
    #[tactic(auto, unfolding(crate::specs::State::mapped_fields), using(std::proofs::lemmas::Bool::Decides::nat_tests))]
    fn read_state(specs: &[CardSpec], fields: &mut Fields) -> Result<FlatMap, Bad>
        requires cards { IsCardList specs.now }
        ensures took { Took bare result fields.new (mapped_fields specs.now fields.old) }
        ensures whole { IfOk result (λ map. IsMapOf map.regs map.ranges) }
    {
        let regs = MapRegs::load_state(specs, fields)?;
        let version = fields.word(0, u32::MAX)?;
        let changed = read_windows(fields)?;
        Ok(FlatMap::restored(regs, version, changed.as_slice()))
    }
}

/// Of each list of cards, one state has one spelling, and one spelling is of one state.
#[tactic(auto, using(crate::proofs::StateFormat::one_map))]
pub fn law_one_map()
    ensures one { (fitted : List FittedCard) → OneSpelling mapped_bytes (IsMapped fitted) }
{
    law_one_flat_map();
}

/// Maps of the same registers, version and windows have the same ranges.
#[tactic(auto, using(crate::proofs::StateFormat::same_map))]
pub fn law_same_map()
    ensures same { SameMap }
{
    law_one_flat_map();
}
