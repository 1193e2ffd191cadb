//! What a monitor asks of a chipset between two steps; and `ask`, which takes any event and refuses one out of range.

ghost use Rattle.std.specs.Prelude.{◌≡◌, ◌≤◌, ◌<◌, ◌↔◌, true, false, List, ◌∷◌, IfSome, IfOk, IfErr, OnErr, IsTrue};
ghost use Rattle.std.specs.Prelude.{IsErr, MatchResult, is_some};
ghost use Rattle.board_prelude.specs.{Spurious, Entry, Port, IsInRange, IsAnswer, timer_of, acknowledged_by};
ghost use Rattle.board_prelude.specs.{version_of, is_hard_reset, interrupt};
ghost use Rattle.pit_8254.specs.NextRise.{IsNextRise};
ghost use Rattle.board_devices.specs.Outside.{is_interrupting};
ghost use Rattle.board_chipset.specs.Chipset.{IsLeftBy};
ghost use Rattle.board_chipset.specs.OutOfRange.{IsFault};
ghost use Rattle.board_chipset.specs.Resets.{reset_of};
ghost use Rattle.board_chipset.specs.Versions.{version_count, AreLastChanged, IsAnswerModulo};

use crate::chipset::Chipset;
use crate::in_range::{OutOfRange, test};
use crate::reset_control::{ResetKind, reset_of, reset_of_access};
use board_base::PortAccess;
use board_spec::{Event, Reply};
use map_builder::Changed;

impl Chipset {
    /// Whether an event is in range: one that a processor's bus can ask for, or that can happen outside the board.
    pub fn is_in_range(&self, event: &Event) -> bool
        ensures in_range { IsTrue result ↔ IsInRange self.now.setup event.now }
    {
        test(&self.setup, event).is_ok()
    }

    /// Tests an event. Refused exactly where it is out of range, with the first field that is.
    pub fn test(&self, event: &Event) -> Result<(), OutOfRange>
        ensures exact { MatchResult result
            (λ _. IsInRange self.now.setup event.now) (λ fault. IsFault self.now.setup event.now fault) }
    {
        test(&self.setup, event)
    }

    /// Does an event as `step` does it. Refused exactly where the event is out of range, with the first field that is;
    /// then nothing has changed.
    pub fn ask(&mut self, event: &Event) -> Result<Reply, OutOfRange>
        ensures refused { IsErr result ↔ ¬ IsInRange self.old.setup event.now }
        ensures fault { IfErr result (λ fault. IsFault self.old.setup event.now fault) }
        ensures in_range { IfOk result (λ _. IsInRange self.old.setup event.now) }
        ensures unchanged { OnErr result (self.new ≡ self.old) }
        ensures setup { self.new.setup ≡ self.old.setup }
        ensures answer { IfOk result (λ reply. (history : List Entry) → IsLeftBy self.old history
            → IsAnswerModulo self.old.setup history event.now reply) }
        ensures exact { IfOk result (λ reply. (history : List Entry) → IsLeftBy self.old history
            → version_of self.old.setup history < version_count
            → IsAnswer self.old.setup history event.now reply) }
        ensures left { IfOk result (λ reply. (history : List Entry) (entry : Entry) → IsLeftBy self.old history
            → entry.event ≡ event.now → entry.reply ≡ reply → IsLeftBy self.new (entry ∷ history)) }
    {
        test(&self.setup, event)?;
        Ok(self.step(event))
    }

    /// Whether the master 8259A asserts INT, so that a processor may acknowledge an interrupt.
    #[tactic(auto, unfolding(crate::specs::Chipset::IsLeftBy))]
    pub fn interrupt(&self) -> bool
        ensures held { result ≡ is_some (interrupt self.now.state.devices.pair.master) }
        ensures interrupt { (history : List Entry) → IsLeftBy self.now history
            → result ≡ is_interrupting self.now.setup history }
        ensures spurious { (history : List Entry) → IsLeftBy self.now history
            → (result ≡ false) ↔ (acknowledged_by self.now.setup history ≡ Spurious 0) }
    {
        self.state.devices.interrupt()
    }

    /// The reset that an event would make now, which only a write of reset control (port CF9h) makes: none, a soft one,
    /// of the processor alone, or a hard one, of the chipset too.
    #[tactic(auto, unfolding(crate::specs::Chipset::IsLeftBy))]
    pub fn reset_of(&self, event: &Event) -> ResetKind
        ensures kind { (history : List Entry) → IsLeftBy self.now history → result ≡ reset_of history event.now }
        ensures hard { (history : List Entry) → IsLeftBy self.now history
            → (result ≡ ResetKind.Hard) ↔ (is_hard_reset history event.now ≡ true) }
    {
        reset_of(&self.state.registers.control, event)
    }

    /// The same of an access at a port, which is no event yet.
    #[tactic(auto, unfolding(crate::specs::Chipset::IsLeftBy))]
    pub fn reset_by(&self, access: &PortAccess) -> ResetKind
        ensures kind { (history : List Entry) → IsLeftBy self.now history
            → result ≡ reset_of history (Port access.now) }
        ensures hard { (history : List Entry) → IsLeftBy self.now history
            → (result ≡ ResetKind.Hard) ↔ (is_hard_reset history (Port access.now) ≡ true) }
    {
        reset_of_access(&self.state.registers.control, access)
    }

    /// The windows in which the last change of the memory map may have changed what answers, in rising order, none
    /// overlapping another. At an address outside them nothing changed. Before the first change there is no window.
    pub fn changed(&self) -> &[Changed]
        ensures changed { (history : List Entry) → IsLeftBy self.now history
            → AreLastChanged self.now.setup history result.now }
    {
        self.map().changed()
    }

    /// After how many pulses of the timer's clock, at most 131,073, interrupt request line 0 next rises. None where it
    /// never rises unless something is written first.
    #[tactic(auto, unfolding(crate::specs::Chipset::IsLeftBy))]
    pub fn pulses_to_rise(&self) -> Option<u32>
        ensures held { IsNextRise self.now.state.devices.timer result }
        ensures rise { (history : List Entry) → IsLeftBy self.now history → IsNextRise (timer_of history) result }
        ensures bound { IfSome result (λ n. n ≤ 131_073) }
    {
        self.state.devices.pulses_to_rise()
    }
}
