//! Steps of a chipset by the kind of event, which are told in few bytes. They have the clauses of `Chipset::step`.

ghost use Rattle.std.specs.Prelude.{◌≡◌, List, ◌∷◌};
ghost use Rattle.board_prelude.specs.{Entry, Memory, Port, Wide, IsBusAccess, IsInRange, IsWideAccess, IsAnswer, Bytes};
ghost use Rattle.board_prelude.specs.{is_write};
ghost use Rattle.board_spec.specs.declared.event.Event.TheVariants.{Look as LookAt};
ghost use Rattle.board_spec.specs.declared.event.Reply.TheVariants.{Saw};
ghost use Rattle.board_chipset.specs.BusReplies.{reply_of, wide_reply_of};
ghost use Rattle.board_chipset.specs.Chipset.{IsLeftBy};
ghost use Rattle.board_chipset.specs.Held.{HoldsRegisters, IsByDevice, IsHeldReply};
ghost use Rattle.board_chipset.specs.Steps.{IsForDevices};
ghost use Rattle.board_chipset.specs.Versions.{IsAnswerModulo};

use crate::bus_reply::{BusReply, WideReply};
use crate::chipset::Chipset;
use crate::{looks, memory, outside, ports, wide};
use board_base::{Access, Kind, PortAccess, WideAccess};
use board_spec::{Event, Look};

impl Chipset {
    /// Does an access to memory of one bus cycle, which is in range, as `step` does it: its address is a multiple of
    /// the width, and the value fits.
    #[tactic(auto, unfolding(crate::specs::Chipset::IsLeftBy))]
    #[inline(always)]
    pub fn memory(&mut self, access: &Access) -> BusReply
        requires bus { IsBusAccess (is_write access.now.kind) access.now.addr access.now.width access.now.value }
        ensures setup { self.new.setup ≡ self.old.setup }
        ensures answer { (history : List Entry) → IsLeftBy self.old history
            → IsAnswer self.old.setup history (Memory access.now) (reply_of result) }
        ensures left { (history : List Entry) (entry : Entry) → IsLeftBy self.old history
            → entry.event ≡ Memory access.now → entry.reply ≡ reply_of result → IsLeftBy self.new (entry ∷ history) }
        ensures held { (bytes : Bytes) → HoldsRegisters self.old bytes
            → IsHeldReply self.old bytes (Memory access.now) (reply_of result) }
    {
        memory::access(&mut self.state, self.setup.rom(), access)
    }

    /// Does a wide access to memory, which is in range, as `step` does it.
    #[tactic(auto, unfolding(crate::specs::Chipset::IsLeftBy))]
    pub fn wide(&mut self, access: &WideAccess) -> WideReply
        requires wide { IsWideAccess access.now }
        ensures setup { self.new.setup ≡ self.old.setup }
        ensures answer { (history : List Entry) → IsLeftBy self.old history
            → IsAnswer self.old.setup history (Wide access.now) (wide_reply_of result) }
        ensures left { (history : List Entry) (entry : Entry) → IsLeftBy self.old history
            → entry.event ≡ Wide access.now → entry.reply ≡ wide_reply_of result
            → IsLeftBy self.new (entry ∷ history) }
        ensures held { (bytes : Bytes) → HoldsRegisters self.old bytes
            → IsHeldReply self.old bytes (Wide access.now) (wide_reply_of result) }
    {
        wide::access(&mut self.state, self.setup.rom(), access)
    }

    /// Does an access at a port of one bus cycle, which is in range, as `step` does it: the port is a multiple of the
    /// width, and the value fits.
    #[tactic(auto, unfolding(crate::specs::Chipset::IsLeftBy))]
    #[inline(always)]
    pub fn port(&mut self, access: &PortAccess) -> BusReply
        requires bus { IsBusAccess access.now.write access.now.port access.now.width access.now.value }
        ensures setup { self.new.setup ≡ self.old.setup }
        ensures answer { (history : List Entry) → IsLeftBy self.old history
            → IsAnswer self.old.setup history (Port access.now) (reply_of result) }
        ensures left { (history : List Entry) (entry : Entry) → IsLeftBy self.old history
            → entry.event ≡ Port access.now → entry.reply ≡ reply_of result → IsLeftBy self.new (entry ∷ history) }
        ensures held { (bytes : Bytes) → HoldsRegisters self.old bytes
            → IsHeldReply self.old bytes (Port access.now) (reply_of result) }
    {
        ports::access(&mut self.state, access)
    }

    /// Looks at the memory map, as `step` does. A look is no access, and leaves the chipset as it is.
    #[tactic(auto, unfolding(crate::specs::Chipset::IsLeftBy))]
    pub fn look(&self, kind: Kind, addr: u32, smm: bool) -> Look
        ensures answer { (history : List Entry) → IsLeftBy self.now history
            → IsAnswerModulo self.now.setup history (LookAt kind addr smm) (Saw result) }
        ensures left { (history : List Entry) (entry : Entry) → IsLeftBy self.now history
            → entry.event ≡ LookAt kind addr smm → IsLeftBy self.now (entry ∷ history) }
        ensures held { (bytes : Bytes) → HoldsRegisters self.now bytes
            → IsHeldReply self.now bytes (LookAt kind addr smm) (Saw result) }
    {
        looks::look(&self.state, kind, addr, smm)
    }

    /// Does an event that is no access and no look, and is in range, as `step` does it: an interrupt acknowledge,
    /// pulses, a moment, a level of a wire or line, a bad sector.
    #[tactic(auto, unfolding(crate::specs::Chipset::IsLeftBy))]
    pub fn outside(&mut self, event: &Event) -> BusReply
        requires devices { IsForDevices event.now }
        requires in_range { IsInRange self.old.setup event.now }
        ensures setup { self.new.setup ≡ self.old.setup }
        ensures answer { (history : List Entry) → IsLeftBy self.old history
            → IsAnswer self.old.setup history event.now (reply_of result) }
        ensures left { (history : List Entry) (entry : Entry) → IsLeftBy self.old history
            → entry.event ≡ event.now → entry.reply ≡ reply_of result → IsLeftBy self.new (entry ∷ history) }
        ensures held { IsByDevice event.now (reply_of result) }
    {
        outside::answer(&mut self.state, event)
    }
}
