//! A chipset with a serial port: events that nothing was proved of, and bytes that are written from outside the bus.

ghost use Rattle.std.specs.Prelude.{◌≡◌, ◌≤◌, ◌<◌, ◌+◌, ◌↔◌, ◌++◌, ℕ, Bool, false, None, List, [], ◌∷◌, length, IsErr};
ghost use Rattle.std.specs.Prelude.{IfOk, IfErr, OnOk, OnErr};
ghost use Rattle.board_prelude.specs.{Bytes, Entry, Line, Memory, Port, Wide, installed, IsAnswer, IsBusAccess};
ghost use Rattle.board_prelude.specs.{IsInRange, IsWideAccess, is_hard_reset, is_write};
ghost use Rattle.board_chipset.specs.Chipset.{IsLeftBy as IsChipsetLeftBy};
ghost use Rattle.board_chipset.specs.Loads.{WriteAll, WriteClockByte};
ghost use Rattle.board_chipset.specs.Versions.{IsAnswerModulo};
ghost use Rattle.board_chipset.specs.OutOfRange.{IsFault};
ghost use Rattle.board_chipset.specs.Steps.{IsForDevices};
ghost use Rattle.board_chipset.specs.BusReplies.{reply_of, wide_reply_of};
ghost use Rattle.board_chipset.specs.Held.{HoldsRegisters, IsByDevice, IsHeldReply};
ghost use Rattle.board_spec.specs.declared.event.Event.TheVariants.{Look as LookAt};
ghost use Rattle.board_spec.specs.declared.event.Reply.TheVariants.{Saw};
ghost use Rattle.uart_16550.specs.Com1.{board_event, board_steps, change_steps, com1_actor, com1_after, is_for_uart};
ghost use Rattle.uart_16550.specs.Com1.{uart_access};
ghost use Rattle.uart_16550.specs.OverChipset.{IsChipsetAfter};
ghost use Rattle.uart_16550.specs.Serial.{AreOwn, IsLeftBy};

use crate::serial::SerialBoard;
use crate::stepped::SteppedBoard;
use board_base::{Access, Kind, PortAccess, WideAccess};
use board_chipset::{BusReply, Chipset, NoClockByte, OutOfRange, PastTheEnd, WideReply};
use board_spec::{Event, Look};

impl SerialBoard<Chipset> {
    /// Tests an event. Refused exactly where it is out of range, with the first field that is.
    pub fn test(&self, event: &Event) -> Result<(), OutOfRange>
        ensures fault { IfErr result (λ fault. IsFault self.now.board.setup event.now fault) }
        ensures in_range { IfOk result (λ _. IsInRange self.now.board.setup event.now) }
    {
        self.board.test(event)
    }

    /// Does an access to memory of one bus cycle, which is in range, as `step` does it for any processor: it is for the
    /// chipset alone.
    pub fn memory(&mut self, access: &Access) -> BusReply
        requires bus { IsBusAccess (is_write access.now.kind) access.now.addr access.now.width access.now.value }
        ensures setup { self.new.board.setup ≡ self.old.board.setup }
        ensures com1 { self.new.com1 ≡ self.old.com1 }
        ensures answer { (history : List Entry) → IsLeftBy IsChipsetLeftBy self.old history
            → IsAnswer self.old.board.setup history (Memory access.now) (reply_of result) }
        ensures history { (history : List Entry) (actor : ℕ) → actor < com1_actor
            → IsLeftBy IsChipsetLeftBy self.old history
            → IsChipsetAfter self.new history (record { actor = actor; event = Memory access.now } ∷ []) }
        ensures held { (bytes : Bytes) → HoldsRegisters self.old.board bytes
            → IsHeldReply self.old.board bytes (Memory access.now) (reply_of result) }
    {
        self.board.memory(access)
    }

    /// Does a wide access to memory, which is in range, as `step` does it for any processor.
    pub fn wide(&mut self, access: &WideAccess) -> WideReply
        requires wide { IsWideAccess access.now }
        ensures setup { self.new.board.setup ≡ self.old.board.setup }
        ensures com1 { self.new.com1 ≡ self.old.com1 }
        ensures answer { (history : List Entry) → IsLeftBy IsChipsetLeftBy self.old history
            → IsAnswer self.old.board.setup history (Wide access.now) (wide_reply_of result) }
        ensures history { (history : List Entry) (actor : ℕ) → actor < com1_actor
            → IsLeftBy IsChipsetLeftBy self.old history
            → IsChipsetAfter self.new history (record { actor = actor; event = Wide access.now } ∷ []) }
        ensures held { (bytes : Bytes) → HoldsRegisters self.old.board bytes
            → IsHeldReply self.old.board bytes (Wide access.now) (wide_reply_of result) }
    {
        self.board.wide(access)
    }

    /// Does an access at a port of one bus cycle, which is in range and not for the UART, as `step` does it for any
    /// processor. A hard reset makes the UART new after it.
    #[inline(always)]
    pub fn port(&mut self, access: &PortAccess) -> BusReply
        requires board { is_for_uart access.now ≡ false }
        requires bus { IsBusAccess access.now.write access.now.port access.now.width access.now.value }
        ensures setup { self.new.board.setup ≡ self.old.board.setup }
        ensures com1 { (history : List Entry) → IsLeftBy IsChipsetLeftBy self.old history
            → self.new.com1 ≡ com1_after (is_hard_reset history (Port access.now)) (Port access.now) self.old.com1 }
        ensures answer { (history : List Entry) → IsLeftBy IsChipsetLeftBy self.old history
            → IsAnswer self.old.board.setup history (Port access.now) (reply_of result) }
        ensures history { (history : List Entry) (actor : ℕ) → actor < com1_actor
            → IsLeftBy IsChipsetLeftBy self.old history
            → IsChipsetAfter self.new history
            (record { actor = actor; event = Port access.now } ∷ change_steps self.old.com1 self.new.com1) }
        ensures held { (bytes : Bytes) → HoldsRegisters self.old.board bytes
            → IsHeldReply self.old.board bytes (Port access.now) (reply_of result) }
    {
        let resets = self.board.resets_hard(access);
        let reply = self.board.port(access);
        if !resets {
            return reply;
        }
        self.renew();
        reply
    }

    /// Looks at the memory map, as `step` does for any processor. A look leaves all as it is.
    pub fn look(&self, kind: Kind, addr: u32, smm: bool) -> Look
        ensures answer { (history : List Entry) → IsLeftBy IsChipsetLeftBy self.now history
            → IsAnswerModulo self.now.board.setup history (LookAt kind addr smm) (Saw result) }
        ensures history { (history : List Entry) (actor : ℕ) → actor < com1_actor
            → IsLeftBy IsChipsetLeftBy self.now history
            → IsChipsetAfter self.now history (record { actor = actor; event = LookAt kind addr smm } ∷ []) }
        ensures held { (bytes : Bytes) → HoldsRegisters self.now.board bytes
            → IsHeldReply self.now.board bytes (LookAt kind addr smm) (Saw result) }
    {
        self.board.look(kind, addr, smm)
    }

    /// Does an event that is no access, no look and no level of a line, and is in range, as `step` does it for any
    /// processor.
    pub fn outside(&mut self, event: &Event) -> BusReply
        requires devices { IsForDevices event.now }
        requires no_line { (irq : ℕ) (on : Bool) → event.now ≡ Line irq on → ⊥ }
        requires in_range { IsInRange self.old.board.setup event.now }
        ensures setup { self.new.board.setup ≡ self.old.board.setup }
        ensures other { uart_access event.now ≡ None }
        ensures com1 { (resets : Bool) → self.new.com1 ≡ com1_after resets event.now self.old.com1 }
        ensures answer { (history : List Entry) → IsLeftBy IsChipsetLeftBy self.old history
            → IsAnswerModulo self.old.board.setup history (board_event self.old.com1 event.now) (reply_of result) }
        ensures history { (history : List Entry) (actor : ℕ) (resets : Bool) → actor < com1_actor
            → IsLeftBy IsChipsetLeftBy self.old history
            → IsChipsetAfter self.new history (board_steps actor resets event.now self.old.com1) }
        ensures held { IsByDevice event.now (reply_of result) }
    {
        self.board.outside(event)
    }

    /// Puts bytes into the DRAM from an address on, as `Chipset::write_dram` does: refused exactly where they do not
    /// all lie in the installed memory; then nothing has changed. It takes no memory.
    pub fn write_dram(&mut self, addr: u32, bytes: &[u8]) -> Result<(), PastTheEnd>
        ensures refused { IsErr result ↔ installed self.old.board.setup < addr + length bytes.now }
        ensures unchanged { OnErr result (self.new ≡ self.old) }
        ensures setup { self.new.board.setup ≡ self.old.board.setup }
        ensures com1 { self.new.com1 ≡ self.old.com1 }
        ensures left { OnOk result ((history entries : List Entry) → IsLeftBy IsChipsetLeftBy self.old history
            → WriteAll addr bytes.now entries → AreOwn entries
            → IsLeftBy IsChipsetLeftBy self.new (entries ++ history)) }
        ensures goes_on { (history : List Entry) → IsLeftBy IsChipsetLeftBy self.old history
            → (later : List Entry) × IsLeftBy IsChipsetLeftBy self.new later }
    {
        self.board.write_dram(addr, bytes)
    }

    /// Writes the byte of the clock at an address below 128, as `Chipset::set_clock_byte` does: refused exactly where
    /// the address is not below 128; then nothing has changed.
    pub fn set_clock_byte(&mut self, address: u8, byte: u8) -> Result<(), NoClockByte>
        ensures refused { IsErr result ↔ 128 ≤ address }
        ensures unchanged { OnErr result (self.new ≡ self.old) }
        ensures setup { self.new.board.setup ≡ self.old.board.setup }
        ensures com1 { self.new.com1 ≡ self.old.com1 }
        ensures left { OnOk result ((history later : List Entry) → IsLeftBy IsChipsetLeftBy self.old history
            → WriteClockByte history address byte later → AreOwn later → IsLeftBy IsChipsetLeftBy self.new later) }
        ensures goes_on { (history : List Entry) → IsLeftBy IsChipsetLeftBy self.old history
            → (later : List Entry) × IsLeftBy IsChipsetLeftBy self.new later }
    {
        self.board.set_clock_byte(address, byte)
    }
}
