//! A board with a serial port on COM1.

ghost use Rattle.std.specs.Prelude.{◌≡◌, ◌+◌, ◌<◌, ◌∷◌, [], ℕ, List, true, false, Some, None, if◌then◌else◌, ◌==◌};
ghost use Rattle.std.specs.Prelude.{◌||◌};
ghost use Rattle.board_prelude.specs.{PortAccess, Entry, Port, Line, Reply, IsInRange, IsBusAccess, is_free_line};
ghost use Rattle.board_prelude.specs.{is_hard_reset};
ghost use Rattle.uart_16550.specs.declared.com1.SerialReply.TheVariants.{Board};
ghost use Rattle.uart_16550.specs.Uart.{has_room, received, is_interrupting, uart_at_reset};
ghost use Rattle.uart_16550.specs.Com1.{com1_at_reset, com1_after, com1_irq, com1_actor, from_uart, is_for_uart};
ghost use Rattle.uart_16550.specs.Com1.{level_of, uart_access, uart_reply, board_event, board_steps, change_steps};
ghost use Rattle.uart_16550.specs.Serial.{IsLeftBy, IsAfter};

use crate::com1::{COM1_IRQ, Com1, SerialReply, UartReply, is_for_uart};
use crate::line::move_line;
use crate::stepped::SteppedBoard;
use crate::uart::Uart;
use board_base::PortAccess;
use board_spec::{Event, Reply};
use std::marker::Model;

/// A board with a 16550 on COM1: ports 3F8h to 3FFh, interrupt line 4. Contracts see the board and the port, and speak
/// of every history that left them so: in it line 4 has the or of the UART's line and the script's level.
/// `board_example::serial` has an example.
#[derive(Drop)]
pub struct SerialBoard<B: SteppedBoard> {
    pub(crate) board: B,
    pub(crate) com1: Com1,
}

impl<B: SteppedBoard> Model for SerialBoard<B> {
    ghost use Rattle.uart_16550.specs.Serial.{Serial};

    ghost Value = { Serial B };

    ghost view = { λ serial. record { board = serial.board; com1 = serial.com1 } };
}

impl<B: SteppedBoard> SerialBoard<B> {
    /// A board with a new serial port. The board is fresh, and keeps its room.
    pub fn open(board: B) -> SerialBoard<B>
        requires fresh { B.is_left_by board [] }
        ensures open { result ≡ record { board = board; com1 = com1_at_reset } }
        ensures left { IsLeftBy B.is_left_by result [] }
    {
        SerialBoard {
            board,
            com1: Com1::new(),
        }
    }

    /// Whether a byte can be received: the queue is not full, and loopback is off.
    pub fn room(&self) -> bool
        ensures room { result ≡ has_room self.now.com1.uart }
    {
        self.com1.uart.room()
    }

    /// The level of interrupt line 4: the or of the UART's line and of the level that events gave it.
    pub fn level(&self) -> bool
        ensures level { result ≡ level_of self.now.com1 }
    {
        self.com1.level()
    }

    /// Receives a byte from outside. The port gives the board a change of line 4.
    pub fn receive(&mut self, byte: u8)
        requires room { has_room self.old.com1.uart ≡ true }
        requires spare { B.has_room self.old.board 1 }
        ensures setup { B.setup self.new.board ≡ B.setup self.old.board }
        ensures spare { (n : ℕ) → B.has_room self.old.board (n + 1) → B.has_room self.new.board n }
        ensures com1 { self.new.com1 ≡ record self.old.com1 { uart = received self.old.com1.uart byte } }
        ensures history { (history : List Entry) → IsLeftBy B.is_left_by self.old history
            → IsAfter B.is_answer B.setup B.is_left_by self.new history (change_steps self.old.com1 self.new.com1) }
    {
        let old = self.com1.level();
        self.com1.uart.receive(byte);
        move_line(&mut self.board, old, self.com1.level());
    }

    /// Does an event of a processor, 0 to 7, and returns the reply. An access of one byte at 3F8h to 3FFh is for the
    /// UART, before any card, and all else for the board, whose line 4 has the or of the UART's line and the
    /// script's level. A hard reset makes the UART new after the board's step. It takes no memory.
    pub fn step(&mut self, actor: u8, event: &Event) -> SerialReply
        requires in_range { IsInRange (B.setup self.old.board) event.now }
        requires actor { actor < com1_actor }
        requires spare { B.has_room self.old.board 2 }
        ensures setup { B.setup self.new.board ≡ B.setup self.old.board }
        ensures spare { (n : ℕ) → B.has_room self.old.board (n + 2) → B.has_room self.new.board n }
        ensures uart { (access : PortAccess) → uart_access event.now ≡ Some access
            → result ≡ uart_reply access self.old.com1.uart }
        ensures board { uart_access event.now ≡ None → (reply : Reply) × (result ≡ Board reply)
            × ((history : List Entry) → IsLeftBy B.is_left_by self.old history
            → B.is_answer (B.setup self.old.board) history (board_event self.old.com1 event.now) reply) }
        ensures com1 { (history : List Entry) → IsLeftBy B.is_left_by self.old history
            → self.new.com1 ≡ com1_after (is_hard_reset history event.now) event.now self.old.com1 }
        ensures history { (history : List Entry) → IsLeftBy B.is_left_by self.old history
            → IsAfter B.is_answer B.setup B.is_left_by self.new history
            (board_steps actor (is_hard_reset history event.now) event.now self.old.com1) }
    {
        match event {
            Event::Port(access) => {
                if is_for_uart(access) {
                    return self.uart_access(access).reply();
                }
                SerialReply::Board(self.board_access(actor, access))
            }
            Event::Line { irq, on } => SerialReply::Board(self.line(actor, *irq, *on)),
            _ => SerialReply::Board(self.board.step(actor, event)),
        }
    }

    /// Does an access to the UART, as `step` does it.
    #[inline(always)]
    pub fn uart_access(&mut self, access: &PortAccess) -> UartReply
        requires uart { is_for_uart access.now ≡ true }
        requires bus { IsBusAccess access.now.write access.now.port access.now.width access.now.value }
        requires spare { B.has_room self.old.board 1 }
        ensures setup { B.setup self.new.board ≡ B.setup self.old.board }
        ensures spare { (n : ℕ) → B.has_room self.old.board (n + 1) → B.has_room self.new.board n }
        ensures reply { from_uart result ≡ uart_reply access.now self.old.com1.uart }
        ensures com1 { self.new.com1 ≡ com1_after false (Port access.now) self.old.com1 }
        ensures history { (history : List Entry) → IsLeftBy B.is_left_by self.old history
            → IsAfter B.is_answer B.setup B.is_left_by self.new history (change_steps self.old.com1 self.new.com1) }
    {
        let old = self.com1.level();
        let reply = self.com1.access(access);
        move_line(&mut self.board, old, self.com1.level());
        reply
    }

    /// Does an access to a port of the board.
    fn board_access(&mut self, actor: u8, access: &PortAccess) -> Reply
        requires board { is_for_uart access.now ≡ false }
        requires bus { IsBusAccess access.now.write access.now.port access.now.width access.now.value }
        requires actor { actor < com1_actor }
        requires spare { B.has_room self.old.board 2 }
        ensures setup { B.setup self.new.board ≡ B.setup self.old.board }
        ensures spare { (n : ℕ) → B.has_room self.old.board (n + 2) → B.has_room self.new.board n }
        ensures answer { (history : List Entry) → IsLeftBy B.is_left_by self.old history
            → B.is_answer (B.setup self.old.board) history (Port access.now) result }
        ensures com1 { (history : List Entry) → IsLeftBy B.is_left_by self.old history
            → self.new.com1 ≡ com1_after (is_hard_reset history (Port access.now)) (Port access.now) self.old.com1 }
        ensures history { (history : List Entry) → IsLeftBy B.is_left_by self.old history
            → IsAfter B.is_answer B.setup B.is_left_by self.new history
            (record { actor = actor; event = Port access.now } ∷ change_steps self.old.com1 self.new.com1) }
    {
        let resets = self.board.resets_hard(access);
        let reply = self.board.step(actor, &Event::Port(*access));
        if !resets {
            return reply;
        }
        self.renew();
        reply
    }

    /// Makes the UART new, as a hard reset of the board does. The port gives the board a change of line 4.
    pub(crate) fn renew(&mut self)
        requires spare { B.has_room self.old.board 1 }
        ensures setup { B.setup self.new.board ≡ B.setup self.old.board }
        ensures spare { (n : ℕ) → B.has_room self.old.board (n + 1) → B.has_room self.new.board n }
        ensures com1 { self.new.com1 ≡ record self.old.com1 { uart = uart_at_reset } }
        ensures history { (history : List Entry) → IsLeftBy B.is_left_by self.old history
            → IsAfter B.is_answer B.setup B.is_left_by self.new history (change_steps self.old.com1 self.new.com1) }
    {
        let old = self.com1.level();
        self.com1.uart = Uart::new();
        move_line(&mut self.board, old, self.com1.level());
    }

    /// Gives an interrupt line a level: line 4 that of the port and the script together.
    fn line(&mut self, actor: u8, irq: u8, on: bool) -> Reply
        requires free { is_free_line irq ≡ true }
        requires actor { actor < com1_actor }
        requires spare { B.has_room self.old.board 1 }
        ensures setup { B.setup self.new.board ≡ B.setup self.old.board }
        ensures spare { (n : ℕ) → B.has_room self.old.board (n + 1) → B.has_room self.new.board n }
        ensures answer { (history : List Entry) → IsLeftBy B.is_left_by self.old history
            → B.is_answer (B.setup self.old.board) history (board_event self.old.com1 (Line irq on)) result }
        ensures com1 { self.new.com1 ≡ com1_after false (Line irq on) self.old.com1 }
        ensures history { (history : List Entry) → IsLeftBy B.is_left_by self.old history
            → IsAfter B.is_answer B.setup B.is_left_by self.new history
            (board_steps actor false (Line irq on) self.old.com1) }
    {
        if irq == COM1_IRQ {
            self.com1.script_level = on;
            let on = self.com1.level();
            return self.board.step(actor, &Event::Line { irq, on });
        }
        self.board.step(actor, &Event::Line { irq, on })
    }

    /// The UART.
    pub fn uart(&self) -> &Uart
        ensures uart { result.now ≡ self.now.com1.uart }
    {
        &self.com1.uart
    }

    /// The level of line 4 that events gave it last, without the port's own.
    pub fn given_level(&self) -> bool
        ensures level { result ≡ self.now.com1.script_level }
    {
        self.com1.script_level
    }

    /// The board.
    pub fn board(&self) -> &B
        ensures board { result.now ≡ self.now.board }
    {
        &self.board
    }
}
