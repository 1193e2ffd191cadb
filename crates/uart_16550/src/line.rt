//! Interrupt line 4, as the port itself moves it.

ghost use Rattle.std.specs.Prelude.{◌≡◌, ◌+◌, ℕ, List};
ghost use Rattle.board_spec.specs.declared.event.Entry.{Entry};
ghost use Rattle.uart_16550.specs.Com1.{line_steps};
ghost use Rattle.uart_16550.specs.Serial.{IsLeftAt, IsLeftAfter};

use crate::com1::{COM1_ACTOR, COM1_IRQ};
use crate::stepped::SteppedBoard;
use board_spec::Event;

/// Gives the board the new level of line 4, where it differs from the one that the board was given last.
pub fn move_line<B: SteppedBoard>(board: &mut B, old: bool, new: bool)
    requires room { B.has_room board.old 1 }
    ensures setup { B.setup board.new ≡ B.setup board.old }
    ensures room { (n : ℕ) → B.has_room board.old (n + 1) → B.has_room board.new n }
    ensures moved { (history : List Entry) → IsLeftAt B.is_left_by board.old old history
        → IsLeftAfter B.is_answer B.setup B.is_left_by board.new new history (line_steps old new) }
{
    if old != new {
        let event = Event::Line {
            irq: COM1_IRQ,
            on: new,
        };
        board.step(COM1_ACTOR, &event);
    }
}
