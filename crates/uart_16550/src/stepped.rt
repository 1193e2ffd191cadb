//! What a serial port needs of the board that it stands on.

ghost use Rattle.std.specs.Prelude.{◌≡◌, ◌+◌, ◌-◌, ◌≤◌, ◌∷◌, ℕ, List};
ghost use Rattle.board_prelude.specs.{Entry, Port, Setup, IsInRange, Event, Reply, next_entry, is_hard_reset};

use board_base::PortAccess;
use board_chipset::Chipset;
use board_core::Board;
use board_spec::{Event, Reply};

/// A board that does events, each in one step.
pub trait SteppedBoard {
    // What it is fitted with.
    ghost setup: { Self → Setup };

    // A reply to an event after a history is an answer of such boards.
    ghost is_answer: { Setup → List Entry → Event → Reply → Type 0 };

    // It is as this history, the newest entry first, leaves a board.
    ghost is_left_by: { Self → List Entry → Type 0 };

    // It has room for so many more steps.
    ghost has_room: { Self → ℕ → Type 0 };

    /// Does an event of a processor, and returns the reply.
    fn step(&mut self, actor: u8, event: &Event) -> Reply
        requires in_range { IsInRange (setup self.old) event.now }
        requires room { has_room self.old 1 }
        ensures setup { setup self.new ≡ setup self.old }
        ensures room { (n : ℕ) → has_room self.old (n + 1) → has_room self.new n }
        ensures answer { (history : List Entry) → is_left_by self.old history
            → is_answer (setup self.old) history event.now result }
        ensures left { (history : List Entry) → is_left_by self.old history
            → is_left_by self.new (next_entry history actor event.now result ∷ history) };

    /// Whether an access at a port would be a hard reset now.
    fn resets_hard(&self, access: &PortAccess) -> bool
        ensures resets { (history : List Entry) → is_left_by self.now history
            → result ≡ is_hard_reset history (Port access.now) };

    // Room for more is room for fewer.
    ghost fewer: { (board : Self) (n : ℕ) → has_room board (n + 1) → has_room board n };
}

impl SteppedBoard for Board {
    ghost use Rattle.std.specs.Prelude.{◌≡◌, ◌≤◌, ℕ, List};
    ghost use Rattle.board_spec.specs.Answer.{IsAnswer};
    ghost use Rattle.std.proofs.Math.Nat.{le_trans, le-add_right};

    ghost setup = { λ board. board.setup };

    ghost is_answer = { IsAnswer };

    ghost is_left_by = { λ board history. board.entries ≡ history };

    ghost has_room = { λ board n. n ≤ board.spare };

    fn step(&mut self, actor: u8, event: &Event) -> Reply {
        Board::step(self, actor, event)
    }

    fn resets_hard(&self, access: &PortAccess) -> bool {
        self.reset_by(access).is_hard()
    }

    ghost fewer = { λ board n room. le_trans (le-add_right n 1) room };
}

impl SteppedBoard for Chipset {
    ghost use Rattle.board_chipset.specs.Chipset.{IsLeftBy};
    ghost use Rattle.board_chipset.specs.Versions.{IsAnswerModulo};

    ghost setup = { λ chipset. chipset.setup };

    // A look gives the version of the map modulo 2^32.
    ghost is_answer = { IsAnswerModulo };

    ghost is_left_by = { IsLeftBy };

    ghost has_room = { λ chipset n. Unit {0} };

    fn step(&mut self, actor: u8, event: &Event) -> Reply {
        // It keeps no history, and so no numbers of processors.
        let _ = actor;
        Chipset::step(self, event)
    }

    fn resets_hard(&self, access: &PortAccess) -> bool {
        self.reset_by(access).is_hard()
    }

    ghost fewer = { λ chipset n room. tt };
}
