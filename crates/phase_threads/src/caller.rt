//! What a worker uses of a caller of the shared board.

ghost use Rattle.std.specs.Prelude.{◌≡◌, ◌<◌, ℕ, List, false, length, IfOk};
ghost use Rattle.board_prelude.specs.{Entry, MapChange, Setup, IsInRange, entries_by, most_statements};
ghost use Rattle.run_order.specs.Placing.{is_look};
ghost use Rattle.run_order.specs.Trace.{IsLooked};
ghost use Rattle.phase_threads.specs.Replies.{HasGone};

use board_base::{Kind, NoMemory};
use board_spec::{Event, Look, Reply};
use std::sync::Wait;

/// A caller of a shared board, of one processor.
pub trait Caller {
    /// The shared board.
    type Shared;

    /// What no call changes. No value of it need ever be made.
    type Fixed;

    ghost number: { Self → ℕ };

    ghost setup: { Self → Setup };

    ghost fixed: { Self → Self.Fixed };

    // The shared history as the caller has seen it, the newest first.
    ghost seen: { Self → List Entry };

    // The map writes that the caller knows, the newest first.
    ghost known: { Self → List MapChange };

    // The caller is one of this shared board.
    ghost is_of: { Self.Shared → Self → Type 0 };

    /// The processor.
    fn number(&self) -> u8
        ensures number { result ≡ number self.now };

    /// How many map writes the caller knows.
    fn version(&self) -> u32
        ensures version { result ≡ length (known self.now) };

    /// Does an event that is no look, and gives the reply. Refused for want of memory.
    fn bus<R: Wait>(
        &mut self,
        shared: &Self::Shared,
        rt: &R,
        event: &Event,
    ) -> Result<Reply, NoMemory>
        requires own { is_of shared.now self.old }
        requires event { IsInRange (setup self.old) event.now }
        requires no_look { is_look event.now ≡ false }
        requires room { length (entries_by (number self.old) (seen self.old)) < most_statements }
        ensures own { is_of shared.now self.new }
        ensures number { number self.new ≡ number self.old }
        ensures setup { setup self.new ≡ setup self.old }
        ensures fixed { fixed self.new ≡ fixed self.old }
        ensures gone { IfOk result (λ reply. HasGone (setup self.old) (number self.old) (seen self.old)
            (known self.old) event.now reply (seen self.new) (known self.new)) };

    /// Looks at the published map.
    fn look(&mut self, addr: u32, kind: Kind, smm: bool) -> Look
        ensures own { (shared : Self.Shared) → is_of shared self.old → is_of shared self.new }
        ensures number { number self.new ≡ number self.old }
        ensures setup { setup self.new ≡ setup self.old }
        ensures fixed { fixed self.new ≡ fixed self.old }
        ensures seen { seen self.new ≡ seen self.old }
        ensures looked { IsLooked (setup self.old) (known self.old) (known self.new) kind addr smm result };
}
