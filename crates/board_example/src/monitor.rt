//! A monitor over a chipset: a guest's exits are answered one after another, for as long as the guest runs.

ghost use Rattle.std.specs.Prelude.{◌≡◌, ◌↔◌, ◌++◌, List, IsErr};
ghost use Rattle.board_prelude.specs.{Entry, IsInRange};
ghost use Rattle.board_chipset.specs.Chipset.{IsLeftBy};
ghost use Rattle.board_chipset.specs.Resets.{reset_of};

use board_chipset::{Chipset, OutOfRange, ResetKind};
use board_spec::{Event, Reply};

/// What a monitor does at its processor after an exit.
#[derive(Clone, Copy, PartialEq, Eq, Debug)]
pub struct Served {
    /// The chipset's reply, or the field of the event that is out of range.
    pub reply: Result<Reply, OutOfRange>,
    /// The reset that the processor makes. A hard one has reset the chipset too.
    pub reset: ResetKind,
    /// The reply to an acknowledge, with the vector of the interrupt that the processor takes.
    pub vector: Option<Reply>,
}

/// Serves an exit of a guest, whose processor may take interrupts or not. Nothing is proved of the event.
pub fn serve(chipset: &mut Chipset, event: &Event, may_interrupt: bool) -> Served
    ensures refused { IsErr result.reply ↔ ¬ IsInRange chipset.old.setup event.now }
    ensures reset { (history : List Entry) → IsLeftBy chipset.old history → result.reset ≡ reset_of history event.now }
    ensures setup { chipset.new.setup ≡ chipset.old.setup }
    ensures left { (history : List Entry) → IsLeftBy chipset.old history
        → (more : List Entry) × IsLeftBy chipset.new (more ++ history) }
{
    let reset = chipset.reset_of(event);
    let reply = chipset.ask(event);
    let vector = acknowledged(chipset, may_interrupt);
    Served {
        reply,
        reset,
        vector,
    }
}

/// Acknowledges an interrupt, where one is requested and the processor may take it.
fn acknowledged(chipset: &mut Chipset, may_interrupt: bool) -> Option<Reply>
    ensures setup { chipset.new.setup ≡ chipset.old.setup }
    ensures left { (history : List Entry) → IsLeftBy chipset.old history
        → (more : List Entry) × IsLeftBy chipset.new (more ++ history) }
{
    if !may_interrupt || !chipset.interrupt() {
        return None;
    }
    Some(chipset.step(&Event::Ack))
}

/// Serves all exits of a run, and returns how many of them were out of range.
pub fn serve_all(chipset: &mut Chipset, exits: &[Event]) -> usize
    ensures setup { chipset.new.setup ≡ chipset.old.setup }
{
    let mut refused = 0_usize;
    for event in exits {
        if serve(chipset, event, true).reply.is_err() {
            refused = refused.wrapping_add(1);
        }
    }
    refused
}
