//! A gate that forces an order of statements.

use board_outside::Gate;
use std::sync::atomic::{AtomicU32, Ordering};

/// How often a gate looks whether it may go on: so often that a machine with much else to do starts the other thread
/// meanwhile. Ten million looks pass in some hundredths of a second, and a thread may wait longer for a processor.
const MOST_TURNS: u32 = 1_000_000_000;

/// Before or after a processor's `k`-th statement.
#[derive(Clone, Copy, PartialEq, Eq)]
pub enum Moment {
    Before(u8, u32),
    After(u8, u32),
}

use Moment::{After, Before};

/// Holds moments until others have come.
#[derive(Drop)]
pub struct HoldingGate {
    /// The second of each pair waits for the first.
    holds: &'static [(Moment, Moment)],
    /// A bit for each moment that has come.
    came: AtomicU32,
    /// How many waited in vain.
    missed: AtomicU32,
}

/// The bit of a moment. Processors are 0 and 1, and have at most four statements.
fn bit_of(moment: Moment) -> u32 {
    let place = match moment {
        Before(actor, k) => u32::from(actor) % 2 * 16 + k % 8 * 2,
        After(actor, k) => u32::from(actor) % 2 * 16 + k % 8 * 2 + 1,
    };
    1 << place
}

impl HoldingGate {
    /// Of each pair the second moment is held until the first has come.
    pub fn new(holds: &'static [(Moment, Moment)]) -> HoldingGate {
        HoldingGate {
            holds,
            came: AtomicU32::new(0),
            missed: AtomicU32::new(0),
        }
    }

    /// Whether nobody waited in vain.
    pub fn is_passed(&self) -> bool {
        self.missed.load(Ordering::SeqCst) == 0
    }

    fn has_come(&self, moment: Moment) -> bool {
        self.came.load(Ordering::SeqCst) & bit_of(moment) != 0
    }

    fn wait_for(&self, moment: Moment) {
        for _ in 0..MOST_TURNS {
            if self.has_come(moment) {
                return;
            }
        }
        self.missed.fetch_add(1, Ordering::SeqCst);
    }

    fn pass(&self, moment: Moment) {
        self.came.fetch_or(bit_of(moment), Ordering::SeqCst);
        for (first, held) in self.holds {
            if *held == moment {
                self.wait_for(*first);
            }
        }
    }
}

impl Gate for HoldingGate {
    fn before(&self, actor: u8, k: u32) {
        self.pass(Before(actor, k));
    }

    fn after(&self, actor: u8, k: u32) {
        self.pass(After(actor, k));
    }
}
