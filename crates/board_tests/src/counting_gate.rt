//! A gate that counts the statements of eight processors.

use board_outside::Gate;
use std::sync::atomic::{AtomicU32, Ordering};

/// The bits of a processor's count, which stays below 16.
const COUNT_BITS: u32 = 4;

/// One for each of eight processors.
const ONE_EACH: u32 = 0x1111_1111;

/// Counts, for each processor, the statements that began and those that ended, and the calls that told another number.
#[derive(Drop)]
pub struct CountingGate {
    began: AtomicU32,
    ended: AtomicU32,
    wrong: AtomicU32,
}

impl CountingGate {
    pub fn new() -> CountingGate {
        CountingGate {
            began: AtomicU32::new(0),
            ended: AtomicU32::new(0),
            wrong: AtomicU32::new(0),
        }
    }

    /// Whether each of eight processors began and ended this many statements, below 16, and each call told their
    /// numbers from 1 on.
    pub fn has_counted(&self, statements: u32) -> bool {
        let all = statements % 16 * ONE_EACH;
        self.wrong.load(Ordering::SeqCst) == 0
            && self.began.load(Ordering::SeqCst) == all
            && self.ended.load(Ordering::SeqCst) == all
    }

    /// Counts a call for a processor's `k`-th statement.
    fn count(&self, counts: &AtomicU32, actor: u8, k: u32) {
        let shift = u32::from(actor) % 8 * COUNT_BITS;
        let before = counts.fetch_add(1 << shift, Ordering::SeqCst);
        if (before >> shift) % 16 + 1 != k {
            self.wrong.fetch_add(1, Ordering::SeqCst);
        }
    }
}

impl Gate for CountingGate {
    fn before(&self, actor: u8, k: u32) {
        self.count(&self.began, actor, k);
    }

    fn after(&self, actor: u8, k: u32) {
        self.count(&self.ended, actor, k);
    }
}
