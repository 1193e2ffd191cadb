//! The number by which viewers find that there is a newer map.
ghost use Rattle.std.specs.Prelude.{◌≡◌, IfOk};

use board_base::NoMemory;
use crossbeam_utils::CachePadded;
use std::alloc::{AllocError, Global};
use std::sync::Arc;
use std::sync::atomic::{AtomicU64, Ordering};

/// The length of the list that is published. The publisher raises it after each publish, so that a viewer takes a copy
/// only where there is a newer one. It has its cache lines to itself.
pub(crate) type Newest = CachePadded<AtomicU64>;

/// The publisher's side of that number, which no one else writes.
#[derive(Drop)]
pub(crate) struct Teller {
    newest: Arc<Newest>,
    /// What it says.
    pub told: u32,
}

impl Teller {
    /// Of a list that has its opened map alone. Refused for want of memory.
    pub(crate) fn new(alloc: Global) -> Result<Teller, NoMemory>
        ensures told { IfOk result (λ teller. teller.told ≡ 1) }
    {
        let Ok(newest) = Arc::new(alloc, CachePadded::new(AtomicU64::new(1))) else {
            return Err(NoMemory);
        };
        Ok(Teller { newest, told: 1 })
    }

    /// Tells viewers that the published list has this length.
    pub(crate) fn tell(&mut self, count: u32)
        ensures told { self.new.told ≡ count }
    {
        self.newest.store(u64::from(count), Ordering::Release);
        self.told = count;
    }

    /// The number, for a viewer. Refused for want of memory.
    pub(crate) fn newest(&self) -> Result<Arc<Newest>, AllocError> {
        Arc::try_clone(&self.newest)
    }
}
