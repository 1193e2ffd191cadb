//! Bytes in memory as a sink.

ghost use Rattle.std.specs.Prelude.{◌≡◌, ◌++◌, IsOkUnless, [], Some, None, length, IfOk, OnOk, OnErr};

use crate::fault::PutFault;
use crate::outside::Sink;
use crate::pieces::append_piece;
use std::alloc::Global;

/// Bytes in memory. A put never fails.
#[derive(Drop)]
pub struct SafeSink {
    pub bytes: Vec<u8>,
}

impl SafeSink {
    /// A sink that took nothing yet.
    pub fn new(alloc: Global) -> SafeSink
        ensures bytes { result.bytes.items ≡ [] }
    {
        SafeSink {
            bytes: Vec::new(alloc),
        }
    }
}

impl Sink for SafeSink {
    ghost taken = { λ sink. Some sink.bytes.items };

    ghost faults = { λ _. 0 };

    ghost puts = { λ _. None };

    // More than a sink has to promise: want of memory alone keeps it from the whole piece.
    fn put(&mut self, piece: &[u8]) -> Result<usize, PutFault>
        ensures only { IsOkUnless result PutFault.NoMemory }
        ensures whole { IfOk result (λ k. k ≡ length piece.now) }
        ensures takes { OnOk result (self.new.bytes.items ≡ self.old.bytes.items ++ piece.now) }
        ensures refuses { OnErr result (self.new.bytes.items ≡ self.old.bytes.items) }
    {
        append_piece(&mut self.bytes, piece)
    }
}
