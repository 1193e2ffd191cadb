//! A sink in memory that takes few bytes a call.

ghost use Rattle.std.specs.Prelude.{◌≡◌, ◌≢◌, ◌++◌, ◌<◌, ◌≤◌, ◌↔◌, length, take, min, Contains, Some, None, IfOk};
ghost use Rattle.std.specs.Prelude.{OnErr, IsErrOf};
ghost use Rattle.board_outside.specs.Counts.{next_fault};
ghost use Rattle.outside_doubles.specs.Calls.{next_call};

use crate::memory_sink::MemSink;
use board_outside::{PutFault, Sink, front};

/// Bytes in memory, of which one put takes at most `piece`, at least 1. Each put is one put of
/// `inner`, which counts the calls and faults.
#[derive(Drop)]
pub struct SlowSink {
    pub inner: MemSink,
    pub piece: usize,
    pub ghost some: { 0 < piece },
}

impl SlowSink {
    /// A sink that puts into `inner`, in pieces of at most `piece` bytes.
    pub fn new(inner: MemSink, piece: usize) -> SlowSink
        requires some { 0 < piece }
        ensures inner { result.inner ≡ inner }
        ensures piece { result.piece ≡ piece }
    {
        SlowSink { inner, piece }
    }
}

impl Sink for SlowSink {
    ghost taken = { λ sink. Some sink.inner.bytes.items };

    ghost faults = { λ sink. sink.inner.faults };

    ghost puts = { λ _. None };

    // More than a sink has to promise: what the inner one returns for the first `self.piece` bytes.
    fn put(&mut self, piece: &[u8]) -> Result<usize, PutFault>
        ensures piece { self.new.piece ≡ self.old.piece }
        ensures short { IfOk result (λ k. k ≤ self.old.piece) }
        ensures calls { self.new.inner.calls ≡ next_call self.old.inner.calls }
        ensures failing { self.new.inner.failing ≡ self.old.inner.failing }
        ensures fails { IsErrOf result PutFault.Failed ↔ Contains self.old.inner.failing.items self.new.inner.calls }
        ensures count { IfOk result (λ k. k ≡ min self.old.piece (length piece.now)) }
        ensures takes { IfOk result (λ k. self.new.inner.bytes.items
            ≡ self.old.inner.bytes.items ++ take k piece.now) }
        ensures refuses { OnErr result (self.new.inner.bytes.items ≡ self.old.inner.bytes.items) }
        ensures fault { IsErrOf result PutFault.Failed → self.new.inner.faults ≡ next_fault self.old.inner.faults }
        ensures no_fault { result ≢ Err PutFault.Failed → self.new.inner.faults ≡ self.old.inner.faults }
        ensures never_falls { self.old.inner.faults ≤ self.new.inner.faults }
    {
        self.inner.put(front(piece, self.piece))
    }
}
