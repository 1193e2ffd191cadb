//! A sink in memory that can be made to fail.

ghost use Rattle.std.specs.Prelude.{◌≡◌, ◌≢◌, ◌++◌, IsErrOf, ◌≤◌, ◌↔◌, [], Some, None, length, IfOk, OnOk, OnErr};
ghost use Rattle.std.specs.Prelude.{Contains};
ghost use Rattle.board_outside.specs.Counts.{next_fault};
ghost use Rattle.outside_doubles.specs.Calls.{next_call};

use crate::calls::count_call;
use board_outside::{PutFault, Sink, append_piece};
use std::alloc::Global;

/// Bytes in memory. A put fails where its number, from 1 on, is in `failing`. `calls` and `faults`
/// stand still at the last value of their types.
#[derive(Drop)]
pub struct MemSink {
    pub bytes: Vec<u8>,
    pub failing: Vec<u32>,
    pub calls: u32,
    pub faults: u64,
}

impl MemSink {
    /// A sink that took nothing yet.
    pub fn new(alloc: Global, failing: Vec<u32>) -> MemSink
        ensures bytes { result.bytes.items ≡ [] }
        ensures failing { result.failing ≡ failing }
        ensures calls { result.calls ≡ 0 }
        ensures faults { result.faults ≡ 0 }
    {
        MemSink {
            bytes: Vec::new(alloc),
            failing,
            calls: 0,
            faults: 0,
        }
    }
}

impl Sink for MemSink {
    ghost taken = { λ sink. Some sink.bytes.items };

    ghost faults = { λ sink. sink.faults };

    ghost puts = { λ _. None };

    // More than a sink has to promise: when it fails, and that it otherwise takes the whole piece.
    fn put(&mut self, piece: &[u8]) -> Result<usize, PutFault>
        ensures calls { self.new.calls ≡ next_call self.old.calls }
        ensures failing { self.new.failing ≡ self.old.failing }
        ensures fails { IsErrOf result PutFault.Failed ↔ Contains self.old.failing.items self.new.calls }
        ensures whole { IfOk result (λ k. k ≡ length piece.now) }
        ensures takes { OnOk result (self.new.bytes.items ≡ self.old.bytes.items ++ piece.now) }
        ensures refuses { OnErr result (self.new.bytes.items ≡ self.old.bytes.items) }
        ensures fault { IsErrOf result PutFault.Failed → self.new.faults ≡ next_fault self.old.faults }
        ensures no_fault { result ≢ Err PutFault.Failed → self.new.faults ≡ self.old.faults }
        ensures never_falls { self.old.faults ≤ self.new.faults }
    {
        if count_call(&mut self.calls, &self.failing) {
            self.faults = self.faults.saturating_add(1);
            return Err(PutFault::Failed);
        }
        append_piece(&mut self.bytes, piece)
    }
}
