//! A writer as a sink.

ghost use Rattle.std.specs.Prelude.{◌≡◌, ◌<◌, ◌≤◌, None, length, take, IfOk, IfErr, OnOk, OnErr};
ghost use Rattle.std.specs.Io.KnownBytes.{Appends, Keeps};
ghost use Rattle.board_outside.specs.Counts.{next_fault};

use crate::tries::write_on;
use board_outside::{PutFault, Sink};
use std::io::Write;

/// A writer that is given pieces as large as they come. What it took is known where the writer says it. A write that
/// fails, also since nobody reads any more, and one that takes nothing are faults.
#[derive(Drop)]
pub struct OutSink<W> {
    out: W,
    faults: u64,
}

impl<W: Write> OutSink<W> {
    /// A sink over a writer, without faults.
    pub fn new(out: W) -> OutSink<W>
        ensures out { result.out ≡ out }
        ensures quiet { result.faults ≡ 0 }
    {
        OutSink { out, faults: 0 }
    }

    /// The writer with what it took.
    pub fn into_inner(self) -> W
        ensures out { result ≡ self.out }
    {
        let OutSink { out, .. } = self;
        out
    }

    // Counts a fault.
    fn fail(&mut self) -> PutFault
        ensures failed { result ≡ PutFault.Failed }
        ensures counted { self.new.faults ≡ next_fault self.old.faults }
        ensures never_falls { self.old.faults ≤ self.new.faults }
        ensures out { self.new.out ≡ self.old.out }
    {
        self.faults = self.faults.saturating_add(1);
        PutFault::Failed
    }
}

impl<W: Write> Sink for OutSink<W> {
    ghost taken = { λ sink. W.contents sink.out };

    ghost faults = { λ sink. sink.faults };

    ghost puts = { λ _. None };

    // More than a sink has to promise: it is never refused for want of memory, and a put that fails is one fault.
    fn put(&mut self, piece: &[u8]) -> Result<usize, PutFault>
        requires some { 0 < length piece.now }
        ensures only { IfErr result (λ fault. fault ≡ PutFault.Failed) }
        ensures progress { IfOk result (λ k. 0 < k) }
        ensures fits { IfOk result (λ k. k ≤ length piece.now) }
        ensures appends { IfOk result (λ k. Appends (W.contents self.old.out) (W.contents self.new.out)
            (take k piece.now)) }
        ensures refused { OnErr result (Keeps (W.contents self.old.out) (W.contents self.new.out)) }
        ensures fault { OnErr result (self.new.faults ≡ next_fault self.old.faults) }
        ensures quiet { OnOk result (self.new.faults ≡ self.old.faults) }
        ensures never_falls { self.old.faults ≤ self.new.faults }
    {
        match write_on(&mut self.out, piece) {
            Ok(count) if count > 0 => Ok(count),
            _ => Err(self.fail()),
        }
    }
}
