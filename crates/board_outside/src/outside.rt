//! The outside: where bytes come from, where they go, and what watches a run.

ghost use Rattle.std.specs.Prelude.{◌≡◌, ◌<◌, ◌≤◌, ℕ, List, Option, length, take, drop, IfOk, IfErr, OnOk, OnErr};
ghost use Rattle.std.specs.Result.{result_ok};
ghost use Rattle.std.specs.Io.KnownBytes.{Appends, Keeps};
ghost use Rattle.board_outside.specs.Outside.{Rose, OfFile, Fetch, Put, Made};

use crate::fault::{Failed, PutFault};

/// Files that are read in pieces. A shelf counts its faults, and keeps the first 255 bytes of the
/// name of its last failed fetch.
pub trait Shelf {
    // The bytes of each name; None where the shelf does not say.
    ghost files: { Self → Option (List ℕ → List ℕ) };

    ghost faults: { Self → ℕ };

    ghost failed_name: { Self → List ℕ };

    // The fetches made of the shelf, the latest first; None where it does not say.
    ghost fetches: { Self → Option (List Fetch) };

    /// Reads bytes of a file, from its byte `at` on, into the front of `into`, and returns how
    /// many. It returns 0 only at the end of the file or past it.
    fn fetch(&mut self, name: &str, at: u64, into: &mut [u8]) -> Result<usize, Failed>
        requires room { 0 < length into.old }
        ensures fits { IfOk result (λ k. k ≤ length into.new) }
        ensures bytes { IfOk result (λ k. OfFile (files self.old) name.now
            (λ file. take k into.new ≡ take k (drop at file))) }
        ensures end { IfOk result (λ k. k ≡ 0 → OfFile (files self.old) name.now
            (λ file. length file ≤ at)) }
        ensures same_files { files self.new ≡ files self.old }
        ensures never_falls { faults self.old ≤ faults self.new }
        ensures failed { OnErr result (Rose (faults self.old) (faults self.new)) }
        ensures quiet { OnOk result (faults self.new ≡ faults self.old) }
        ensures names { OnErr result (failed_name self.new ≡ take 255 name.now) }
        ensures still { OnOk result (failed_name self.new ≡ failed_name self.old) }
        ensures told { Made (fetches self.old) (fetches self.new)
            (record { name = name.now; at = at; came = result_ok result }) };
}

/// Takes bytes in pieces. A sink counts its faults.
pub trait Sink {
    // All bytes that the sink took; None where it does not say.
    ghost taken: { Self → Option (List ℕ) };

    ghost faults: { Self → ℕ };

    // The puts made into the sink, the latest first; None where it does not say.
    ghost puts: { Self → Option (List Put) };

    /// Takes bytes from the front of a piece, at least one, and returns how many. Where it does
    /// not return Ok it takes none.
    fn put(&mut self, piece: &[u8]) -> Result<usize, PutFault>
        requires some { 0 < length piece.now }
        ensures progress { IfOk result (λ k. 0 < k) }
        ensures fits { IfOk result (λ k. k ≤ length piece.now) }
        ensures appends { IfOk result (λ k. Appends (taken self.old) (taken self.new) (take k piece.now)) }
        ensures refused { OnErr result (Keeps (taken self.old) (taken self.new)) }
        ensures never_falls { faults self.old ≤ faults self.new }
        ensures failed { IfErr result (λ fault. fault ≡ PutFault.Failed →
            Rose (faults self.old) (faults self.new)) }
        ensures quiet { OnOk result (faults self.new ≡ faults self.old) }
        ensures no_fault { IfErr result (λ fault. fault ≡ PutFault.NoMemory →
            faults self.new ≡ faults self.old) }
        ensures told { Made (puts self.old) (puts self.new) (record { took = result_ok result }) };
}

/// Is called before and after each statement of an actor, and may make the actor wait there.
pub trait Gate: Sync {
    /// Actor `actor` is about to do its `k`-th statement, counted from 1.
    fn before(&self, actor: u8, k: u32);

    /// Actor `actor` has done its `k`-th statement, counted from 1.
    fn after(&self, actor: u8, k: u32);
}

/// A gate at which nobody waits.
#[derive(Clone, Copy, Debug)]
pub struct QuietGate;

impl Gate for QuietGate {
    fn before(&self, _actor: u8, _k: u32) {}

    fn after(&self, _actor: u8, _k: u32) {}
}
