//! How many entries each processor has.

ghost use Rattle.std.specs.Prelude.{◌≡◌, ◌≢◌, ◌+◌, ◌<◌, ℕ, [], slice_index};
ghost use Rattle.board_prelude.specs.{entry_limit};
ghost use Rattle.log_check.specs.Counted.{AreNumbersOf};

use board_spec::limits::ACTORS;

/// The number of each processor's last entry, and 0 before its first.
#[derive(Drop)]
pub(crate) struct Numbers {
    last: [u32; ACTORS],
}

impl Numbers {
    /// Those of a history without entries.
    pub(crate) fn new() -> Numbers
        ensures none { AreNumbersOf result [] }
    {
        Numbers { last: [0; ACTORS] }
    }

    /// Counts one entry more of a processor, and returns its number.
    pub(crate) fn next(&mut self, actor: u8) -> u32
        requires few { slice_index self.old.last actor < entry_limit }
        ensures next { result ≡ slice_index self.old.last actor + 1 }
        ensures last { slice_index self.new.last actor ≡ result }
        ensures others { (other : ℕ) → other ≢ actor → slice_index self.new.last other ≡ slice_index self.old.last other }
    {
        let number = self.last[usize::from(actor)] + 1;
        self.last[usize::from(actor)] = number;
        number
    }
}
