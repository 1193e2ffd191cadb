//! What a monitor can see of the clock and of the interrupt lines. Nothing changes.

ghost use Rattle.std.specs.Prelude.{◌≡◌, List};
ghost use Rattle.board_prelude.specs.{Entry, byte_of_levels, clock_of, levels_of};
ghost use Rattle.pic_pair.specs.Lines.{heard_lines};
ghost use Rattle.board_chipset.specs.Chipset.{IsLeftBy};

use crate::chipset::Chipset;
use cmos_clock::Cmos;

impl Chipset {
    /// The clock: what a read of port 71h would give, and the second after the one that it shows.
    #[tactic(auto, unfolding(crate::specs::Chipset::IsLeftBy))]
    pub fn clock(&self) -> &Cmos
        ensures held { result.now ≡ self.now.state.devices.clock }
        ensures clock { (history : List Entry) → IsLeftBy self.now history → result.now ≡ clock_of history }
    {
        self.state.devices.clock()
    }

    /// The levels of the sixteen interrupt lines, as they reached the pair of 8259A last: bit k is that of line k.
    #[tactic(auto, unfolding(crate::specs::Chipset::IsLeftBy))]
    pub fn lines(&self) -> u16
        ensures held { result ≡ heard_lines self.now.state.devices.pair }
        ensures levels { (history : List Entry) → IsLeftBy self.now history
            → result ≡ byte_of_levels (levels_of self.now.setup history) }
    {
        self.state.devices.lines()
    }
}
