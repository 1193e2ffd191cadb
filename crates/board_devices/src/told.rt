//! What the devices hold, told without a change: the clock, and the sixteen lines.

ghost use Rattle.std.specs.Prelude.{◌≡◌, List};
ghost use Rattle.board_prelude.specs.{Entry, Setup, byte_of_levels, clock_of, levels_of};
ghost use Rattle.pic_pair.specs.Lines.{heard_lines};
ghost use Rattle.board_devices.specs.Devices.{AreDevicesOf};

use crate::devices::Devices;
use cmos_clock::Cmos;

impl Devices {
    /// The clock.
    pub fn clock(&self) -> &Cmos
        ensures value { result.now ≡ self.now.clock }
        ensures clock { (setup : Setup) (history : List Entry) → AreDevicesOf setup history self.now
            → result.now ≡ clock_of history }
    {
        &self.clock
    }

    /// The levels of the sixteen lines as they reached the pair last: bit k is that of line k.
    #[tactic(auto, using(crate::proofs::HeardLines::heard_levels))]
    pub fn lines(&self) -> u16
        ensures held { result ≡ heard_lines self.now.pair }
        ensures levels { (setup : Setup) (history : List Entry) → AreDevicesOf setup history self.now
            → result ≡ byte_of_levels (levels_of setup history) }
    {
        self.pair.heard()
    }
}
