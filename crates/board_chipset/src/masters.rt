//! What an access of a bus master would reach, without doing it: nothing changes.

ghost use Rattle.std.specs.Prelude.{◌≡◌, ◌≢◌, List};
ghost use Rattle.board_prelude.specs.{Bytes, Entry, Smram, byte_of};
ghost use Rattle.board_chipset.specs.Chipset.{IsLeftBy};
ghost use Rattle.board_chipset.specs.Held.{HoldsBytes};
ghost use Rattle.board_chipset.specs.Masters.{IsOutsideSmram, master_part};

use crate::chipset::Chipset;
use addr_decode::decode_master;
use board_base::Kind;
use board_spec::Part;
use board_stores::target_in;

impl Chipset {
    /// What would answer an access of a bus master at an address, and what would deny it: what answers a processor
    /// outside system management mode, where SMRAM answers nobody (82441FX, System Address Map). Whatever the registers
    /// hold it is not SMRAM, and no byte of DRAM at A0000h to BFFFFh.
    #[tactic(auto, unfolding(crate::specs::Chipset::IsLeftBy))]
    pub fn decode_master(&self, addr: u32, kind: Kind) -> Part
        ensures part { (history : List Entry) → IsLeftBy self.now history
            → result ≡ master_part self.now.setup (byte_of self.now.setup history) kind addr }
        ensures held { (bytes : Bytes) → HoldsBytes self.now bytes
            → result ≡ master_part self.now.setup bytes kind addr }
        ensures no_smram { result.target ≢ Smram }
        ensures outside { IsOutsideSmram result.target addr }
    {
        let regs = self.state.registers.regs();
        let (area, denial) = decode_master(regs, addr, kind);
        Part {
            target: target_in(regs, self.setup.rom(), area, addr),
            denial,
        }
    }
}
