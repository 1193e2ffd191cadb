//! Laws of the devices, the interrupt lines and the 8259A pair after a history.

ghost use Rattle.board_spec.specs.DeviceLaws.{MemoryLeavesDevices, PairHasSeen, PairStays};

use device_spec::laws::same_levels_again;

/// The 8259A pair has always seen the lines as they stand, so what moves no line leaves it.
#[tactic(auto, using(crate::proofs::DeviceProofs::pair_has_seen, crate::proofs::DeviceProofs::pair_stays))]
pub fn law_pair()
    ensures seen { PairHasSeen }
    ensures stays { PairStays }
{
    same_levels_again();
}

/// Memory accesses and looks change no device.
pub fn law_memory_leaves_devices()
    ensures same { MemoryLeavesDevices }
{
    same_levels_again();
}
