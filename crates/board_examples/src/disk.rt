//! The disk and who denies it.

ghost use Rattle.board_examples.specs.Disk.{SectorRead, BadSector, DisabledDisk, NoDisk};

/// The last sector is read whole, and there is none after it.
#[tactic(auto, using(crate::proofs::Histories::devices))]
pub fn sector_read()
    ensures history { SectorRead }
{}

/// A bad sector is written whole, and read again.
#[tactic(auto, using(crate::proofs::Histories::devices))]
pub fn bad_sector()
    ensures history { BadSector }
{}

/// The two enables of the disk's ports.
#[tactic(auto, using(crate::proofs::Histories::devices))]
pub fn disabled_disk()
    ensures history { DisabledDisk }
    ensures none { NoDisk }
{}
