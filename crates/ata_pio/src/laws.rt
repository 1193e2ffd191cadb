//! What holds of the disk beyond its rules: each law is the contract of a function that does nothing.

ghost use Rattle.ata_pio.specs.Ata.Laws.{AlternateStatusReads, MovesOn, OnlyStoresChange, PowerOnIsSound};
ghost use Rattle.ata_pio.specs.Ata.Laws.{ReadMovesItsSectors, ReadsBack, SectorIsRead, SectorIsWritten, StaysSound};
ghost use Rattle.ata_pio.specs.Ata.Laws.{VerifyLooksAtItsSectors, WriteMovesItsSectors, WrittenBackNames};

/// A read of the alternate status changes nothing.
pub fn alternate_status_reads()
    ensures law { AlternateStatusReads }
{}

/// The address registers that were written back for a sector name it, by LBA and by cylinder, head
/// and sector.
#[tactic(auto, using(crate::proofs::AddressLaws::written_back_names))]
pub fn written_back_names()
    ensures law { WrittenBackNames }
{}

/// A disk that was opened has 1 to 65,536 whole sectors.
#[tactic(auto, using(crate::proofs::SoundLaws::power_on_is_sound))]
pub fn power_on_is_sound()
    ensures law { PowerOnIsSound }
{}

/// Every access leaves a disk with as many whole sectors as before, and a sector that is under way is one
/// of them.
pub fn stays_sound()
    ensures law { StaysSound }
{}

/// No access changes the bytes of a sector but the one that brings the last word of it.
#[tactic(auto, using(crate::proofs::SoundLaws::only_stores_change))]
pub fn only_stores_change()
    ensures law { OnlyStoresChange }
{}

/// A sector that is read moves as its 256 words, and then the drive goes on.
pub fn sector_is_read()
    ensures law { SectorIsRead }
{}

/// A sector that is written holds the 256 words that came, and then the drive goes on.
#[tactic(auto, using(crate::proofs::WordLaws::sector_is_written))]
pub fn sector_is_written()
    ensures law { SectorIsWritten }
{}

/// A sector that was written and not stored again reads back the same, whatever happens between.
#[tactic(auto, using(crate::proofs::WordLaws::reads_back))]
pub fn reads_back()
    ensures law { ReadsBack }
{}

/// As the address moves on over sectors it names each in turn, and the count falls by one at each.
pub fn moves_on()
    ensures law { MovesOn }
{}

/// A read moves the words of exactly its sectors, in order, or stops at the first that cannot be read,
/// naming it and what is left.
pub fn read_moves_its_sectors()
    ensures law { ReadMovesItsSectors }
{}

/// A verify looks at exactly its sectors, or stops at the first that cannot be read.
#[tactic(auto, using(crate::proofs::CountLaws::verify_looks_at_its_sectors))]
pub fn verify_looks_at_its_sectors()
    ensures law { VerifyLooksAtItsSectors }
{}

/// A write stores exactly its sectors, in order, or stops at the first that is not there, and changes
/// no other.
pub fn write_moves_its_sectors()
    ensures law { WriteMovesItsSectors }
{}
