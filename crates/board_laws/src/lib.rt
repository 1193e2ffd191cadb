//! What one may expect of the definitions of the board and of the machines of its devices. Each function does
//! nothing: its clauses are laws. Those on which code stands are in the `laws` of `board_spec` and `device_spec`.
#![tactic(auto)]

ghost use Rattle.board_prelude.specs.{MapBytesDecide, MapWritesDecide, OneAnswer, OneSpan, SomeAnswer, SomeSpan};
ghost use Rattle.board_prelude.specs.{MergedBits, ByteByByte};
ghost use Rattle.board_laws.specs.AreaLaws.{RowBelowTop, WhoAnswers};
ghost use Rattle.board_laws.specs.DenialLaws.{DeniedInParts, DeniedOnBus};
ghost use Rattle.board_laws.specs.MapLaws.{MapWritesDecideMap};
ghost use Rattle.board_laws.specs.StoreLaws.{WideReads, LastStays, NothingStored, OutsideGivesOnes, WideStored};
ghost use Rattle.board_laws.specs.RegisterLaws.{RegistersStay};
ghost use Rattle.board_laws.specs.SmramLaw.{SmramByBits};

pub mod devices;
pub mod machines;
pub mod orders;
pub mod roms;

/// The registers that the address map depends on are those after the map writes alone.
#[tactic(auto, using(board_spec::proofs::MapWriteLaws::map_writes_decide))]
pub fn law_map_registers()
    ensures decided { MapWritesDecide }
{}

/// Areas and denials depend on the map bytes alone.
pub fn law_map_bytes()
    ensures decided { MapBytesDecide }
{}

/// Every address lies in exactly one span of each column of the map.
pub fn law_one_span()
    ensures some { SomeSpan }
    ensures one { OneSpan }
{}

/// Every event has an answer after every history, and only one.
#[tactic(auto, using(board_spec::proofs::ReplayLaws::some_answer, board_spec::proofs::ReplayLaws::one_answer))]
pub fn law_one_answer()
    ensures some { SomeAnswer }
    ensures one { OneAnswer }
{}

/// A byte merged under a mask has the written bits where the mask has ones, and the old bits elsewhere.
#[tactic(auto, using(board_base::proofs::MergedLemmas::merged_bits))]
pub fn law_merged()
    ensures bits { MergedBits }
{}

/// A store of several bytes is the stores of its bytes, one after the other in rising offset.
#[tactic(auto, using(board_spec::proofs::StoreLemmas::byte_by_byte))]
pub fn law_wide_store()
    ensures bytes { ByteByByte }
{}

/// A cell holds the byte of the last entry that put one there, and 0 where none did.
#[tactic(auto, using(crate::proofs::StoredLaws::last_stays, crate::proofs::StoredLaws::nothing_stored))]
pub fn law_stored()
    ensures last { LastStays }
    ensures none { NothingStored }
{}

/// A base whose bytes the board does not keep gives ones, whatever was written.
#[tactic(auto, using(crate::proofs::StoredLaws::outside_gives_ones))]
pub fn law_outside_bases()
    ensures ones { OutsideGivesOnes }
{}

/// The SMRAM register after a write, bit by bit.
#[tactic(auto, using(std::proofs::lemmas::Bool::Decides::nat_tests))]
pub fn law_smram()
    ensures bits { SmramByBits }
{}

/// Of DRAM a wide read gives, and a wide write stores, the bytes from its address on.
#[tactic(auto, using(crate::proofs::StoredLaws::wide_reads, crate::proofs::StoredLaws::wide_stored))]
pub fn law_wide_dram()
    ensures reads { WideReads }
    ensures writes { WideStored }
{}

/// Two histories with the same map writes have the same map bytes, spans and flat map.
#[tactic(auto, using(crate::proofs::MapLawProofs::map_writes_decide_map))]
pub fn law_map_writes()
    ensures decided { MapWritesDecideMap }
{}

/// Who answers at an address of memory, line by line of the memory map.
#[tactic(auto, using(crate::proofs::AreaProofs::row_below_top, crate::proofs::AreaProofs::who_answers))]
pub fn law_areas()
    ensures row { RowBelowTop }
    ensures answers { WhoAnswers }
{}

/// Without a hard reset only an entry whose reply names a register changes registers, and only near it.
#[tactic(auto, using(crate::proofs::RegisterProofs::registers_stay))]
pub fn law_registers_stay()
    ensures stay { RegistersStay }
{}

/// An access is denied exactly where nobody answers it, or where it writes to the ROM.
#[tactic(auto, using(crate::proofs::DenialProofs::denied_on_bus, crate::proofs::DenialProofs::denied_in_parts))]
pub fn law_denials()
    ensures bus { DeniedOnBus }
    ensures parts { DeniedInParts }
{}
