//! What one may expect of reads where expansion ROMs of cards were given bytes. Each function does nothing: its clauses
//! are laws.
ghost use Rattle.board_laws.specs.RomReads.{OnlyValueChanges, OtherRepliesStay, ReadsByteByByte};
ghost use Rattle.board_laws.specs.StepReads.{StepReadsByteByByte};

/// Where expansion ROMs were given bytes, each byte of a read is the one that a read of that byte alone gives: of such
/// a ROM the byte that it was given. A reply of which no such ROM answered a part is the chipset's own, and of every
/// other all but the value.
pub fn law_rom_reads()
    ensures bytes { ReadsByteByByte }
    ensures others { OtherRepliesStay }
    ensures value { OnlyValueChanges }
{}

/// Each byte that a step of a machine gives of memory is what a read of that byte alone gives at its address, whatever
/// history left the board.
pub fn law_step_reads()
    ensures bytes { StepReadsByteByByte }
{}
