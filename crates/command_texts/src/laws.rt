//! Laws of the texts. Each function does nothing: its clause is the law.

ghost use Rattle.command_texts.specs.Laws.{EntryOfVersionIsFirst, RomsAreRead};

/// The entry that `blame` names for a version of the address map is the first after which the map had that version.
pub fn law_entry_of_version()
    ensures first { EntryOfVersionIsFirst }
{}

/// A transfer out of the expansion ROM of a card moves the bytes that an access reads there.
#[tactic(auto, using(crate::proofs::TransferTexts::roms_are_read))]
pub fn law_roms_are_read()
    ensures law { RomsAreRead }
{}
