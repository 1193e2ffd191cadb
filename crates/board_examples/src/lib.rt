//! Worked examples of the definitions: what is asked of a board from reset on and what it replies, and
//! the logs of some of them; and what the machines of the devices do. Each is computed from the definitions alone.
#![tactic(auto)]

pub mod checked_logs;
pub mod devices;
pub mod disk;
pub mod events;
pub mod interrupts;
pub mod machines;
pub mod masks;
pub mod outside_bases;
pub mod ports;
pub mod resets;
pub mod roms;
pub mod stories;
pub mod texts;
pub mod versions;
pub mod wide;
pub mod windows;

ghost use Rattle.board_examples.specs.Basics.{ShadowingTheBios, OneWindowForWrites, MemoryAfterReset};
ghost use Rattle.board_examples.specs.Basics.{ConfigurationPorts, SmramLockedUntilReset, VgaBesideSmram, NoRowOfDram};
ghost use Rattle.board_examples.specs.Basics.{CardInTheHole, HoleAt512Kib, TwoCardsAtOneAddress, XbcsOverASoftReset};
ghost use Rattle.board_examples.specs.Basics.{RomAfterReset, CardMovedUnderTheRom};
ghost use Rattle.board_examples.specs.Logs.{VgaBesideSmramLogged, ConfigurationPortsLogged, TwoCardsLogged, XbcsLogged};
ghost use Rattle.board_examples.specs.Logs.{OutsideLogged};
ghost use Rattle.board_examples.specs.Maps.{MapAfterReset, MapAfterResetWritten, MapOpenAndClosed, MapClosedToData};
ghost use Rattle.board_examples.specs.Maps.{MapOfSmm};
ghost use Rattle.board_examples.specs.Orders.{LookLast, LookFirst, LookAlone, LookTooEarly, LookLastLogged};
ghost use Rattle.board_examples.specs.Orders.{LookFirstLogged};

/// The ROM is copied into the DRAM under it.
#[tactic(auto, using(crate::proofs::Histories::histories))]
pub fn shadowing_the_bios()
    ensures history { ShadowingTheBios }
{}

/// One window of 16 KiB is open, and for writes alone.
#[tactic(auto, using(crate::proofs::Histories::histories))]
pub fn one_window_for_writes()
    ensures history { OneWindowForWrites }
{}

/// Who answers after reset, and which register denies the rest.
#[tactic(auto, using(crate::proofs::Histories::histories))]
pub fn memory_after_reset()
    ensures history { MemoryAfterReset }
{}

/// The configuration address, and what its ports reach.
#[tactic(auto, using(crate::proofs::Histories::histories))]
pub fn configuration_ports()
    ensures history { ConfigurationPorts }
{}

/// SMRAM is filled, locked, and opened again by a hard reset alone.
#[tactic(auto, using(crate::proofs::Histories::histories))]
pub fn smram_locked_until_reset()
    ensures history { SmramLockedUntilReset }
{}

/// Code in SMM comes from SMRAM while data goes to the VGA card.
#[tactic(auto, using(crate::proofs::Histories::histories))]
pub fn vga_beside_smram()
    ensures history { VgaBesideSmram }
{}

/// With no row of DRAM neither SMRAM nor shadow windows answer.
#[tactic(auto, using(crate::proofs::Histories::histories))]
pub fn no_row_of_dram()
    ensures history { NoRowOfDram }
{}

/// A card answers in the hole at 15 MiB, and DRAM where it was moved.
#[tactic(auto, using(crate::proofs::Histories::histories))]
pub fn card_in_the_hole()
    ensures history { CardInTheHole }
{}

/// The hole at 512 KiB opens and closes.
#[tactic(auto, using(crate::proofs::Histories::histories))]
pub fn hole_at_512_kib()
    ensures history { HoleAt512Kib }
{}

/// Of two cards at one address the lower device answers.
#[tactic(auto, using(crate::proofs::LookRuns::looks))]
pub fn two_cards_at_one_address()
    ensures history { TwoCardsAtOneAddress }
{}

/// More of the ROM is selected, and a soft reset changes no register.
#[tactic(auto, using(crate::proofs::Histories::histories))]
pub fn xbcs_over_a_soft_reset()
    ensures history { XbcsOverASoftReset }
{}

/// The ROM answers reads and fetches, and no write.
#[tactic(auto, using(crate::proofs::Histories::histories))]
pub fn rom_after_reset()
    ensures history { RomAfterReset }
{}

/// A card is moved, and the map follows.
#[tactic(auto, using(crate::proofs::LookRuns::looks))]
pub fn card_moved_under_the_rom()
    ensures history { CardMovedUnderTheRom }
{}

/// The log of `vga_beside_smram`.
#[tactic(auto, using(crate::proofs::CheckedLogRuns::logged))]
pub fn vga_beside_smram_logged()
    ensures log { VgaBesideSmramLogged }
{}

/// The log of `configuration_ports`.
#[tactic(auto, using(crate::proofs::CheckedLogRuns::logged))]
pub fn configuration_ports_logged()
    ensures log { ConfigurationPortsLogged }
{}

/// The log of `two_cards_at_one_address`.
#[tactic(auto, using(crate::proofs::CheckedLogRuns::logged))]
pub fn two_cards_logged()
    ensures log { TwoCardsLogged }
{}

/// The log of `xbcs_over_a_soft_reset`.
#[tactic(auto, using(crate::proofs::CheckedLogRuns::logged))]
pub fn xbcs_logged()
    ensures log { XbcsLogged }
{}

/// The log of events from outside the bus, with the replies of the devices.
#[tactic(auto, using(crate::proofs::CheckedLogRuns::logged))]
pub fn outside_logged()
    ensures log { OutsideLogged }
{}

/// Of two processors one opens a window and the other looks at it afterwards: the replay of the script.
#[tactic(auto, using(crate::proofs::LookRuns::orders, crate::proofs::CheckedLogRuns::logged))]
pub fn look_last()
    ensures history { LookLast }
    ensures log { LookLastLogged }
{}

/// The same script in the other order, which is legal and complete too.
#[tactic(auto, using(crate::proofs::LookRuns::orders, crate::proofs::CheckedLogRuns::logged))]
pub fn look_first()
    ensures history { LookFirst }
    ensures log { LookFirstLogged }
{}

/// The script stopped after its look: a history that is begun.
#[tactic(auto, using(crate::proofs::LookRuns::orders))]
pub fn look_alone()
    ensures history { LookAlone }
{}

/// A look cannot see a write that comes after it.
#[tactic(auto, using(crate::proofs::LookRuns::orders))]
pub fn look_too_early()
    ensures refused { LookTooEarly }
{}

/// The flat map of a board of 8 MiB after reset, and its text.
#[tactic(auto, using(crate::proofs::LookRuns::maps, crate::proofs::CheckedLogRuns::logged))]
pub fn map_after_reset()
    ensures map { MapAfterReset }
    ensures text { MapAfterResetWritten }
{}

/// The columns of the map by SMRAME, DCLS and DOPEN.
#[tactic(auto, using(crate::proofs::LookRuns::maps))]
pub fn map_columns()
    ensures both { MapOpenAndClosed }
    ensures closed { MapClosedToData }
    ensures smm { MapOfSmm }
{}
