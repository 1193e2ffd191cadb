//! Worked examples of the machines, each computed from the definitions alone. Each function does nothing:
//! its clause is the example.

ghost use Rattle.board_examples.specs.Machines.Pair.{NobodyIsReady, SpuriousAnswers, ALevelStays, AnEdgeIsKept};
ghost use Rattle.board_examples.specs.Machines.Pair.{TheHigherEndsFirst, ANewBeginning, AShortSequence, SpecialMask};
ghost use Rattle.board_examples.specs.Machines.Pair.{ChosenRegisters, Polls, PollsOfOne, ResetAtLevels, EachCommand};
ghost use Rattle.board_examples.specs.Machines.Pair.{AutomaticEnd, ModesEnd, FullyNested, Cascaded};
ghost use Rattle.board_examples.specs.Machines.Timer.{Ports, AfterReset, ReadBackOf0, Counters1And2, OnePeriod};
ghost use Rattle.board_examples.specs.Machines.Timer.{EachMode, EachCount, EachGate, BytesAndLatches};
ghost use Rattle.board_examples.specs.Machines.Clock.{AnAlarmStays, AHardReset, AMoment, HourForms, Alarms, Interrupts};
ghost use Rattle.board_examples.specs.Machines.Clock.{EachByte};
ghost use Rattle.board_examples.specs.Machines.Routing.{RouteBytes, LinesDriven, TriggerBytes};
ghost use Rattle.board_examples.specs.Machines.Disk.{PastTheEnd, BadInTheMiddle, ReadToItsEnd, BadIsWritten};
ghost use Rattle.board_examples.specs.Machines.Disk.{WrittenIsGood, WordsOfSector3, LowByteFirst, CommandEnds};
ghost use Rattle.board_examples.specs.Machines.Disk.{WordsTheWrongWay, Writes, Resets, Commands, Addresses, Identify};
ghost use Rattle.board_examples.specs.Machines.Disk.{Lengths, DiskPorts};

// The 8259A pair

/// A chip that was never initialised holds INT at 0.
#[tactic(auto, using(crate::proofs::Histories::pair))]
pub fn nobody_is_ready()
    ensures example { NobodyIsReady }
{}

/// Spurious answers come from both chips, and leave alone the chip that gives them.
#[tactic(auto, using(crate::proofs::Histories::pair))]
pub fn spurious_answers()
    ensures example { SpuriousAnswers }
{}

/// A level triggered line of the slave is pending until it falls.
#[tactic(auto, using(crate::proofs::Histories::pair))]
pub fn a_level_stays()
    ensures example { ALevelStays }
{}

/// A rise is latched whatever ELCR says.
#[tactic(auto, using(crate::proofs::Histories::pair))]
pub fn an_edge_is_kept()
    ensures example { AnEdgeIsKept }
{}

/// A higher level interrupts a lower one, and is the first to end.
#[tactic(auto, using(crate::proofs::Histories::pair))]
pub fn the_higher_ends_first()
    ensures example { TheHigherEndsFirst }
{}

/// What ICW1 clears.
#[tactic(auto, using(crate::proofs::Histories::pair))]
pub fn a_new_beginning()
    ensures example { ANewBeginning }
{}

/// A sequence without ICW3.
#[tactic(auto, using(crate::proofs::Histories::pair))]
pub fn a_short_sequence()
    ensures example { AShortSequence }
{}

/// Special mask mode.
#[tactic(auto, using(crate::proofs::Histories::pair))]
pub fn special_mask()
    ensures example { SpecialMask }
{}

/// Reads of the pending levels, of those in service and of the mask.
#[tactic(auto, using(crate::proofs::Histories::pair))]
pub fn chosen_registers()
    ensures example { ChosenRegisters }
{}

/// A poll of the master.
#[tactic(auto, using(crate::proofs::Histories::pair))]
pub fn polls()
    ensures example { Polls }
{}

/// A poll of one chip, and what the other still has.
#[tactic(auto, using(crate::proofs::Histories::pair))]
pub fn polls_of_one()
    ensures example { PollsOfOne }
{}

/// A reset with lines at 1.
#[tactic(auto, using(crate::proofs::Histories::pair))]
pub fn reset_at_levels()
    ensures example { ResetAtLevels }
{}

/// The eight commands of OCW2.
#[tactic(auto, using(crate::proofs::Histories::pair))]
pub fn each_command()
    ensures example { EachCommand }
{}

/// Automatic end of interrupt.
#[tactic(auto, using(crate::proofs::Histories::pair))]
pub fn automatic_end()
    ensures example { AutomaticEnd }
{}

/// Special fully nested mode.
#[tactic(auto, using(crate::proofs::Histories::pair))]
pub fn fully_nested()
    ensures example { FullyNested }
{}

/// The slave's lines, and line 2.
#[tactic(auto, using(crate::proofs::Histories::pair))]
pub fn cascaded()
    ensures example { Cascaded }
{}

/// ICW1 ends each mode.
#[tactic(auto, using(crate::proofs::Histories::pair))]
pub fn modes_end()
    ensures example { ModesEnd }
{}

// The 8254

/// The ports of the timer.
#[tactic(auto, using(crate::proofs::Histories::timer))]
pub fn ports()
    ensures example { Ports }
{}

/// The outputs and the status of each counter after a reset.
#[tactic(auto, using(crate::proofs::Histories::timer))]
pub fn after_reset()
    ensures example { AfterReset }
{}

/// A square wave of five, read back.
#[tactic(auto, using(crate::proofs::Histories::timer))]
pub fn read_back_of_0()
    ensures example { ReadBackOf0 }
{}

/// Ports, outputs and control words of the other counters.
#[tactic(auto, using(crate::proofs::Histories::timer))]
pub fn counters_1_and_2()
    ensures example { Counters1And2 }
{}

/// One period of a square wave of five, and the rises of OUT 0.
#[tactic(auto, using(crate::proofs::Histories::timer))]
pub fn one_period()
    ensures example { OnePeriod }
{}

/// The counting element and OUT in each mode.
#[tactic(auto, using(crate::proofs::Histories::timer))]
pub fn each_mode()
    ensures example { EachMode }
{}

/// The least counts, the greatest, and decimal ones.
#[tactic(auto, using(crate::proofs::Histories::timer))]
pub fn each_count()
    ensures example { EachCount }
{}

/// What the gate does in each mode.
#[tactic(auto, using(crate::proofs::Histories::timer))]
pub fn each_gate()
    ensures example { EachGate }
{}

/// The bytes of counts and latches, in their order.
#[tactic(auto, using(crate::proofs::Histories::timer))]
pub fn bytes_and_latches()
    ensures example { BytesAndLatches }
{}

// The clock

/// An alarm that rang, until register C is read.
#[tactic(auto, unfolding(crate::specs::Machines::Clock::AnAlarmStays, crate::specs::Machines::Words::given, crate::specs::Machines::Words::told, device_spec::specs::Clock::power_on))]
pub fn an_alarm_stays()
    ensures example { AnAlarmStays }
{}

/// A hard reset clears the index, the flags and the interrupts.
#[tactic(auto, unfolding(crate::specs::Machines::Clock::AHardReset, crate::specs::Machines::Words::given, crate::specs::Machines::Words::told, device_spec::specs::Clock::power_on))]
pub fn a_hard_reset()
    ensures example { AHardReset }
{}

/// The bytes of a moment.
#[tactic(auto, unfolding(crate::specs::Machines::Words::given, crate::specs::Machines::Words::told, device_spec::specs::Clock::power_on))]
pub fn a_moment()
    ensures example { AMoment }
{}

/// Hours in the four forms.
#[tactic(auto, unfolding(crate::specs::Machines::Words::given, crate::specs::Machines::Words::told, device_spec::specs::Clock::power_on))]
pub fn hour_forms()
    ensures example { HourForms }
{}

/// When an alarm rings.
#[tactic(auto, unfolding(crate::specs::Machines::Words::given, crate::specs::Machines::Words::told, device_spec::specs::Clock::power_on))]
pub fn alarms()
    ensures example { Alarms }
{}

/// What raises the interrupt line.
#[tactic(auto, unfolding(crate::specs::Machines::Words::given, crate::specs::Machines::Words::told, device_spec::specs::Clock::power_on))]
pub fn interrupts()
    ensures example { Interrupts }
{}

/// What a write and a hard reset leave of each byte.
#[tactic(auto, unfolding(crate::specs::Machines::Words::given, crate::specs::Machines::Words::told, device_spec::specs::Clock::power_on))]
pub fn each_byte()
    ensures example { EachByte }
{}

// The routing

/// The bytes of the route control registers.
pub fn route_bytes()
    ensures example { RouteBytes }
{}

/// The lines that routed pins hold at 1.
#[tactic(auto, unfolding(device_spec::specs::Routing::is_line_driven))]
pub fn lines_driven()
    ensures example { LinesDriven }
{}

/// The bytes of the edge/level control registers.
pub fn trigger_bytes()
    ensures example { TriggerBytes }
{}

// The disk

/// A read past the end of the disk.
#[tactic(auto, using(crate::proofs::Histories::disk))]
pub fn past_the_end()
    ensures example { PastTheEnd }
{}

/// A read that meets a bad sector.
#[tactic(auto, using(crate::proofs::Histories::disk))]
pub fn bad_in_the_middle()
    ensures example { BadInTheMiddle }
{}

/// A read of two sectors.
#[tactic(auto, using(crate::proofs::Histories::disk))]
pub fn read_to_its_end()
    ensures example { ReadToItsEnd }
{}

/// A write over a bad sector begins.
#[tactic(auto, using(crate::proofs::Histories::disk))]
pub fn bad_is_written()
    ensures example { BadIsWritten }
{}

/// A bad sector that was written is read back.
#[tactic(auto, using(crate::proofs::Histories::disk))]
pub fn written_is_good()
    ensures example { WrittenIsGood }
{}

/// The words of a sector.
#[tactic(auto, using(crate::proofs::Histories::disk))]
pub fn words_of_sector_3()
    ensures example { WordsOfSector3 }
{}

/// The order of bytes and words.
#[tactic(auto, using(crate::proofs::Histories::disk))]
pub fn low_byte_first()
    ensures example { LowByteFirst }
{}

/// A command that ends a transfer.
#[tactic(auto, using(crate::proofs::Histories::disk))]
pub fn command_ends()
    ensures example { CommandEnds }
{}

/// Words moved against a command.
#[tactic(auto, using(crate::proofs::Histories::disk))]
pub fn words_the_wrong_way()
    ensures example { WordsTheWrongWay }
{}

/// Writes past the end and to their end.
#[tactic(auto, using(crate::proofs::Histories::disk))]
pub fn writes()
    ensures example { Writes }
{}

/// SRST, and drive 1.
#[tactic(auto, using(crate::proofs::Histories::disk))]
pub fn resets()
    ensures example { Resets }
{}

/// The other commands, the registers and a hard reset.
#[tactic(auto, using(crate::proofs::Histories::disk))]
pub fn commands()
    ensures example { Commands }
{}

/// Cylinders, heads and sectors.
#[tactic(auto, using(crate::proofs::Histories::disk))]
pub fn addresses()
    ensures example { Addresses }
{}

/// The words of IDENTIFY DEVICE.
#[tactic(auto, using(crate::proofs::Histories::disk))]
pub fn identify()
    ensures example { Identify }
{}

/// Which disks there are.
#[tactic(auto, using(crate::proofs::Histories::disk))]
pub fn lengths()
    ensures example { Lengths }
{}

/// The ports of the disk, by width.
#[tactic(auto, using(crate::proofs::Histories::disk))]
pub fn disk_ports()
    ensures example { DiskPorts }
{}
