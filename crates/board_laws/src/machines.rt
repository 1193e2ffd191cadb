//! Laws of the machines. Each function does nothing: its clauses are the laws.
ghost use Rattle.board_laws.specs.ClockLaws.{MemoryKeeps, ReadingQuiets, ResetKeepsTheTime, RingsAtItsTime};
ghost use Rattle.board_laws.specs.ClockLaws.{ShowsTheMoment, StaysSound};
ghost use Rattle.board_laws.specs.PicLaws.{PrioritiesGoRound, InterruptIsFirst, MaskedLevelsWait, InterruptIsSelected};
ghost use Rattle.board_laws.specs.PicLaws.{SelectedInterrupts, NonSpecificEndEndsFirst, NonSpecificEndOfNone};
ghost use Rattle.board_laws.specs.PicLaws.{ReadsLeaveTheOther, AcknowledgedIsInService, AcknowledgedSlaveIsInService};
ghost use Rattle.board_laws.specs.PicLaws.{SpecificEndEndsOne, SpuriousLeavesAlone, StaysLatched};
ghost use Rattle.board_prelude.specs.{CountersAreApart, RateRepeats, SquareRepeats};
ghost use Rattle.board_laws.specs.PitLaws.{LatchedCountStays, LatchedCountIsRead, ReadBackIsOneByOne, ReadBackIsLatch};
ghost use Rattle.board_laws.specs.PitLaws.{ReadBackOfBoth, CountReadsAsWritten};
ghost use Rattle.board_laws.specs.PitCounts.{CountIsTaken, CountWaits, CountsEndOnce, CountsStrobeOnce, PulseLoads};
ghost use Rattle.board_laws.specs.RoutingLaws.{RoutesOneLine};

// The routing

/// A pin is routed to one of the eleven other lines, by its number, where bit 7 is 0.
pub fn routes_one_line()
    ensures { RoutesOneLine }
{}

// The 8259A pair

/// The order of priorities begins after the lowest level and goes round to it.
#[tactic(auto, using(crate::proofs::PicLaws::priorities))]
pub fn priorities_go_round()
    ensures { PrioritiesGoRound }
{}

/// A level is never acknowledged while one of higher priority can be selected, or is being served.
#[tactic(auto, using(crate::proofs::PicLaws::interrupt_first))]
pub fn interrupt_is_first()
    ensures { InterruptIsFirst }
{}

/// INT of a chip is 1 exactly where it is ready and some level can be selected, and stands for the first of these.
pub fn interrupt_is_selected()
    ensures only { InterruptIsSelected }
    ensures wherever { SelectedInterrupts }
{}

/// A masked level is never acknowledged.
#[tactic(auto, using(crate::proofs::PicLaws::interrupt_unmasked))]
pub fn masked_levels_wait()
    ensures { MaskedLevelsWait }
{}

/// A level that is acknowledged without automatic end of interrupt is in service.
#[tactic(auto, using(crate::proofs::PicLaws::acknowledged_is_in_service_rules), unfolding(device_spec::specs::Pair::pair_after_acknowledge))]
pub fn acknowledged_is_in_service()
    ensures master { AcknowledgedIsInService }
    ensures slave { AcknowledgedSlaveIsInService }
{}

/// A specific end of interrupt changes no other level.
pub fn specific_end_ends_one()
    ensures { SpecificEndEndsOne }
{}

/// A non-specific end of interrupt ends the first level that is served, and only that.
pub fn non_specific_end_ends_first()
    ensures first { NonSpecificEndEndsFirst }
    ensures none { NonSpecificEndOfNone }
{}

/// A spurious answer leaves the chip that gives it alone.
#[tactic(auto, using(crate::proofs::PicLaws::spurious_leaves_alone_rules), unfolding(device_spec::specs::Pair::answer_of, device_spec::specs::Pair::pair_after_acknowledge))]
pub fn spurious_leaves_alone()
    ensures { SpuriousLeavesAlone }
{}

/// From the reset on, whenever the slave requests service its request is latched at input 2 of the master.
#[tactic(auto, using(crate::proofs::PicLaws::stays_latched))]
pub fn slave_is_latched()
    ensures { StaysLatched }
{}

/// A read of one chip, which may poll it, leaves the other chip alone.
#[tactic(auto, using(crate::proofs::PicLaws::reads_leave))]
pub fn reads_leave_the_other()
    ensures { ReadsLeaveTheOther }
{}

// The 8254

/// A latched count is what was in CE when it was latched, whatever happens after it, and the reads give it.
#[tactic(auto, using(crate::proofs::PitLatches::latched_count_stays, crate::proofs::PitLatches::latched_count_is_read))]
pub fn latched_count_stays()
    ensures held { LatchedCountStays }
    ensures read { LatchedCountIsRead }
{}

/// A read-back of several counters, or of count and status, equals the single latches.
#[tactic(auto, using(crate::proofs::PitLatches::read_back_is_single_latches_rules))]
pub fn read_back_is_single_latches()
    ensures counters { ReadBackIsOneByOne }
    ensures latch { ReadBackIsLatch }
    ensures both { ReadBackOfBoth }
{}

/// Pulses of the chip are pulses of each counter by itself.
#[tactic(auto, using(device_spec::proofs::PitPulses::counters_apart))]
pub fn counters_are_apart()
    ensures apart { CountersAreApart }
{}

/// A count that is written low byte and high byte is read as these bytes.
#[tactic(auto, using(std::proofs::lemmas::Bool::Decides::nat_tests), unfolding(device_spec::specs::Pit::low_byte, device_spec::specs::Pit::high_byte, device_spec::specs::Pit::count_of_number))]
pub fn count_reads_as_written()
    ensures bytes { CountReadsAsWritten }
{}

/// The pulse that follows the write of a count, or a rise of the gate, loads the count. The mode says which of the
/// two, and the level of the gate does not matter.
#[tactic(auto, using(std::proofs::lemmas::Bool::Decides::nat_tests), unfolding(device_spec::specs::Pit::pulse, device_spec::specs::Pit::pulse_by_mode, device_spec::specs::Pit::load))]
pub fn pulse_loads()
    ensures { PulseLoads }
{}

/// In modes 0 and 1 OUT rises once, at the end of the count, and stays.
#[tactic(auto, using(crate::proofs::PitCounts::counts_end_once))]
pub fn counts_end_once()
    ensures { CountsEndOnce }
{}

/// In modes 4 and 5 OUT is 0 for one pulse, at the end of the count, and never again without a load.
#[tactic(auto, using(crate::proofs::PitCounts::counts_strobe_once))]
pub fn counts_strobe_once()
    ensures { CountsStrobeOnce }
{}

/// In modes 2 and 3 a count that is written waits for the next load, and is in use from then on.
#[tactic(auto, using(crate::proofs::PitCounts::count_waits, crate::proofs::PitCounts::count_is_taken))]
pub fn count_waits()
    ensures waits { CountWaits }
    ensures taken { CountIsTaken }
{}

/// In modes 2 and 3 a count of `n` gives a period of `n` pulses, of which OUT is 0 for the last one,
/// or for the second half.
pub fn periods_repeat()
    ensures rate { RateRepeats }
    ensures square { SquareRepeats }
{}

// The clock

/// After a moment the time bytes show it, in each of the four formats.
pub fn shows_the_moment()
    ensures law { ShowsTheMoment }
{}

/// An alarm that is set to a time of day rings at this time and at no other.
#[tactic(auto, using(std::proofs::lemmas::Bool::Decides::nat_tests, crate::proofs::ClockLaws::rings))]
pub fn rings_at_its_time()
    ensures law { RingsAtItsTime }
{}

/// A read of register C leaves no flag and no interrupt.
#[tactic(auto, using(crate::proofs::ClockLaws::reading_quiets))]
pub fn reading_quiets()
    ensures law { ReadingQuiets }
{}

/// A hard reset keeps the time and the memory, and switches each interrupt off.
#[tactic(auto, using(crate::proofs::ClockLaws::reset_keeps_the_time))]
pub fn reset_keeps_the_time()
    ensures law { ResetKeepsTheTime }
{}

/// A byte written past the registers is read there, and no other byte changes.
#[tactic(auto, using(crate::proofs::ClockLaws::memory_keeps))]
pub fn memory_keeps()
    ensures law { MemoryKeeps }
{}

/// What holds at power-on and after each step: there are 128 bytes with the index among them. Register A shows no
/// update in progress, and no update can interrupt while the time stands still.
#[tactic(auto, using(crate::proofs::ClockLaws::stays_sound))]
pub fn stays_sound()
    ensures law { StaysSound }
{}
