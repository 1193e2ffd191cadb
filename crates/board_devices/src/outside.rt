//! What comes from outside the bus: pulses of the timer's clock, moments, levels, and sectors that go bad. After each
//! event, and as if after each single pulse, the lines reach the pair.

ghost use Rattle.std.specs.Prelude.{◌≡◌, ◌<◌, ◌≤◌, ◌∷◌, List, length, nat_lt, slice_set, option_map, true, false};
ghost use Rattle.board_prelude.specs.{out_of, pulses, rises, after_moment, civil_time, after_bad, IsMoment, Entry};
ghost use Rattle.board_prelude.specs.{Pulses, Time, Wire, Line, BadSector, Setup, is_free_line, levels_of, elcr_of};
ghost use Rattle.board_prelude.specs.{stimulus_form, event_applied};
ghost use Rattle.board_devices.specs.Devices.{AreAfter, AreDevicesOf, AreRoutesOf, sectors_fitted};
ghost use Rattle.board_devices.specs.Events.{Asks};
ghost use Rattle.board_devices.specs.PulsedPair.{pair_after_run};

use crate::devices::Devices;
use crate::lines::TIMER_LINE;
use board_base::Moment;
use board_spec::Stimulus;
use pic_pair::{Lines, PicPair};
use pit_8254::Rises;
use south_bridge::Pirq;

impl Devices {
    /// Runs the timer for `count` pulses of its clock input. The lines reach the pair as if after each single one, and
    /// where line 0 did not move they need not.
    pub fn pulses(&mut self, routes: &Pirq, count: u32)
        ensures devices { (setup : Setup) (history : List Entry) (entry : Entry) → AreDevicesOf setup history self.old
            → Asks history entry (Pulses count) → AreRoutesOf setup history routes.now
            → AreDevicesOf setup (entry ∷ history) self.new }
        ensures fitted { sectors_fitted self.new.disk ≡ sectors_fitted self.old.disk }
    {
        let before = self.timer.out(0);
        let rises = self.run(count);
        if moved(before, rises) {
            self.give(routes, rises);
        }
    }

    /// Gives the clock a moment to show.
    pub fn moment(&mut self, routes: &Pirq, moment: Moment)
        requires moment { IsMoment moment }
        ensures devices { (setup : Setup) (history : List Entry) (entry : Entry) → AreDevicesOf setup history self.old
            → Asks history entry (Time moment) → AreRoutesOf setup (entry ∷ history) routes.now
            → AreDevicesOf setup (entry ∷ history) self.new }
        ensures fitted { sectors_fitted self.new.disk ≡ sectors_fitted self.old.disk }
    {
        self.tell(moment);
        self.settle(routes);
    }

    /// Gives INTA# of the card at a device number, 2 to 9, a level.
    pub fn set_wire(&mut self, routes: &Pirq, dev: u8, on: bool)
        requires low { 2 ≤ dev }
        requires high { dev ≤ 9 }
        ensures devices { (setup : Setup) (history : List Entry) (entry : Entry) → AreDevicesOf setup history self.old
            → Asks history entry (Wire dev on) → AreRoutesOf setup (entry ∷ history) routes.now
            → AreDevicesOf setup (entry ∷ history) self.new }
        ensures fitted { sectors_fitted self.new.disk ≡ sectors_fitted self.old.disk }
    {
        self.put_wire(dev, on);
        self.settle(routes);
    }

    /// Gives a level to an interrupt line that is set from outside, which is none of 0, 2, 8, 13 and 14.
    pub fn set_line(&mut self, routes: &Pirq, irq: u8, on: bool)
        requires free { is_free_line irq ≡ true }
        ensures devices { (setup : Setup) (history : List Entry) (entry : Entry) → AreDevicesOf setup history self.old
            → Asks history entry (Line irq on) → AreRoutesOf setup (entry ∷ history) routes.now
            → AreDevicesOf setup (entry ∷ history) self.new }
        ensures fitted { sectors_fitted self.new.disk ≡ sectors_fitted self.old.disk }
    {
        self.put_line(irq, on);
        self.settle(routes);
    }

    /// A sector of the disk goes bad. Where there is none of this number, nothing happens.
    #[tactic(auto, using(crate::proofs::DiskSizes::fitted_spoiled))]
    pub fn mark_bad(&mut self, routes: &Pirq, sector: u32)
        ensures devices { (setup : Setup) (history : List Entry) (entry : Entry) → AreDevicesOf setup history self.old
            → Asks history entry (BadSector sector) → AreRoutesOf setup (entry ∷ history) routes.now
            → AreDevicesOf setup (entry ∷ history) self.new }
        ensures fitted { sectors_fitted self.new.disk ≡ sectors_fitted self.old.disk }
    {
        self.spoil(sector);
        self.settle(routes);
    }

    /// Does what a stimulus says, by the number and the level that it gives. A number that a level follows is one that
    /// a script can give.
    pub fn apply(&mut self, routes: &Pirq, one: Stimulus, number: u32, on: bool)
        requires place { (stimulus_form one).has_level ≡ true → (stimulus_form one).numbers number ≡ true }
        ensures devices { (setup : Setup) (history : List Entry) (entry : Entry) → AreDevicesOf setup history self.old
            → Asks history entry (event_applied one number on) → AreRoutesOf setup history routes.now
            → AreRoutesOf setup (entry ∷ history) routes.now → AreDevicesOf setup (entry ∷ history) self.new }
        ensures fitted { sectors_fitted self.new.disk ≡ sectors_fitted self.old.disk }
    {
        match one {
            Stimulus::Pulses => self.pulses(routes, number),
            Stimulus::Wire => self.set_wire(routes, number as u8, on),
            Stimulus::Line => self.set_line(routes, number as u8, on),
            Stimulus::BadSector => self.mark_bad(routes, number),
        }
    }
}

impl Devices {
    /// Runs the timer for `count` pulses.
    #[tactic(auto, unfolding(device_spec::specs::Pit::out_of))]
    fn run(&mut self, count: u32) -> Rises
        ensures after { self.new ≡ record self.old { timer = pulses count self.old.timer } }
        ensures rose { result.rose ≡ rises count self.old.timer }
        ensures out0 { result.out0 ≡ out_of 0 (pulses count self.old.timer) }
    {
        self.timer.pulses(count)
    }

    /// The lines as they stand after pulses reach the pair, and leave what they would have left after each single one.
    fn give(&mut self, routes: &Pirq, rises: Rises)
        ensures pair { (setup : Setup) (history : List Entry) → AreAfter setup history self.old
            → AreRoutesOf setup history routes.now
            → self.new.pair ≡ pair_after_run (levels_of setup history) (elcr_of history) (nat_lt 0 rises.rose)
            rises.out0 self.old.pair }
        ensures others { self.new ≡ record self.old { pair = self.new.pair } }
    {
        let levels = self.levels(routes);
        let elcr = self.elcr();
        reach(&mut self.pair, levels, elcr, rises);
    }

    /// Gives the clock a moment to show.
    fn tell(&mut self, moment: Moment)
        requires moment { IsMoment moment }
        ensures after { self.new ≡ record self.old { clock = after_moment self.old.clock (civil_time moment) } }
    {
        self.clock.moment(moment);
    }

    /// Keeps the level of a card's INTA#.
    fn put_wire(&mut self, dev: u8, on: bool)
        requires high { dev ≤ 9 }
        ensures after { self.new ≡ record self.old { wires = slice_set self.old.wires dev on } }
        ensures room { length self.old.wires ≡ 16 }
    {
        self.wires = self.wires.with(dev, on);
    }

    /// Keeps the level of a line.
    fn put_line(&mut self, irq: u8, on: bool)
        requires line { irq < 16 }
        ensures after { self.new ≡ record self.old { irqs = slice_set self.old.irqs irq on } }
        ensures room { length self.old.irqs ≡ 16 }
    {
        self.irqs = self.irqs.with(irq, on);
    }

    /// A sector of the disk goes bad, where a disk is fitted.
    fn spoil(&mut self, sector: u32)
        ensures after { self.new ≡ record self.old { disk = option_map (λ disk. after_bad sector disk) self.old.disk } }
    {
        if let Some(disk) = &mut self.disk {
            disk.mark_bad(sector);
        }
    }
}

/// Whether line 0 moved in pulses, before which it was at this level.
fn moved(before: bool, rises: Rises) -> bool
    ensures rose { result ≡ false → rises.rose ≡ 0 }
    ensures level { result ≡ false → rises.out0 ≡ before }
{
    rises.rose > 0 || rises.out0 != before
}

/// The lines reach the pair. Where line 0 rose and stayed at 1, it is given at 0 and then at 1, whatever came before.
fn reach(pair: &mut PicPair, levels: Lines, elcr: u16, rises: Rises)
    ensures pair { pair.new ≡ pair_after_run levels elcr (nat_lt 0 rises.rose) rises.out0 pair.old }
{
    if rises.rose > 0 && rises.out0 {
        pair.lines(levels.with(TIMER_LINE, false), elcr);
    }
    pair.lines(levels.with(TIMER_LINE, rises.out0), elcr);
}
