//! The sixteen interrupt lines.

ghost use Rattle.std.specs.Prelude.{◌≡◌, ℕ, ◌+◌, ◌*◌, ◌<◌, ◌∷◌, ◌||◌, List, slice_index_or, false};
ghost use Rattle.board_prelude.specs.{option_map_or, is_interrupt, pair_after_lines, timer_of, Entry, Setup};
ghost use Rattle.board_prelude.specs.{pirq_levels, own_level, levels_of, elcr_of};
ghost use Rattle.board_devices.specs.Devices.{AreWiresOf, AreAfter, AreDevicesOf, AreRoutesOf, sectors_fitted};
ghost use Rattle.board_devices.specs.Events.{Leaves};
ghost use Rattle.board_devices.specs.Steps.{driven};
ghost use Rattle.board_devices.specs.Laws.{AccessLeavesLines, StillLeavesLines, AcknowledgeLeavesLines, LeavesDevices};

use crate::devices::Devices;
use board_base::Dev;
use pic_pair::Lines;
use south_bridge::Pirq;

/// The line of the timer, that of the clock, and that of the disk.
pub(crate) const TIMER_LINE: u8 = 0;

const CLOCK_LINE: u8 = 8;

const DISK_LINE: u8 = 14;

/// The first card on each of the pins PIRQA# to PIRQD#, by its device number; the second is as many devices on as
/// there are pins.
const FIRST_ON_PIRQA: u8 = 5;

const FIRST_ON_PIRQB: u8 = 2;

const FIRST_ON_PIRQC: u8 = 3;

const FIRST_ON_PIRQD: u8 = 4;

/// How many pins PIRQA# to PIRQD# are.
const PINS: u8 = 4;

impl Devices {
    /// PIRQA to PIRQD: INTA# of the card at device d goes to number (d - 1) mod 4, and each is the or of its wires.
    fn pins(&self) -> [bool; 4]
        ensures pins { (history : List Entry) → AreWiresOf history self.now.wires → result ≡ pirq_levels history }
    {
        [
            self.pin(FIRST_ON_PIRQA),
            self.pin(FIRST_ON_PIRQB),
            self.pin(FIRST_ON_PIRQC),
            self.pin(FIRST_ON_PIRQD),
        ]
    }

    /// The level of a pin that two cards share, of which this is the first.
    fn pin(&self, first: u8) -> bool
        requires first { first < 6 }
        ensures level { result ≡ (slice_index_or self.now.wires first false
            || slice_index_or self.now.wires (first + 4) false) }
    {
        self.wires.level(first) | self.wires.level(first + PINS)
    }

    /// The level of the line that a device drives; where it drives none, 0.
    pub(crate) fn driven(&self, dev: Dev) -> bool
        ensures level { result ≡ driven dev self.now }
    {
        match dev {
            Dev::Pit => self.timer.out(0),
            Dev::Clock => self.clock.irq(),
            Dev::Ata => self.disk_irq(),
            _ => false,
        }
    }

    /// The level of the disk's line, which is 0 without a disk.
    fn disk_irq(&self) -> bool
        ensures level { result ≡ option_map_or (λ disk. is_interrupt disk.drive) self.now.disk false }
    {
        match &self.disk {
            Some(disk) => disk.irq(),
            None => false,
        }
    }

    /// The levels of the lines, with the PCI interrupts routed so.
    pub(crate) fn levels(&self, routes: &Pirq) -> Lines
        ensures levels { (setup : Setup) (history : List Entry) → AreAfter setup history self.now
            → AreRoutesOf setup history routes.now → result ≡ levels_of setup history }
    {
        self.own_levels().union(&routes.route(self.pins()))
    }

    /// What the devices on the board and the levels set from outside drive.
    #[tactic(auto, using(crate::proofs::DeviceLemmas::own_levels))]
    fn own_levels(&self) -> Lines
        ensures own { (setup : Setup) (history : List Entry) (line : ℕ) → AreAfter setup history self.now → line < 16
            → slice_index_or result line false ≡ own_level setup history (timer_of history) line }
    {
        let timed = self.irqs.with(TIMER_LINE, self.timer.out(0));
        let clocked = timed.with(CLOCK_LINE, self.clock.irq());
        clocked.with(DISK_LINE, self.disk_irq())
    }

    /// Gives the lines to the pair as they stand, and with them the edge and level control.
    pub(crate) fn settle(&mut self, routes: &Pirq)
        ensures pair { (setup : Setup) (history : List Entry) → AreAfter setup history self.old
            → AreRoutesOf setup history routes.now
            → self.new.pair ≡ pair_after_lines self.old.pair (levels_of setup history) (elcr_of history) }
        ensures others { self.new ≡ record self.old { pair = self.new.pair } }
    {
        let levels = self.levels(routes);
        let elcr = self.elcr();
        self.pair.lines(levels, elcr);
    }

    /// The bits of the edge and level control, one a line.
    pub(crate) fn elcr(&self) -> u16
        ensures bits { result ≡ self.now.triggers.low + 0x100 * self.now.triggers.high }
    {
        u16::from_le_bytes([self.triggers.read(false), self.triggers.read(true)])
    }

    /// After a configuration write that changed the routes, and itself reached no device: the lines reach the pair.
    pub fn reroute(&mut self, routes: &Pirq)
        ensures devices { (setup : Setup) (history : List Entry) (entry : Entry) → AreDevicesOf setup history self.old
            → Leaves history entry → AreRoutesOf setup (entry ∷ history) routes.now
            → AreDevicesOf setup (entry ∷ history) self.new }
        ensures fitted { sectors_fitted self.new.disk ≡ sectors_fitted self.old.disk }
    {
        self.settle(routes);
    }
}

/// An event that reaches no device and changes no route changes no device, nor the pair, since the lines are as the
/// pair last saw them.
pub fn law_left_alone()
    ensures left { LeavesDevices }
{}

/// An access that can move no line, one that moved none, and an acknowledge leave the pair as they themselves made it.
pub fn law_lines_stand()
    ensures access { AccessLeavesLines }
    ensures still { StillLeavesLines }
    ensures acknowledge { AcknowledgeLeavesLines }
{}
