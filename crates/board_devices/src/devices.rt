//! The devices, and what a hard reset does to them.

ghost use Rattle.std.specs.Prelude.{◌≡◌, ◌↔◌, ◌∷◌, List, [], Err, IfOk, is_some, option_map, true};
ghost use Rattle.board_prelude.specs.{Entry, Setup, IsDisk, is_hard_reset, reset as timer_at_reset, pair_at_reset};
ghost use Rattle.board_prelude.specs.{after_reset as clock_after_reset, triggers_at_reset, plain_at_reset, disk_of};
ghost use Rattle.device_spec.specs.Ata.Steps.{after_reset as disk_after_reset};
ghost use Rattle.board_devices.specs.Devices.{AreDevicesOf, AreRoutesOf, sectors_fitted};

use crate::plain::PlainPorts;
use ata_pio::{Ata, AtaOpen};
use cmos_clock::Cmos;
use pic_pair::{Lines, PicPair};
use pit_8254::Pit;
use south_bridge::{Elcr, Pirq};
use std::alloc::Global;
use std::marker::Model;

/// The devices of the board. Contracts see the state of each machine.
#[derive(Drop)]
pub struct Devices {
    pub(crate) pair: PicPair,
    pub(crate) timer: Pit,
    pub(crate) clock: Cmos,
    pub(crate) disk: Option<Ata>,
    pub(crate) triggers: Elcr,
    pub(crate) plain: PlainPorts,
    /// INTA# of each card, by its device number, 2 to 9.
    pub(crate) wires: Lines,
    /// The levels that were set from outside, by line.
    pub(crate) irqs: Lines,
}

impl Model for Devices {
    ghost use Rattle.board_devices.specs.Devices.{DevicesValue};

    ghost Value = { DevicesValue };

    ghost view = { λ d. record {
      pair = d.pair;
      timer = d.timer;
      clock = d.clock;
      disk = d.disk;
      triggers = d.triggers;
      plain = d.plain;
      wires = d.wires;
      irqs = d.irqs;
    } };
}

impl Devices {
    /// The devices at power-on, with a disk of these bytes where one is fitted. BadLength exactly where it is not 1 to
    /// 65,536 whole sectors.
    pub fn open(alloc: Global, disk: Option<&[u8]>) -> Result<Devices, AtaOpen>
        ensures fresh { IfOk result (λ devices. (setup : Setup)
            → setup.disk ≡ option_map (λ bytes. bytes.now) disk.entry → AreDevicesOf setup [] devices) }
        ensures bad { (result ≡ Err AtaOpen.BadLength) ↔ ¬ IsDisk (option_map (λ bytes. bytes.now) disk.entry) }
    {
        let disk = open_disk(alloc, disk)?;
        Ok(Devices::at_power_on(disk))
    }

    /// The devices at power-on with this disk.
    fn at_power_on(disk: Option<Ata>) -> Devices
        ensures fresh { (setup : Setup) → disk ≡ disk_of setup [] → AreDevicesOf setup [] result }
    {
        Devices {
            pair: PicPair::new(),
            timer: Pit::new(),
            clock: Cmos::new(),
            disk,
            triggers: Elcr::new(),
            plain: PlainPorts::new(),
            wires: Lines::low(),
            irqs: Lines::low(),
        }
    }

    /// Whether a disk is fitted.
    #[tactic(auto, using(std::proofs::lemmas::Bool::Decides::nat_tests))]
    pub fn has_disk(&self) -> bool
        ensures value { result ≡ is_some self.now.disk }
        ensures fitted { (setup : Setup) (history : List Entry) → AreDevicesOf setup history self.now
            → result ≡ is_some setup.disk }
    {
        self.disk.is_some()
    }

    /// The disk, where one is fitted. All else is given up.
    pub fn into_disk(self) -> Option<Ata>
        ensures disk { result ≡ self.disk }
    {
        let Devices { disk, .. } = self;
        disk
    }

    /// A hard reset: each device takes its reset state, and then the pair with the levels of that moment. The levels
    /// set from outside stay, and so do the disk's sectors and the clock's memory. `routes` are as the reset left them.
    #[tactic(auto, using(std::proofs::lemmas::Bool::Decides::nat_tests))]
    pub fn reset(&mut self, routes: &Pirq)
        ensures reset { (setup : Setup) (history : List Entry) (entry : Entry) → AreDevicesOf setup history self.old
            → is_hard_reset history entry.event ≡ true → AreRoutesOf setup (entry ∷ history) routes.now
            → AreDevicesOf setup (entry ∷ history) self.new }
        ensures fitted { sectors_fitted self.new.disk ≡ sectors_fitted self.old.disk }
    {
        self.reset_machines();
        let levels = self.levels(routes);
        self.reset_pair(levels);
        self.settle(routes);
    }

    /// Each machine but the pair takes its reset state.
    fn reset_machines(&mut self)
        ensures after { self.new ≡ record self.old {
          timer = timer_at_reset;
          clock = clock_after_reset self.old.clock;
          disk = option_map (λ disk. disk_after_reset disk) self.old.disk;
          triggers = triggers_at_reset;
          plain = plain_at_reset;
        } }
    {
        self.timer.reset();
        self.clock.reset();
        self.reset_disk();
        self.triggers.reset();
        self.plain = PlainPorts::new();
    }

    /// Resets the disk, where one is fitted.
    fn reset_disk(&mut self)
        ensures after { self.new ≡ record self.old { disk = option_map (λ disk. disk_after_reset disk) self.old.disk } }
    {
        if let Some(disk) = &mut self.disk {
            disk.reset();
        }
    }

    /// Resets the pair with its lines at these levels.
    fn reset_pair(&mut self, levels: Lines)
        ensures after { self.new ≡ record self.old { pair = pair_at_reset levels } }
    {
        self.pair.reset(levels);
    }
}

/// The disk of these bytes at power-on, where one is fitted.
fn open_disk(alloc: Global, disk: Option<&[u8]>) -> Result<Option<Ata>, AtaOpen>
    ensures fresh { IfOk result (λ opened. (setup : Setup) → setup.disk ≡ option_map (λ bytes. bytes.now) disk.entry
        → opened ≡ disk_of setup []) }
    ensures bad { (result ≡ Err AtaOpen.BadLength) ↔ ¬ IsDisk (option_map (λ bytes. bytes.now) disk.entry) }
{
    match disk {
        Some(bytes) => match Ata::open(alloc, bytes) {
            Ok(disk) => Ok(Some(disk)),
            Err(fault) => Err(fault),
        },
        None => Ok(None),
    }
}
