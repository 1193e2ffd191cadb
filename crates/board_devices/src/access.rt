//! Accesses at the ports of the devices.

ghost use Rattle.std.specs.Prelude.{◌≡◌, ◌∷◌, ◌≤◌, List, Some, true, false, ◌&&◌, option_map};
ghost use Rattle.board_prelude.specs.{bytes_of, largest_of, Entry, Setup, device_value, vector_of, acknowledged_by};
ghost use Rattle.board_prelude.specs.{Ack as AckEvent, option_map_or, answer_of, pair_after_acknowledge, set_gate2};
ghost use Rattle.board_prelude.specs.{is_ata_port, read_of, is_bit, who_answered, System, plain_accessed};
ghost use Rattle.device_spec.specs.Ata.Steps.{after_read as disk_after_read, after_write as disk_after_write};
ghost use Rattle.pic_pair.specs.View.{answer_shown};
ghost use Rattle.board_devices.specs.Steps.{value_read, after_read, after_write, driven};
ghost use Rattle.board_devices.specs.Devices.{AreDevicesOf, AreRoutesOf, sectors_fitted};
ghost use Rattle.board_devices.specs.Events.{is_chip_port, sets_triggers, ReachesDevice, Asks};

use crate::devices::Devices;
use board_base::bits::is_set;
use board_base::{Dev, PortAccess};
use device_spec::port::ELCR_HIGH;
use pic_pair::Ack;
use south_bridge::Pirq;

/// The bit of port 61h that is the gate of counter 2.
const GATE_2: u32 = 0;

impl Devices {
    /// Reads a port of a device, which may change its state, and then the lines reach the pair where one moved. Without
    /// a disk its ports read all ones.
    #[tactic(auto, using(crate::proofs::DiskSizes::read_fitted, crate::proofs::DeviceLemmas::value_at))]
    pub fn read(&mut self, routes: &Pirq, dev: Dev, access: &PortAccess) -> u32
        requires port { is_chip_port dev access.now.port (bytes_of access.now.width) ≡ true }
        ensures value { (setup : Setup) (history : List Entry) → AreDevicesOf setup history self.old
            → result ≡ device_value setup history dev access.now.port access.now.width }
        ensures devices { (setup : Setup) (history : List Entry) (entry : Entry) → AreDevicesOf setup history self.old
            → ReachesDevice history entry dev access.now → access.now.write ≡ false
            → AreRoutesOf setup (entry ∷ history) routes.now → AreDevicesOf setup (entry ∷ history) self.new }
        ensures fitted { sectors_fitted self.new.disk ≡ sectors_fitted self.old.disk }
    {
        let before = self.driven(dev);
        let value = self.read_port(dev, access);
        if self.moved(dev, false, before) {
            self.settle(routes);
        }
        value
    }

    /// Writes a port of a device, and then the lines reach the pair where one moved, or which are level triggered.
    #[tactic(auto, using(crate::proofs::DiskSizes::write_fitted))]
    pub fn write(&mut self, routes: &Pirq, dev: Dev, access: &PortAccess)
        requires port { is_chip_port dev access.now.port (bytes_of access.now.width) ≡ true }
        requires fits { access.now.value ≤ largest_of access.now.width }
        ensures devices { (setup : Setup) (history : List Entry) (entry : Entry) → AreDevicesOf setup history self.old
            → ReachesDevice history entry dev access.now → access.now.write ≡ true
            → AreRoutesOf setup (entry ∷ history) routes.now → AreDevicesOf setup (entry ∷ history) self.new }
        ensures fitted { sectors_fitted self.new.disk ≡ sectors_fitted self.old.disk }
    {
        let before = self.driven(dev);
        self.write_port(dev, access);
        if self.moved(dev, true, before) {
            self.settle(routes);
        }
    }

    /// Whether the lines, or which of them are level triggered, moved by an access to a device that before it drove its
    /// line at this level.
    fn moved(&self, dev: Dev, write: bool, before: bool) -> bool
        ensures triggers { result ≡ false → (write && sets_triggers dev) ≡ false }
        ensures level { result ≡ false → driven dev self.now ≡ before }
    {
        write && sets_triggers(dev) || self.driven(dev) != before
    }

    /// Acknowledges an interrupt: the vector, and who gives it. No line moves by it, whatever the routes are.
    pub fn acknowledge(&mut self, routes: &Pirq) -> (u8, Dev)
        ensures vector { (setup : Setup) (history : List Entry) → AreDevicesOf setup history self.old
            → result.0 ≡ vector_of setup history }
        ensures who { (setup : Setup) (history : List Entry) → AreDevicesOf setup history self.old
            → result.1 ≡ acknowledged_by setup history }
        ensures devices { (setup : Setup) (history : List Entry) (entry : Entry) → AreDevicesOf setup history self.old
            → Asks history entry AckEvent → AreRoutesOf setup (entry ∷ history) routes.now
            → AreDevicesOf setup (entry ∷ history) self.new }
        ensures fitted { sectors_fitted self.new.disk ≡ sectors_fitted self.old.disk }
    {
        let ack = self.answer();
        (ack.vector, who_answered(&ack))
    }

    /// The pair's answer to an acknowledge.
    fn answer(&mut self) -> Ack
        ensures answer { answer_shown result ≡ answer_of self.old.pair }
        ensures after { self.new ≡ record self.old { pair = pair_after_acknowledge self.old.pair } }
    {
        self.pair.acknowledge()
    }

    /// Reads a port of a device.
    #[tactic(auto, unfolding(crate::specs::Steps::value_read, crate::specs::Steps::after_read, crate::specs::Steps::devices_accessed))]
    fn read_port(&mut self, dev: Dev, access: &PortAccess) -> u32
        requires port { is_chip_port dev access.now.port (bytes_of access.now.width) ≡ true }
        ensures value { result ≡ value_read dev access.now self.old }
        ensures after { self.new ≡ after_read dev access.now self.old }
    {
        match dev {
            Dev::Pic0 => u32::from(self.pair.port_read(access.port)),
            Dev::Pic1 => u32::from(self.pair.port_read(access.port)),
            Dev::Pit => u32::from(self.timer.port_read(access.port)),
            Dev::Clock => u32::from(self.clock.port_read(access.port)),
            Dev::Elcr => u32::from(self.triggers.read(access.port == ELCR_HIGH)),
            Dev::Ata => self.read_disk(access),
            _ => self.plain.read(dev, access, self.timer.out(2)),
        }
    }

    /// Reads a port of the disk. Without one it reads all ones.
    fn read_disk(&mut self, access: &PortAccess) -> u32
        requires port { is_ata_port access.now.port access.now.width ≡ true }
        ensures value { result ≡ option_map_or (λ disk. read_of access.now.port access.now.width disk)
            self.old.disk (largest_of access.now.width) }
        ensures after { self.new ≡ record self.old {
          disk = option_map (λ disk. disk_after_read access.now.port access.now.width disk) self.old.disk;
        } }
    {
        match &mut self.disk {
            Some(disk) => disk.port_read(access.port, access.width),
            None => access.width.largest(),
        }
    }

    /// Writes a port of a device.
    #[tactic(auto, unfolding(crate::specs::Steps::after_write, crate::specs::Steps::devices_accessed))]
    pub(crate) fn write_port(&mut self, dev: Dev, access: &PortAccess)
        requires port { is_chip_port dev access.now.port (bytes_of access.now.width) ≡ true }
        requires fits { access.now.value ≤ largest_of access.now.width }
        ensures after { self.new ≡ after_write dev access.now self.old }
    {
        match dev {
            Dev::Pic0 => self.pair.port_write(access.port, access.value as u8),
            Dev::Pic1 => self.pair.port_write(access.port, access.value as u8),
            Dev::Pit => self.timer.port_write(access.port, access.value as u8),
            Dev::System => self.write_system(access),
            Dev::Clock => self.clock.port_write(access.port, access.value as u8),
            Dev::Elcr => self
                .triggers
                .write(access.port == ELCR_HIGH, access.value as u8),
            Dev::Ata => self.write_disk(access),
            _ => self.plain.write(dev, access),
        }
    }

    /// Writes port 61h, whose bit 0 is the gate of counter 2.
    fn write_system(&mut self, access: &PortAccess)
        requires port { is_chip_port System access.now.port (bytes_of access.now.width) ≡ true }
        requires fits { access.now.value ≤ largest_of access.now.width }
        ensures after { self.new ≡ record self.old {
          plain = plain_accessed (Some System) (record access.now { write = true }) self.old.plain;
          timer = set_gate2 (is_bit access.now.value 0) self.old.timer;
        } }
    {
        self.plain.write(Dev::System, access);
        self.timer.gate2(is_set(access.value, GATE_2));
    }

    /// Writes a port of the disk, where one is fitted.
    fn write_disk(&mut self, access: &PortAccess)
        requires port { is_ata_port access.now.port access.now.width ≡ true }
        ensures after { self.new ≡ record self.old {
          disk = option_map
              (λ disk. disk_after_write access.now.port access.now.width access.now.value disk) self.old.disk;
        } }
    {
        if let Some(disk) = &mut self.disk {
            disk.port_write(access.port, access.width, access.value);
        }
    }
}

/// Whether a write to a device changes which lines are level triggered.
fn sets_triggers(dev: Dev) -> bool
    ensures sets { result ≡ sets_triggers dev }
{
    match dev {
        Dev::Elcr => true,
        _ => false,
    }
}

/// Who gave the answer to an acknowledge.
fn who_answered(ack: &Ack) -> Dev
    ensures who { result ≡ who_answered (answer_shown ack.now) }
{
    if ack.spurious {
        return Dev::Spurious(ack.chip);
    }
    Dev::Vector(ack.chip)
}
