//! What a monitor asks of the devices between two events, and what it writes to them from outside the bus.

ghost use Rattle.std.specs.Prelude.{◌≡◌, ◌+◌, ◌*◌, ◌<◌, ◌≤◌, ◌↔◌, ◌∷◌, List, length, option_map, IfSome, true, false, is_some};
ghost use Rattle.board_base.specs.declared.target.Dev.TheVariants.{Clock as ClockChip};
ghost use Rattle.board_prelude.specs.{Spurious, Entry, Setup, timer_of, clock_of, disk_of, acknowledged_by};
ghost use Rattle.board_prelude.specs.{after_write, interrupt};
ghost use Rattle.pit_8254.specs.Quiet.{most_count};
ghost use Rattle.pit_8254.specs.NextRise.{IsNextRise};
ghost use Rattle.cmos_clock.specs.Outside.{with_byte};
ghost use Rattle.board_devices.specs.Devices.{AreDevicesOf, HasDisk, sectors_fitted, sectors_in, with_sectors};
ghost use Rattle.board_devices.specs.Events.{is_chip_port};
ghost use Rattle.board_devices.specs.Outside.{is_interrupting, WritesClock, PutsClockByte};

use crate::devices::Devices;
use ata_pio::Ata;
use board_base::{Dev, PortAccess, Width};
use cmos_clock::CLOCK_BYTES;
use device_spec::port::{CLOCK_DATA, CLOCK_INDEX};
use south_bridge::Pirq;

impl Devices {
    /// Whether the pair requests an interrupt: its INT is 1, and an acknowledge would not be the master's spurious one.
    #[tactic(auto, using(crate::proofs::OutsideLemmas::spurious_is))]
    pub fn interrupt(&self) -> bool
        ensures value { result ≡ is_some (interrupt self.now.pair.master) }
        ensures interrupt { (setup : Setup) (history : List Entry) → AreDevicesOf setup history self.now
            → result ≡ is_interrupting setup history }
        ensures spurious { (setup : Setup) (history : List Entry) → AreDevicesOf setup history self.now
            → (result ≡ false) ↔ (acknowledged_by setup history ≡ Spurious 0) }
    {
        self.pair.pending()
    }

    /// How many pulses of the timer's clock until line 0 next rises, which OUT of counter 0 drives. None where it never
    /// does unless something is written before.
    pub fn pulses_to_rise(&self) -> Option<u32>
        ensures value { IsNextRise self.now.timer result }
        ensures rise { (setup : Setup) (history : List Entry) → AreDevicesOf setup history self.now
            → IsNextRise (timer_of history) result }
        ensures bound { IfSome result (λ n. n ≤ 2 * most_count + 1) }
    {
        self.timer.pulses_to_rise()
    }

    /// The disk, where one is fitted.
    pub fn disk(&self) -> Option<&Ata>
        ensures value { option_map (λ disk. disk.now) result ≡ self.now.disk }
        ensures disk { (setup : Setup) (history : List Entry) → AreDevicesOf setup history self.now
            → option_map (λ disk. disk.now) result ≡ disk_of setup history }
    {
        self.disk.as_ref()
    }

    /// The bytes of all sectors of the disk, where one is fitted.
    pub fn sectors(&self) -> Option<&[u8]>
        ensures bytes { option_map (λ bytes. bytes.now) result ≡ sectors_in self.now.disk }
        ensures whole { HasDisk (sectors_in self.now.disk) self.now.disk }
    {
        match &self.disk {
            Some(disk) => {
                let _ = disk.sectors();
                Some(disk.bytes())
            }
            None => None,
        }
    }

    /// Replaces the bytes of all sectors by as many, where a disk is fitted. Which sectors are bad stays, and so does
    /// all else.
    pub fn set_sectors(&mut self, bytes: &[u8])
        requires whole { IfSome (sectors_fitted self.old.disk) (λ count. length bytes.now ≡ 512 * count) }
        ensures set { self.new ≡ with_sectors bytes.now self.old }
    {
        if let Some(disk) = &mut self.disk {
            let _ = disk.sectors();
            disk.set_all_bytes(bytes);
        }
    }

    /// The 128 bytes of the clock by address, as they are kept. A read of the flags of register C and of register D
    /// gives other bytes.
    pub fn clock_bytes(&self) -> &[u8; CLOCK_BYTES]
        ensures value { result.now ≡ self.now.clock.bytes }
        ensures bytes { (setup : Setup) (history : List Entry) → AreDevicesOf setup history self.now
            → result.now ≡ (clock_of history).bytes }
    {
        self.clock.bytes()
    }

    /// Writes the byte of the clock at an address below 128, and then the lines reach the pair. It is as if a
    /// processor had written the address to port 70h, the byte to port 71h, and the index as it was to port 70h; so
    /// registers A and B take what a write changes of them, and C and D nothing.
    #[tactic(auto, using(std::proofs::lemmas::Bool::Decides::nat_tests))]
    pub fn set_clock_byte(&mut self, routes: &Pirq, address: u8, byte: u8)
        requires address { address < 128 }
        ensures clock { self.new.clock ≡ with_byte self.old.clock address byte }
        ensures others { self.new ≡ record self.old { clock = self.new.clock; pair = self.new.pair } }
        ensures devices { (setup : Setup) (history later : List Entry) → AreDevicesOf setup history self.old
            → PutsClockByte setup routes.now history address byte later → AreDevicesOf setup later self.new }
    {
        let index = self.clock.index();
        self.write_clock(routes, CLOCK_INDEX, address);
        self.write_clock(routes, CLOCK_DATA, byte);
        self.write_clock(routes, CLOCK_INDEX, index);
    }

    /// Writes a byte to a port of the clock, and then the lines reach the pair.
    #[tactic(auto, using(crate::proofs::OutsideLemmas::clock_written))]
    fn write_clock(&mut self, routes: &Pirq, port: u16, byte: u8)
        requires port { is_chip_port ClockChip port 1 ≡ true }
        ensures clock { self.new.clock ≡ after_write self.old.clock port byte }
        ensures others { self.new ≡ record self.old { clock = self.new.clock; pair = self.new.pair } }
        ensures devices { (setup : Setup) (history : List Entry) (entry : Entry) → AreDevicesOf setup history self.old
            → WritesClock setup routes.now history entry port byte → AreDevicesOf setup (entry ∷ history) self.new }
    {
        let access = PortAccess {
            port,
            width: Width::One,
            write: true,
            value: u32::from(byte),
        };
        self.write_port(Dev::Clock, &access);
        self.settle(routes);
    }
}
