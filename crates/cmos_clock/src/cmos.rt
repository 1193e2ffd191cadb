//! The clock: its ports, its time, its alarm and its interrupt line.
ghost use Rattle.std.specs.Prelude.{◌≡◌, ◌<◌};
ghost use Rattle.device_spec.specs.Clock.{after_moment, after_read, after_reset, after_write, alarm_fits, alarm_rings};
ghost use Rattle.device_spec.specs.Clock.{control_of, data_byte, flags_byte, interrupt_line, put, read_value, store};
ghost use Rattle.device_spec.specs.Clock.{time_bytes, without_flags, power_on};
ghost use Rattle.board_base.specs.Calendar.{IsMoment};
ghost use Rattle.device_spec.specs.Told.{civil_time};
ghost use Rattle.cmos_clock.specs.Outside.{peeked};

use crate::control::Control;
use crate::register::{
    DAY, HOUR, HOUR_ALARM, MINUTE, MINUTE_ALARM, MONTH, REGISTER_A, REGISTER_B, REGISTER_C,
    REGISTER_D, SECOND, SECOND_ALARM, WEEKDAY, YEAR,
};
use board_base::Moment;
use device_spec::port::{CLOCK_DATA, CLOCK_INDEX};
use std::marker::Model;

/// How many bytes the clock has: its time, its registers and its memory.
pub const CLOCK_BYTES: usize = 128;

/// What a read of a port gives where nothing answers.
const NOTHING: u8 = 0xFF;

/// The divider that register A holds at power-on, for a crystal of 32,768 Hz.
const DIVIDER_32768_HZ: u8 = 0x26;

/// Register B at power-on: the hours are 0 to 23, by its bit 1.
const POWER_ON_CONTROL: u8 = 0x02;

/// The bits of port 70h that are the index.
const INDEX_BITS: u8 = 0x7F;

/// The bits of register A that a write changes: bit 7, an update in progress, is never set.
const WRITABLE_A: u8 = 0x7F;

/// Register D: the memory and the time are valid.
const VALID: u8 = 0x80;

/// The flags of register C.
const INTERRUPT_REQUEST: u8 = 0x80;

const ALARM_FLAG: u8 = 0x20;

const UPDATE_FLAG: u8 = 0x10;

/// An alarm byte of this value or above matches every time.
const ANY_TIME: u8 = 0xC0;

/// The MC146818 real time clock with its 128 bytes. Time passes only by the moments that `moment` gives it.
/// `board_example::clock` has an example.
#[derive(Drop)]
pub struct Cmos {
    pub(crate) index: u8,
    pub(crate) bytes: [u8; CLOCK_BYTES],
    pub(crate) alarm_flag: bool,
    pub(crate) update_flag: bool,
}

impl Model for Cmos {
    ghost use Rattle.std.specs.Prelude.{◌<◌};
    ghost use Rattle.device_spec.specs.Clock.{Clock};

    ghost Value = { Clock };

    ghost view = { λ c. record {
      index = c.index;
      bytes = c.bytes;
      alarm_flag = c.alarm_flag;
      update_flag = c.update_flag;
    } };

    ghost invariant = { λ c. c.index < 128 };
}

impl Cmos {
    /// The clock at power-on: hours are 0 to 23, numbers are binary-coded decimal.
    #[tactic(auto, unfolding(device_spec::specs::Clock::power_on))]
    pub fn new() -> Cmos
        ensures state { result ≡ power_on }
    {
        let mut bytes = [0; CLOCK_BYTES];
        bytes[REGISTER_A] = DIVIDER_32768_HZ;
        bytes[REGISTER_B] = POWER_ON_CONTROL;
        Cmos {
            index: 0,
            bytes,
            alarm_flag: false,
            update_flag: false,
        }
    }

    /// Reads port 71h, the byte at the index; every other port reads FFh. A read of register C
    /// clears its flags.
    pub fn port_read(&mut self, port: u16) -> u8
        ensures value { result ≡ read_value self.old port }
        ensures state { self.new ≡ after_read self.old port }
    {
        if port != CLOCK_DATA {
            return NOTHING;
        }
        let byte = self.data();
        if self.index as usize == REGISTER_C {
            self.clear_flags();
        }
        byte
    }

    /// Writes port 70h, the index, or port 71h, the byte at the index.
    pub fn port_write(&mut self, port: u16, byte: u8)
        ensures state { self.new ≡ after_write self.old port byte }
    {
        match port {
            CLOCK_INDEX => self.index = byte & INDEX_BITS,
            CLOCK_DATA => self.write_data(byte),
            _ => {}
        }
    }

    /// Shows this moment, unless register B holds the time still.
    pub fn moment(&mut self, m: Moment)
        requires { IsMoment m }
        ensures state { self.new ≡ after_moment self.old (civil_time m) }
    {
        let control = self.control();
        if control.holds_time() {
            return;
        }
        put_time(&mut self.bytes, control, m);
        self.update_flag = true;
        self.alarm_flag = self.alarm_flag || rings(&self.bytes);
    }

    /// The level of the interrupt line: 1 while the alarm's or the update's flag is set and register B lets it through.
    pub fn irq(&self) -> bool
        ensures value { result ≡ interrupt_line self.now }
    {
        let control = self.control();
        self.alarm_flag && control.alarm_interrupts()
            || self.update_flag && control.update_interrupts()
    }

    /// A hard reset clears the index, the flags and the interrupt enables of register B. The time and the memory stay.
    pub fn reset(&mut self)
        ensures state { self.new ≡ after_reset self.old }
    {
        let control = self.control().after_reset();
        self.index = 0;
        self.bytes[REGISTER_B] = control.byte;
        self.clear_flags();
    }

    /// The bytes by address, as they are kept. A read of the flags of register C and of register D gives other bytes.
    pub fn bytes(&self) -> &[u8; CLOCK_BYTES]
        ensures bytes { result.now ≡ self.now.bytes }
    {
        &self.bytes
    }

    /// The byte that a read of port 71h would give with this index, below 128. Nothing changes: the flags of register
    /// C stay.
    pub fn peek(&self, address: u8) -> u8
        requires address { address < 128 }
        ensures byte { result ≡ peeked self.now address }
    {
        match usize::from(address) {
            REGISTER_C => self.flags(),
            REGISTER_D => VALID,
            address => self.bytes[address],
        }
    }

    /// The index: the address that port 71h reads and writes, 0 to 127.
    pub fn index(&self) -> u8
        ensures index { result ≡ self.now.index }
        ensures bound { result < 128 }
    {
        self.index
    }

    /// Clears the flags of register C.
    fn clear_flags(&mut self)
        ensures state { self.new ≡ without_flags self.old }
    {
        self.alarm_flag = false;
        self.update_flag = false;
    }

    /// The byte of register B.
    pub(crate) fn control(&self) -> Control
        ensures byte { result.byte ≡ control_of self.now }
    {
        Control {
            byte: self.bytes[REGISTER_B],
        }
    }

    /// The byte at the index.
    fn data(&self) -> u8
        ensures value { result ≡ data_byte self.now }
    {
        match self.index as usize {
            REGISTER_C => self.flags(),
            REGISTER_D => VALID,
            address => self.bytes[address],
        }
    }

    /// The byte of register C: bit 7 is the interrupt line, bit 5 the flag of the alarm, bit 4 that of the update.
    fn flags(&self) -> u8
        ensures value { result ≡ flags_byte self.now }
    {
        let mut flags = 0;
        if self.irq() {
            flags |= INTERRUPT_REQUEST;
        }
        if self.alarm_flag {
            flags |= ALARM_FLAG;
        }
        if self.update_flag {
            flags |= UPDATE_FLAG;
        }
        flags
    }

    /// Writes the byte at the index.
    fn write_data(&mut self, byte: u8)
        ensures state { self.new ≡ store self.old byte }
    {
        let address = self.index as usize;
        match address {
            REGISTER_A => self.bytes[address] = byte & WRITABLE_A,
            REGISTER_B => self.bytes[address] = Control::written(byte).byte,
            REGISTER_C | REGISTER_D => {}
            _ => self.bytes[address] = byte,
        }
    }
}

/// Stores the time and the calendar in the format of register B.
#[tactic(auto, using(crate::proofs::Following::calendar_bounds))]
fn put_time(bytes: &mut [u8; CLOCK_BYTES], control: Control, m: Moment)
    requires { IsMoment m }
    ensures bytes { bytes.new ≡ put (time_bytes control.byte (civil_time m)) bytes.old }
{
    bytes[SECOND] = control.number(m.second);
    bytes[MINUTE] = control.number(m.minute);
    bytes[HOUR] = control.hour(m.hour);
    bytes[WEEKDAY] = control.number(m.weekday);
    bytes[DAY] = control.number(m.day);
    bytes[MONTH] = control.number(m.month);
    bytes[YEAR] = control.number((m.year % 100) as u8);
}

/// Whether the time of day matches its three alarm bytes.
fn rings(bytes: &[u8; CLOCK_BYTES]) -> bool
    ensures value { result ≡ alarm_rings bytes.now }
{
    fits(bytes[SECOND_ALARM], bytes[SECOND])
        && fits(bytes[MINUTE_ALARM], bytes[MINUTE])
        && fits(bytes[HOUR_ALARM], bytes[HOUR])
}

/// Whether an alarm byte matches a byte of the time: it is equal, or C0h or above.
fn fits(alarm: u8, time: u8) -> bool
    ensures value { result ≡ alarm_fits alarm time }
{
    alarm >= ANY_TIME || alarm == time
}
