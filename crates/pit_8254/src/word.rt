//! The fields of a control word: the mode, the bytes that are read and written, and the notation.
ghost use Rattle.std.specs.Prelude.{◌≡◌, ◌<◌, ◌≤◌, ◌%◌, ◌/◌, ◌+◌, ◌*◌, option_map};
ghost use Rattle.device_spec.specs.Pit.{mode_numbered, mode_number, is_periodic, first_element, is_terminal_count};
ghost use Rattle.device_spec.specs.Pit.{is_triggered_by_gate, asks_for_load, access_numbered, access_number};
ghost use Rattle.device_spec.specs.Pit.{notation_of_bit, notation_number, rw_field, mode_field, bcd_bit, byte_values};
ghost use Rattle.device_spec.specs.Pit.{modulus, byte_value, byte_of_value, low_byte, high_byte};
ghost use Rattle.pit_8254.specs.View.{mode_view, access_view, notation_view};

use board_base::bits::is_set;

/// The bit of a control word that says BCD.
const BCD: u32 = 0;

/// How a counter counts: modes 0 to 5 of the 8254 datasheet, in this order.
#[derive(Clone, Copy)]
pub enum CountingMode {
    TerminalCount,
    OneShot,
    RateGenerator,
    SquareWave,
    SoftwareStrobe,
    HardwareStrobe,
}

impl CountingMode {
    /// The mode of bits 3 to 1 of a control word.
    pub fn of_word(word: u8) -> CountingMode
        ensures mode { mode_view result ≡ mode_numbered (mode_field word) }
    {
        CountingMode::of_number(word / 2 % 8)
    }

    /// The mode of this number below 8, where 6 is mode 2 and 7 is mode 3.
    #[tactic(auto, unfolding(device_spec::specs::Pit::mode_numbered))]
    pub fn of_number(number: u8) -> CountingMode
        ensures mode { mode_view result ≡ mode_numbered number }
    {
        match number {
            0 => CountingMode::TerminalCount,
            1 => CountingMode::OneShot,
            2 | 6 => CountingMode::RateGenerator,
            4 => CountingMode::SoftwareStrobe,
            5 => CountingMode::HardwareStrobe,
            _ => CountingMode::SquareWave,
        }
    }

    /// The mode's number, 0 to 5.
    pub fn number(self) -> u8
        ensures number { result ≡ mode_number (mode_view self) }
        ensures bound { result ≤ 5 }
    {
        match self {
            CountingMode::TerminalCount => 0,
            CountingMode::OneShot => 1,
            CountingMode::RateGenerator => 2,
            CountingMode::SquareWave => 3,
            CountingMode::SoftwareStrobe => 4,
            CountingMode::HardwareStrobe => 5,
        }
    }

    /// Whether a counter in this mode loads again at each end.
    pub fn is_periodic(self) -> bool
        ensures periodic { result ≡ is_periodic (mode_view self) }
    {
        matches!(self, CountingMode::RateGenerator | CountingMode::SquareWave)
    }

    /// What a load of a count sets CE to: in mode 3 the even number at or below it.
    pub fn first_element(self, count: u32) -> u32
        ensures element { result ≡ first_element (mode_view self) count }
    {
        match self {
            CountingMode::SquareWave => count - count % 2,
            _ => count,
        }
    }

    /// Whether this is mode 0, in which OUT waits at 0 for the end of the count.
    pub fn is_terminal_count(self) -> bool
        ensures terminal { result ≡ is_terminal_count (mode_view self) }
    {
        matches!(self, CountingMode::TerminalCount)
    }

    /// Whether a rise of the gate triggers a counter in this mode.
    pub fn is_triggered_by_gate(self) -> bool
        ensures triggered { result ≡ is_triggered_by_gate (mode_view self) }
    {
        !matches!(
            self,
            CountingMode::TerminalCount | CountingMode::SoftwareStrobe
        )
    }

    /// Whether a complete count asks for a load, by whether the counter was started.
    #[tactic(auto, unfolding(device_spec::specs::Pit::asks_for_load))]
    pub fn asks_for_load(self, started: bool) -> bool
        ensures asks { result ≡ asks_for_load (mode_view self) started }
    {
        match self {
            CountingMode::TerminalCount | CountingMode::SoftwareStrobe => true,
            CountingMode::RateGenerator | CountingMode::SquareWave => !started,
            CountingMode::OneShot | CountingMode::HardwareStrobe => false,
        }
    }
}

/// Which bytes of a count are read and written: RW 1 to 3 of the 8254 datasheet.
#[derive(Clone, Copy)]
pub enum ByteAccess {
    LowByte,
    HighByte,
    LowThenHigh,
}

impl ByteAccess {
    /// The access of bits 5 and 4 of a control word; none for the counter latch command.
    #[tactic(auto, unfolding(device_spec::specs::Pit::access_numbered))]
    pub fn of_word(word: u8) -> Option<ByteAccess>
        ensures access { option_map access_view result ≡ access_numbered (rw_field word) }
    {
        match word / 16 % 4 {
            1 => Some(ByteAccess::LowByte),
            2 => Some(ByteAccess::HighByte),
            3 => Some(ByteAccess::LowThenHigh),
            _ => None,
        }
    }

    /// The number of RW, 1 to 3.
    pub fn number(self) -> u8
        ensures number { result ≡ access_number (access_view self) }
        ensures bound { result ≤ 3 }
    {
        match self {
            ByteAccess::LowByte => 1,
            ByteAccess::HighByte => 2,
            ByteAccess::LowThenHigh => 3,
        }
    }
}

/// How a byte of a count is coded: as a number, or as two decimal digits (BCD).
#[derive(Clone, Copy)]
pub enum CountNotation {
    Binary,
    Decimal,
}

impl CountNotation {
    /// The notation of bit 0 of a control word.
    pub fn of_word(word: u8) -> CountNotation
        ensures notation { notation_view result ≡ notation_of_bit (bcd_bit word) }
    {
        if is_set(word.into(), BCD) {
            CountNotation::Decimal
        } else {
            CountNotation::Binary
        }
    }

    /// The number of the BCD bit, 0 or 1.
    pub fn number(self) -> u8
        ensures number { result ≡ notation_number (notation_view self) }
        ensures bound { result ≤ 1 }
    {
        match self {
            CountNotation::Binary => 0,
            CountNotation::Decimal => 1,
        }
    }

    /// How many values a byte of a count has.
    pub fn byte_values(self) -> u32
        ensures values { result ≡ byte_values (notation_view self) }
        ensures least { 100 ≤ result }
        ensures most { result ≤ 256 }
    {
        match self {
            CountNotation::Binary => 256,
            CountNotation::Decimal => 100,
        }
    }

    /// M, the number that a counter counts modulo.
    pub fn modulus(self) -> u32
        ensures modulus { result ≡ modulus (notation_view self) }
        ensures least { 10000 ≤ result }
        ensures most { result ≤ 65536 }
    {
        match self {
            CountNotation::Binary => 65536,
            CountNotation::Decimal => 10000,
        }
    }

    /// The value that a byte written stands for; a decimal digit above 9 is taken less 10.
    pub fn byte_value(self, byte: u8) -> u32
        ensures value { result ≡ byte_value (notation_view self) byte }
        ensures bound { result < 256 }
    {
        match self {
            CountNotation::Binary => u32::from(byte),
            CountNotation::Decimal => u32::from(10 * (byte / 16 % 10) + byte % 16 % 10),
        }
    }

    /// The low byte of a value, which is taken modulo M.
    #[tactic(auto, unfolding(device_spec::specs::Pit::low_byte))]
    pub fn low_byte(self, value: u32) -> u8
        ensures byte { result ≡ low_byte (notation_view self) value }
    {
        self.byte_of_value(value % self.byte_values())
    }

    /// The high byte of a value, which is taken modulo M.
    #[tactic(auto, unfolding(device_spec::specs::Pit::high_byte))]
    pub fn high_byte(self, value: u32) -> u8
        ensures byte { result ≡ high_byte (notation_view self) value }
    {
        self.byte_of_value(value / self.byte_values() % self.byte_values())
    }

    /// The byte that stands for a value.
    fn byte_of_value(self, value: u32) -> u8
        requires { value < byte_values (notation_view self) }
        ensures byte { result ≡ byte_of_value (notation_view self) value }
    {
        match self {
            CountNotation::Binary => value as u8,
            CountNotation::Decimal => (16 * (value / 10) + value % 10) as u8,
        }
    }
}
