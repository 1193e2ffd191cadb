//! A field of a configuration header.

ghost use Rattle.std.specs.Prelude.{◌≡◌, ◌<◌, ◌-◌, true};
ghost use Rattle.board_prelude.specs.{byte};
ghost use Rattle.machine.specs.Header.{field_at, says};

/// A field of the header: its first offset, how many bytes it has, and the number that they make, the low byte first.
#[derive(Clone, Copy)]
pub(crate) struct Field {
    first: u8,
    count: u8,
    value: u32,
}

impl Field {
    /// Whether the field says the byte at an offset.
    pub(crate) fn says(&self, off: u32) -> bool
        ensures says { result ≡ says self.now off }
    {
        u32::from(self.first) <= off
            && off < u32::from(self.first) + u32::from(self.count)
            && self.value != 0
    }

    /// The byte at an offset that the field says.
    pub(crate) fn byte(&self, off: u32) -> u8
        requires says { says self.now off ≡ true }
        ensures byte { result ≡ byte self.now.value (off - self.now.first) }
    {
        byte_of(self.value, off - u32::from(self.first))
    }
}

pub(crate) fn field_at(first: u8, count: u8, value: u32) -> Field
    ensures field { result ≡ field_at first count value }
{
    Field {
        first,
        count,
        value,
    }
}

/// Byte `place` of a number, byte 0 the lowest. Past its four bytes it is 0.
#[tactic(auto, using(crate::proofs::Walks::no_byte_past))]
pub(crate) fn byte_of(value: u32, place: u32) -> u8
    ensures byte { result ≡ byte value place }
{
    if place < 4 {
        byte_below(value, place)
    } else {
        0
    }
}

fn byte_below(value: u32, place: u32) -> u8
    requires place { place < 4 }
    ensures byte { result ≡ byte value place }
{
    value.to_le_bytes()[place as usize]
}
