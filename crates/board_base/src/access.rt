//! One access by a processor or a PCI master: to memory, or to an I/O port.

ghost use Rattle.std.specs.Prelude.{◌≡◌, ◌%◌, ◌≤◌, ◌↔◌, IsTrue};
ghost use Rattle.board_base.specs.Access.{bytes_of, largest_of};
ghost use Rattle.board_base.specs.declared.access.Kind.{Kind};

/// How many bytes an access moves.
#[derive(Clone, Copy, PartialEq, Eq, Debug)]
pub enum Width {
    One,
    Two,
    Four,
}

impl Width {
    /// The number of bytes: 1, 2 or 4.
    pub fn bytes(self) -> u32
        ensures bytes { result ≡ bytes_of self }
    {
        match self {
            Width::One => 1,
            Width::Two => 2,
            Width::Four => 4,
        }
    }

    /// The largest value that fits, which has every bit of the width set. An access that nobody
    /// claims reads this value.
    pub fn largest(self) -> u32
        ensures largest { result ≡ largest_of self }
    {
        match self {
            Width::One => 0xFF,
            Width::Two => 0xFFFF,
            Width::Four => 0xFFFF_FFFF,
        }
    }

    /// Whether `value` fits this width.
    pub fn fits(self, value: u32) -> bool
        ensures fits { IsTrue result ↔ value ≤ largest_of self }
    {
        value <= self.largest()
    }

    /// Whether an address or a port is a multiple of this width.
    pub fn is_aligned(self, addr: u32) -> bool
        ensures aligned { IsTrue result ↔ addr % bytes_of self ≡ 0 }
    {
        addr % self.bytes() == 0
    }
}

/// What a memory access does: a code fetch, a data read or a data write.
#[derive(Clone, Copy, PartialEq, Eq, Debug)]
pub enum Kind {
    Fetch,
    Read,
    Write,
}

impl Kind {
    /// Whether the access writes. Fetches and reads do not.
    pub fn is_write(self) -> bool
        ensures write { IsTrue result ↔ self ≡ Kind.Write }
    {
        match self {
            Kind::Fetch => false,
            Kind::Read => false,
            Kind::Write => true,
        }
    }
}

/// An access to memory. `addr` is a multiple of the width. `smm` says that it is made in system
/// management mode. `value` fits the width, and is 0 where the access does not write.
#[derive(Clone, Copy, PartialEq, Eq, Debug)]
pub struct Access {
    pub kind: Kind,
    pub addr: u32,
    pub width: Width,
    pub smm: bool,
    pub value: u32,
}

/// An access to an I/O port. `port` is a multiple of the width. `value` fits the width, and is 0
/// where the access reads.
#[derive(Clone, Copy, PartialEq, Eq, Debug)]
pub struct PortAccess {
    pub write: bool,
    pub port: u16,
    pub width: Width,
    pub value: u32,
}

/// A memory access of 2, 4 or 8 bytes that no single bus cycle moves: it is of 8 bytes, or `addr` is not a
/// multiple of `bytes`. Its last byte lies at FFFFFFFFh or below. `value` fits, and is 0 where it does not write.
#[derive(Clone, Copy, PartialEq, Eq, Debug)]
pub struct WideAccess {
    pub kind: Kind,
    pub bytes: u8,
    pub smm: bool,
    pub addr: u32,
    pub value: u64,
}
