//! One statement of a script, what it asks of the board, and what the board replies.

ghost use Rattle.std.specs.Prelude.{◌≡◌};

use board_base::{Access, Area, Denial, Kind, Moment, PortAccess, Target, WideAccess};

/// What one statement asks of the board.
#[derive(Clone, Copy, PartialEq, Eq, Debug)]
pub enum Event {
    /// An access to memory.
    Memory(Access),
    /// An access to memory that is not aligned, or has 8 bytes. It is answered in aligned parts.
    Wide(WideAccess),
    /// An access to an I/O port.
    Port(PortAccess),
    /// A look at the address map, which is no access: where would this kind of access at `addr` land?
    Look { kind: Kind, addr: u32, smm: bool },
    /// An interrupt acknowledge.
    Ack,
    /// This many pulses of the 8254's clock input, 1 to 1,000,000.
    Pulses(u32),
    /// A moment that the clock is to show.
    Time(Moment),
    /// INTA# of the card at `dev` takes a level.
    Wire { dev: u8, on: bool },
    /// An interrupt request line takes a level.
    Line { irq: u8, on: bool },
    /// A sector of the disk goes bad.
    BadSector(u32),
}

/// What a look at the address map shows. `version` counts the map writes before it. `lo` to `hi`, both included,
/// is the longest interval round the address in which such an access has this area.
#[derive(Clone, Copy, PartialEq, Eq, Debug)]
pub struct Look {
    pub version: u32,
    pub lo: u32,
    pub hi: u32,
    pub area: Area,
}

/// What answered one part of a wide access, and the register that denied this part.
#[derive(Clone, Copy, PartialEq, Eq, Debug)]
pub struct Part {
    pub target: Target,
    pub denial: Option<Denial>,
}

/// The parts of a wide access, two to four, in rising order of address.
#[derive(Clone, Copy, PartialEq, Eq, Debug)]
pub enum Parts {
    Two(Part, Part),
    Three(Part, Part, Part),
    Four(Part, Part, Part, Part),
}

/// What the board answers to an event.
#[derive(Clone, Copy, PartialEq, Eq, Debug)]
pub enum Reply {
    /// The value of an access that reads, what answered, and the register that denied the access.
    Bus {
        value: Option<u32>,
        target: Target,
        denial: Option<Denial>,
    },
    /// What answered each part of a wide access, and its value where it reads.
    Parts {
        parts: Parts,
        value: Option<u64>,
    },
    /// What a look saw.
    Saw(Look),
}

impl Reply {
    /// An equal reply. It takes no memory.
    pub fn copy(&self) -> Reply
        ensures equal { result ≡ self.now }
    {
        *self
    }
}

/// One entry of a history: the processor, the number of this entry among its processor's, from 1, the event
/// and the reply.
#[derive(Clone, Copy, PartialEq, Eq, Debug)]
pub struct Entry {
    pub actor: u8,
    pub seq: u32,
    pub event: Event,
    pub reply: Reply,
}

impl Entry {
    /// An equal entry. It takes no memory.
    pub fn copy(&self) -> Entry
        ensures equal { result ≡ self.now }
    {
        *self
    }
}

/// One statement of a script: a processor and what it asks.
#[derive(Clone, Copy, PartialEq, Eq, Debug)]
pub struct Statement {
    pub actor: u8,
    pub event: Event,
}
