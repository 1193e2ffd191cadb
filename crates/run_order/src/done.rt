//! What a processor did at one of its statements.

use board_base::Kind;
use board_spec::{Event, Look};

/// A statement of a processor's in a phase of `run`, as it was done.
#[derive(Clone, Copy, PartialEq, Eq, Debug)]
pub enum Done {
    /// It went through the bus turn. The version is that of the address map after it.
    Went {
        version: u32,
        event: Event,
    },
    /// It looked at the published map, and saw this.
    Looked {
        kind: Kind,
        addr: u32,
        smm: bool,
        look: Look,
    },
}
