//! The published map: it is changed, and a viewer sees the change.

use crate::map::{SHADOW_BIOS, after_reset};
use board_base::{Kind, NoMemory};
use board_spec::Look;
use map_publish::open;
use std::alloc::Global;
use std::sync::Wait;

/// Opens a shadow window in a map that one viewer looks at, and gives what it sees at F0000h then. It may wait.
pub fn seen<R: Wait>(rt: &R, alloc: Global) -> Result<Look, NoMemory> {
    let (mut publisher, mut viewers) = open(rt, alloc, after_reset(), 1)?;
    let changed = publisher.change(rt, &SHADOW_BIOS);
    let look = viewers.pop().unwrap().look(0xF_0000, Kind::Read, false);
    publisher.close(rt);
    match changed {
        Ok(()) => Ok(look),
        Err(NoMemory) => Err(NoMemory),
    }
}
