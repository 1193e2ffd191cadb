//! The replies to accesses, apart from those to other events.

ghost use Rattle.std.specs.Prelude.{◌≡◌};
ghost use Rattle.board_chipset.specs.BusReplies.{reply_of, wide_reply_of};

use board_base::{Denial, Target};
use board_spec::{Parts, Reply};

/// The reply to one bus cycle: the value where it reads, what answered, and what denied it. It is what `Reply::Bus`
/// has, in a third of the bytes.
#[derive(Clone, Copy, PartialEq, Eq, Debug)]
pub struct BusReply {
    pub value: Option<u32>,
    pub target: Target,
    pub denial: Option<Denial>,
}

impl BusReply {
    /// The same as a reply to an event.
    pub fn reply(self) -> Reply
        ensures reply { result ≡ reply_of self }
    {
        Reply::Bus {
            value: self.value,
            target: self.target,
            denial: self.denial,
        }
    }
}

/// The reply to a wide access: the value where it reads, and of each part what answered and what denied it.
#[derive(Clone, Copy, PartialEq, Eq, Debug)]
pub struct WideReply {
    pub value: Option<u64>,
    pub parts: Parts,
}

impl WideReply {
    /// The same as a reply to an event.
    pub fn reply(self) -> Reply
        ensures reply { result ≡ wide_reply_of self }
    {
        Reply::Parts {
            parts: self.parts,
            value: self.value,
        }
    }
}
