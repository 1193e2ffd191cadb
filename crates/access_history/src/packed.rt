//! An entry in few bytes: its event as it is, and its reply without the parts of a wide access, which stand in a list
//! beside.

ghost use Rattle.std.specs.Prelude.{◌≡◌, ◌≤◌, ◌+◌, ◌++◌, ◌^◌, ◌<◌, length, vec_capacity};
ghost use Rattle.board_spec.specs.declared.event.Reply.TheVariants.{Parts as InParts};
ghost use Rattle.access_history.specs.Packed.{IsWithin, KeepsParts, count_of, entry_in, list_of, number_in, parts_at};
ghost use Rattle.access_history.specs.Packed.{reply_in};

use board_base::{Area, Denial, Target};
use board_spec::{Entry, Event, Look, Part, Parts, Reply};

/// How many parts a wide access has.
#[derive(Clone, Copy)]
pub(crate) enum Count {
    Two,
    Three,
    Four,
}

/// A reply in few bytes. The parts of a wide access stand in a list beside, from the place `first` on.
#[derive(Clone, Copy)]
pub(crate) enum PackedReply {
    Read {
        denial: Option<Denial>,
        target: Target,
        value: u32,
    },
    Wrote {
        denial: Option<Denial>,
        target: Target,
    },
    ReadParts {
        count: Count,
        first: u32,
        value: u64,
    },
    WroteParts {
        count: Count,
        first: u32,
    },
    Saw {
        area: Area,
        version: u32,
        lo: u32,
        hi: u32,
    },
}

/// An entry in few bytes.
#[derive(Clone, Copy)]
pub(crate) struct PackedEntry {
    pub event: Event,
    pub reply: PackedReply,
    pub seq: u32,
    pub actor: u8,
}

/// Adds the parts of a wide access to a list, in the room that it has, and says how many they are.
fn keep_parts(list: &mut Vec<Part>, parts: &Parts) -> Count
    requires room { length list.old.items + 4 ≤ vec_capacity list.old }
    ensures count { result ≡ count_of parts.now }
    ensures kept { list.new.items ≡ list.old.items ++ list_of parts.now }
    ensures capacity { vec_capacity list.old ≤ vec_capacity list.new }
{
    match *parts {
        Parts::Two(first, second) => {
            list.extend_from_slice(&[first, second]).unwrap();
            Count::Two
        }
        Parts::Three(first, second, third) => {
            list.extend_from_slice(&[first, second, third]).unwrap();
            Count::Three
        }
        Parts::Four(first, second, third, fourth) => {
            list.extend_from_slice(&[first, second, third, fourth])
                .unwrap();
            Count::Four
        }
    }
}

/// As many parts of a list as are counted, from the place `first` on.
fn parts_at(list: &[Part], count: Count, first: u32) -> Parts
    requires within { first + number_in count ≤ length list.now }
    ensures parts { result ≡ parts_at list.now count first }
{
    let first = first as usize;
    match count {
        Count::Two => Parts::Two(list[first], list[first + 1]),
        Count::Three => Parts::Three(list[first], list[first + 1], list[first + 2]),
        Count::Four => Parts::Four(
            list[first],
            list[first + 1],
            list[first + 2],
            list[first + 3],
        ),
    }
}

impl PackedReply {
    /// A reply in few bytes. Its parts are added to the list, in the room that it has.
    fn keep(list: &mut Vec<Part>, reply: &Reply) -> PackedReply
        requires room { length list.old.items + 4 ≤ vec_capacity list.old }
        requires few { length list.old.items < 2 ^ 32 }
        ensures reply { reply_in list.new.items result ≡ reply.now }
        ensures kept { KeepsParts list.old.items list.new.items result }
        ensures capacity { vec_capacity list.old ≤ vec_capacity list.new }
    {
        match *reply {
            Reply::Bus {
                value: Some(value),
                target,
                denial,
            } => PackedReply::Read {
                denial,
                target,
                value,
            },
            Reply::Bus {
                value: None,
                target,
                denial,
            } => PackedReply::Wrote { denial, target },
            Reply::Parts { parts, value } => PackedReply::keep_wide(list, &parts, value),
            Reply::Saw(
                Look {
                    version,
                    lo,
                    hi,
                    area,
                },
            ) => PackedReply::Saw {
                area,
                version,
                lo,
                hi,
            },
        }
    }

    /// The reply to a wide access in few bytes. Its parts are added to the list, in the room that it has.
    fn keep_wide(list: &mut Vec<Part>, parts: &Parts, value: Option<u64>) -> PackedReply
        requires room { length list.old.items + 4 ≤ vec_capacity list.old }
        requires few { length list.old.items < 2 ^ 32 }
        ensures reply { reply_in list.new.items result ≡ InParts parts.now value }
        ensures kept { KeepsParts list.old.items list.new.items result }
        ensures capacity { vec_capacity list.old ≤ vec_capacity list.new }
    {
        let first = list.len() as u32;
        let count = keep_parts(list, parts);
        match value {
            Some(value) => PackedReply::ReadParts {
                count,
                first,
                value,
            },
            None => PackedReply::WroteParts { count, first },
        }
    }

    /// The reply itself, whose parts stand in the list.
    fn reply(self, list: &[Part]) -> Reply
        requires within { IsWithin (length list.now) self }
        ensures reply { result ≡ reply_in list.now self }
    {
        match self {
            PackedReply::Read {
                denial,
                target,
                value,
            } => Reply::Bus {
                value: Some(value),
                target,
                denial,
            },
            PackedReply::Wrote { denial, target } => Reply::Bus {
                value: None,
                target,
                denial,
            },
            PackedReply::ReadParts {
                count,
                first,
                value,
            } => Reply::Parts {
                parts: parts_at(list, count, first),
                value: Some(value),
            },
            PackedReply::WroteParts { count, first } => Reply::Parts {
                parts: parts_at(list, count, first),
                value: None,
            },
            PackedReply::Saw {
                area,
                version,
                lo,
                hi,
            } => Reply::Saw(Look {
                version,
                lo,
                hi,
                area,
            }),
        }
    }
}

impl PackedEntry {
    /// An entry in few bytes. The parts of its reply are added to the list, in the room that it has.
    #[inline(always)]
    pub(crate) fn keep(
        list: &mut Vec<Part>,
        actor: u8,
        seq: u32,
        event: &Event,
        reply: &Reply,
    ) -> PackedEntry
        requires room { length list.old.items + 4 ≤ vec_capacity list.old }
        requires few { length list.old.items < 2 ^ 32 }
        ensures entry { entry_in list.new.items result
            ≡ record { actor = actor; seq = seq; event = event.now; reply = reply.now } }
        ensures kept { KeepsParts list.old.items list.new.items result.reply }
        ensures capacity { vec_capacity list.old ≤ vec_capacity list.new }
    {
        PackedEntry {
            event: *event,
            reply: PackedReply::keep(list, reply),
            seq,
            actor,
        }
    }

    /// The entry itself. The parts of its reply stand in the list.
    pub(crate) fn entry(self, list: &[Part]) -> Entry
        requires within { IsWithin (length list.now) self.reply }
        ensures entry { result ≡ entry_in list.now self }
    {
        Entry {
            actor: self.actor,
            seq: self.seq,
            event: self.event,
            reply: self.reply.reply(list),
        }
    }
}
