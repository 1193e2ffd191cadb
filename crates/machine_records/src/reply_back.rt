//! Which reply a record says.

ghost use Rattle.std.specs.Prelude.{◌≡◌};
ghost use Rattle.machine_records.specs.RepliesBack.{value_recorded, cycle_value_recorded, bus_recorded, two_parts_recorded};
ghost use Rattle.machine_records.specs.RepliesBack.{three_parts_recorded, four_parts_recorded, parts_recorded, wide_recorded};
ghost use Rattle.machine_records.specs.RepliesBack.{look_recorded, form_recorded, reply_recorded};

use crate::numbers::{BUS_REPLY, LOOK_REPLY, PARTS_REPLY};
use crate::part_back::{area_recorded, part_recorded};
use crate::reply::ReplyRecord;
use board_spec::{Look, Parts, Reply};

/// The value, where one was read.
fn value_recorded(record: &ReplyRecord) -> Option<u64>
    ensures value { result ≡ value_recorded record.now }
{
    if record.has_value == 1 {
        Some(record.value)
    } else {
        None
    }
}

/// The value of one bus cycle, where one was read. None where it does not fit 32 bits.
#[tactic(auto, unfolding(crate::specs::RepliesBack::cycle_value_recorded))]
fn cycle_value_recorded(record: &ReplyRecord) -> Option<Option<u32>>
    ensures value { result ≡ cycle_value_recorded record.now }
{
    if record.has_value != 1 {
        return Some(None);
    }
    match u32::try_from(record.value) {
        Ok(value) => Some(Some(value)),
        Err(_) => None,
    }
}

#[tactic(auto, unfolding(crate::specs::RepliesBack::bus_recorded))]
fn bus_recorded(record: &ReplyRecord) -> Option<Reply>
    ensures reply { result ≡ bus_recorded record.now }
{
    let value = cycle_value_recorded(record)?;
    let part = part_recorded(&record.part0)?;
    Some(Reply::Bus {
        value,
        target: part.target,
        denial: part.denial,
    })
}

#[tactic(auto, unfolding(crate::specs::RepliesBack::two_parts_recorded))]
fn two_parts_recorded(record: &ReplyRecord) -> Option<Parts>
    ensures parts { result ≡ two_parts_recorded record.now }
{
    let a = part_recorded(&record.part0)?;
    let b = part_recorded(&record.part1)?;
    Some(Parts::Two(a, b))
}

#[tactic(auto, unfolding(crate::specs::RepliesBack::three_parts_recorded))]
fn three_parts_recorded(record: &ReplyRecord) -> Option<Parts>
    ensures parts { result ≡ three_parts_recorded record.now }
{
    let a = part_recorded(&record.part0)?;
    let b = part_recorded(&record.part1)?;
    let c = part_recorded(&record.part2)?;
    Some(Parts::Three(a, b, c))
}

#[tactic(auto, unfolding(crate::specs::RepliesBack::four_parts_recorded))]
fn four_parts_recorded(record: &ReplyRecord) -> Option<Parts>
    ensures parts { result ≡ four_parts_recorded record.now }
{
    let a = part_recorded(&record.part0)?;
    let b = part_recorded(&record.part1)?;
    let c = part_recorded(&record.part2)?;
    let d = part_recorded(&record.part3)?;
    Some(Parts::Four(a, b, c, d))
}

/// The parts of a wide access, two to four.
#[tactic(auto, unfolding(crate::specs::RepliesBack::parts_recorded))]
fn parts_recorded(record: &ReplyRecord) -> Option<Parts>
    ensures parts { result ≡ parts_recorded record.now }
{
    match record.parts {
        2 => two_parts_recorded(record),
        3 => three_parts_recorded(record),
        4 => four_parts_recorded(record),
        _ => None,
    }
}

#[tactic(auto, unfolding(crate::specs::RepliesBack::wide_recorded))]
fn wide_recorded(record: &ReplyRecord) -> Option<Reply>
    ensures reply { result ≡ wide_recorded record.now }
{
    let parts = parts_recorded(record)?;
    Some(Reply::Parts {
        parts,
        value: value_recorded(record),
    })
}

#[tactic(auto, unfolding(crate::specs::RepliesBack::look_recorded))]
fn look_recorded(record: &ReplyRecord) -> Option<Reply>
    ensures reply { result ≡ look_recorded record.now }
{
    let area = area_recorded(&record.part0)?;
    Some(Reply::Saw(Look {
        version: record.seen,
        lo: record.lo,
        hi: record.hi,
        area,
    }))
}

/// The reply by the number of its form; one of a bus cycle and a look has one part.
#[tactic(auto, unfolding(crate::specs::RepliesBack::form_recorded))]
fn form_recorded(record: &ReplyRecord) -> Option<Reply>
    ensures reply { result ≡ form_recorded record.now }
{
    if record.form == PARTS_REPLY {
        return wide_recorded(record);
    }
    if record.parts != 1 {
        return None;
    }
    match record.form {
        BUS_REPLY => bus_recorded(record),
        LOOK_REPLY => look_recorded(record),
        _ => None,
    }
}

/// The reply that a record says. None exactly where a number of it names nothing, or does not fit where it goes. What a
/// reply has no use for is not read, nor what stands after the step.
#[tactic(auto, unfolding(crate::specs::RepliesBack::reply_recorded))]
pub fn reply_recorded(record: &ReplyRecord) -> Option<Reply>
    ensures said { result ≡ reply_recorded record.now }
{
    if record.has_value > 1 {
        return None;
    }
    form_recorded(record)
}
