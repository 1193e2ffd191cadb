//! One second of the clock.

ghost use Rattle.std.specs.Prelude.{◌≡◌, Some};
ghost use Rattle.board_prelude.specs.{IsMoment, Time};
ghost use Rattle.uart_16550.specs.declared.com1.Happening.TheVariants.{Happens};
ghost use Rattle.machine_records.specs.Events.{asked_said};
ghost use Rattle.machine_records.specs.Seconds.{IsSecondStep, HasNoSecond};
ghost use Rattle.machine_records.specs.Statuses.{IsOutcome, no_time};

use crate::asked_step::happened;
use crate::event::EventRecord;
use crate::lines::lines_of;
use crate::numbers::TIME_EVENT;
use crate::reply::ReplyRecord;
use crate::status::{NO_TIME, OK};
use crate::step_lines::tell_lines;
use board_base::Moment;
use board_chipset::Chipset;
use board_spec::Event;
use uart_16550::SerialBoard;

/// Lets the clock go on one second from what it shows, and writes the event by which it does and the reply. Refused with
/// `NO_TIME` where SET holds its time, or its registers say no moment; then nothing has changed.
#[tactic(auto, using(crate::proofs::FittedSteps::second_told))]
pub fn second(
    serial: &mut SerialBoard<Chipset>,
    event: &mut EventRecord,
    reply: &mut ReplyRecord,
) -> u32
    ensures outcome { IsOutcome result (IsSecondStep serial.old serial.new event.new reply.new)
        ((result ≡ no_time) × HasNoSecond serial.old.board)
        ((serial.new ≡ serial.old) × (event.new ≡ event.old) × (reply.new ≡ reply.old)) }
{
    let Some(next) = serial.board().clock().next_second() else {
        return NO_TIME;
    };
    let before = lines_of(serial.board());
    happened(serial, &Event::Time(next), reply);
    tell_lines(reply, serial.board(), before, false, OK);
    *event = time_record(next);
    OK
}

/// The record that says a moment: its year, month, day, hour, minute and second as digits.
#[tactic(auto, using(crate::proofs::Digits::time_said))]
fn time_record(moment: Moment) -> EventRecord
    requires moment { IsMoment moment }
    ensures said { asked_said result ≡ Some (Happens (Time moment)) }
{
    let date = (u64::from(moment.year) * 100 + u64::from(moment.month)) * 100
        + u64::from(moment.day);
    let time = (u64::from(moment.hour) * 100 + u64::from(moment.minute)) * 100
        + u64::from(moment.second);
    EventRecord {
        value: date * 1_000_000 + time,
        addr: 0,
        what: TIME_EVENT,
        kind: 0,
        bytes: 0,
        smm: 0,
        reserved: 0,
    }
}
