//! Interrupt acknowledges, and what happens outside the bus: pulses, the clock's time, interrupt lines, bad sectors.

ghost use Rattle.std.specs.Prelude.{◌≡◌, ℕ, List, ◌∷◌, None};
ghost use Rattle.board_prelude.specs.{Device, Bus, Entry, Setup, IsAnswer};
ghost use Rattle.board_chipset.specs.BusReplies.{reply_of};
ghost use Rattle.board_chipset.specs.Held.{IsByDevice};
ghost use Rattle.board_chipset.specs.Kept.{CanDo, IsStateOf, StaysSound};
ghost use Rattle.board_chipset.specs.Steps.{IsForDevices};

use crate::bus_reply::BusReply;
use crate::state::State;
use board_base::{Dev, Target};
use board_spec::Event;

/// Does an event that only the devices have a part in, and returns the reply.
#[tactic(auto, using(crate::proofs::StateSteps::sound_devices))]
pub fn answer(state: &mut State, event: &Event) -> BusReply
    requires devices { IsForDevices event.now }
    requires in_range { (rom : List ℕ) × CanDo state.old rom event.now }
    ensures sound { StaysSound state.old state.new }
    ensures answer { (setup : Setup) (history : List Entry) → IsStateOf setup history state.old
        → IsAnswer setup history event.now (reply_of result) }
    ensures board { (setup : Setup) (history : List Entry) (entry : Entry) → IsStateOf setup history state.old
        → entry.event ≡ event.now → IsStateOf setup (entry ∷ history) state.new }
    ensures held { IsByDevice event.now (reply_of result) }
{
    let routes = &state.registers.south.routes;
    let devices = &mut state.devices;
    match event {
        Event::Ack => {
            let (vector, dev) = devices.acknowledge(routes);
            answered(Some(u32::from(vector)), dev)
        }
        Event::Time(moment) => {
            devices.moment(routes, *moment);
            answered(None, Dev::Clock)
        }
        _ => match event.applied() {
            Some(said) => {
                devices.apply(routes, said.stimulus, said.number, said.on);
                answered(None, said.stimulus.answers())
            }
            None => unreachable!(),
        },
    }
}

/// The reply of a device, with the value that it gave, if it gave one.
fn answered(value: Option<u32>, dev: Dev) -> BusReply
    ensures reply { reply_of result ≡ Bus value (Device dev) None }
{
    BusReply {
        value,
        target: Target::Device(dev),
        denial: None,
    }
}
