//! Accesses at ports.

ghost use Rattle.std.specs.Prelude.{◌≡◌, ℕ, true, false, List, ◌∷◌, Some, None, if◌then◌else◌, is_some};
ghost use Rattle.board_prelude.specs.{Entry, Port, Reg, Device, Config, Abort, Setup, IsBusAccess, port_answer};
ghost use Rattle.board_prelude.specs.{port_value, value_at, Bytes};
ghost use Rattle.board_base.specs.declared.target.Dev.TheVariants.{Reset};
ghost use Rattle.addr_decode.specs.Found.{HasRegister};
ghost use Rattle.addr_decode.specs.Ports.{as_decoded};
ghost use Rattle.board_chipset.specs.BusReplies.{reply_of};
ghost use Rattle.config_regs.specs.Config.{AreKeptOf};
ghost use Rattle.board_chipset.specs.Held.{part_told, port_part_in};
ghost use Rattle.board_chipset.specs.Kept.{IsState, IsStateOf, StaysSound};
ghost use Rattle.board_chipset.specs.Ports.{IsEntryOf, Reaching, reached};

use crate::bus_reply::BusReply;
use crate::state::State;
use addr_decode::{ConfigRegister, Found};
use board_base::{Denial, Dev, PortAccess, Target};

/// Does an access at a port, and returns the reply: the value where it reads, what answered, and what denied it.
#[inline(always)]
pub fn access(state: &mut State, access: &PortAccess) -> BusReply
    requires bus { IsBusAccess access.now.write access.now.port access.now.width access.now.value }
    requires kept { (rom : List ℕ) × IsState state.old rom }
    ensures sound { StaysSound state.old state.new }
    ensures answer { (setup : Setup) (history : List Entry) → IsStateOf setup history state.old
        → reply_of result ≡ port_answer setup history access.now }
    ensures board { (setup : Setup) (history : List Entry) (entry : Entry) → IsStateOf setup history state.old
        → entry.event ≡ Port access.now → entry.reply ≡ reply_of result → IsStateOf setup (entry ∷ history) state.new }
    ensures held { (setup : Setup) (bytes : Bytes)
        → AreKeptOf setup bytes state.old.registers.map.regs state.old.registers.south
        → is_some setup.disk ≡ is_some state.old.devices.disk
        → part_told result ≡ port_part_in setup bytes state.old.registers.address access.now }
{
    let disk = state.devices.has_disk();
    match state.registers.find_port(access.port, access.width, disk) {
        Found::Device(dev) => at_device(state, dev, access),
        Found::Register(register) => at_register(state, &register, access),
        Found::Card(dev, base, offset) => {
            at_card(state, Target::Card(dev, base, offset), access)
        }
        Found::Nobody(denial) => at_nobody(state, denial, access),
    }
}

/// Does an access at a port that reaches a device.
#[tactic(auto, unfolding(board_spec::specs::Answer::port_answer))]
#[inline(always)]
fn at_device(state: &mut State, dev: Dev, access: &PortAccess) -> BusReply
    requires reaching { Reaching state.old access.now (Device dev) }
    ensures sound { StaysSound state.old state.new }
    ensures answer { (setup : Setup) (history : List Entry) → IsStateOf setup history state.old
        → as_decoded (Device dev, None) ≡ reached setup history access.now
        → reply_of result ≡ port_answer setup history access.now }
    ensures board { (setup : Setup) (history : List Entry) (entry : Entry) → IsStateOf setup history state.old
        → as_decoded (Device dev, None) ≡ reached setup history access.now
        → entry.event ≡ Port access.now → entry.reply ≡ reply_of result → IsStateOf setup (entry ∷ history) state.new }
    ensures told { part_told result ≡ record { target = Device dev; denial = None } }
{
    BusReply {
        value: device_value(state, dev, access),
        target: Target::Device(dev),
        denial: None,
    }
}

/// The value of an access at a port that reaches a device. None where it writes.
#[tactic(auto, using(std::proofs::lemmas::Bool::Decides::nat_tests))]
fn device_value(state: &mut State, dev: Dev, access: &PortAccess) -> Option<u32>
    requires reaching { Reaching state.old access.now (Device dev) }
    ensures sound { StaysSound state.old state.new }
    ensures value { (setup : Setup) (history : List Entry) → IsStateOf setup history state.old
        → Device dev ≡ (reached setup history access.now).target → result ≡ (if access.now.write then None
        else Some (value_at setup history (Device dev) access.now.port access.now.width)) }
    ensures board { (setup : Setup) (history : List Entry) (entry : Entry) → IsStateOf setup history state.old
        → IsEntryOf setup history access.now (Device dev) entry → IsStateOf setup (entry ∷ history) state.new }
{
    if access.write {
        write_device(state, dev, access);
        return None;
    }
    Some(read_device(state, dev, access))
}

/// Does an access at a port that reaches a register in configuration space, which its function has.
#[tactic(auto, unfolding(board_spec::specs::Answer::port_answer))]
#[inline(always)]
fn at_register(state: &mut State, register: &ConfigRegister, access: &PortAccess) -> BusReply
    requires reaching { Reaching state.old access.now (Config register.now.reg) }
    requires function { HasRegister state.old.registers.map.regs.cards register.now.function register.now.reg }
    ensures sound { StaysSound state.old state.new }
    ensures answer { (setup : Setup) (history : List Entry) → IsStateOf setup history state.old
        → as_decoded (Config register.now.reg, None) ≡ reached setup history access.now
        → reply_of result ≡ port_answer setup history access.now }
    ensures board { (setup : Setup) (history : List Entry) (entry : Entry) → IsStateOf setup history state.old
        → as_decoded (Config register.now.reg, None) ≡ reached setup history access.now
        → entry.event ≡ Port access.now → entry.reply ≡ reply_of result → IsStateOf setup (entry ∷ history) state.new }
    ensures told { part_told result ≡ record { target = Config register.now.reg; denial = None } }
{
    BusReply {
        value: register_value(state, register, access),
        target: Target::Config(register.reg),
        denial: None,
    }
}

/// The value of an access at a port that reaches a register. None where it writes.
#[tactic(auto, using(std::proofs::lemmas::Bool::Decides::nat_tests))]
fn register_value(state: &mut State, register: &ConfigRegister, access: &PortAccess) -> Option<u32>
    requires reaching { Reaching state.old access.now (Config register.now.reg) }
    requires function { HasRegister state.old.registers.map.regs.cards register.now.function register.now.reg }
    ensures sound { StaysSound state.old state.new }
    ensures value { (setup : Setup) (history : List Entry) → IsStateOf setup history state.old
        → Config register.now.reg ≡ (reached setup history access.now).target → result ≡ (if access.now.write then None
        else Some (value_at setup history (Config register.now.reg) access.now.port access.now.width)) }
    ensures board { (setup : Setup) (history : List Entry) (entry : Entry) → IsStateOf setup history state.old
        → IsEntryOf setup history access.now (Config register.now.reg) entry
        → IsStateOf setup (entry ∷ history) state.new }
{
    if access.write {
        write_register(state, register, access);
        return None;
    }
    Some(state.registers.read(register, access.width))
}

/// Does an access at a port that reaches a base of a card.
#[tactic(auto, unfolding(board_spec::specs::Answer::port_answer))]
fn at_card(state: &mut State, target: Target, access: &PortAccess) -> BusReply
    requires reaching { Reaching state.old access.now (target) }
    requires device { (dev : Dev) → target ≡ Device dev → ⊥ }
    requires register { (reg : Reg) → target ≡ Config reg → ⊥ }
    ensures sound { StaysSound state.old state.new }
    ensures answer { (setup : Setup) (history : List Entry) → IsStateOf setup history state.old
        → as_decoded (target, None) ≡ reached setup history access.now
        → reply_of result ≡ port_answer setup history access.now }
    ensures board { (setup : Setup) (history : List Entry) (entry : Entry) → IsStateOf setup history state.old
        → as_decoded (target, None) ≡ reached setup history access.now
        → entry.event ≡ Port access.now → entry.reply ≡ reply_of result → IsStateOf setup (entry ∷ history) state.new }
    ensures told { part_told result ≡ record { target = target; denial = None } }
{
    BusReply {
        value: stored_value(state, target, access),
        target: target,
        denial: None,
    }
}

/// Does an access at a port that reaches nobody.
#[tactic(auto, unfolding(board_spec::specs::Answer::port_answer))]
fn at_nobody(state: &mut State, denial: Denial, access: &PortAccess) -> BusReply
    requires reaching { Reaching state.old access.now (Abort) }
    ensures sound { StaysSound state.old state.new }
    ensures answer { (setup : Setup) (history : List Entry) → IsStateOf setup history state.old
        → as_decoded (Abort, Some denial) ≡ reached setup history access.now
        → reply_of result ≡ port_answer setup history access.now }
    ensures board { (setup : Setup) (history : List Entry) (entry : Entry) → IsStateOf setup history state.old
        → as_decoded (Abort, Some denial) ≡ reached setup history access.now
        → entry.event ≡ Port access.now → entry.reply ≡ reply_of result → IsStateOf setup (entry ∷ history) state.new }
    ensures told { part_told result ≡ record { target = Abort; denial = Some denial } }
{
    BusReply {
        value: stored_value(state, Target::Abort, access),
        target: Target::Abort,
        denial: Some(denial),
    }
}

/// The value of an access at a port that reaches a base of a card or nobody. None where it writes.
#[tactic(auto, using(std::proofs::lemmas::Bool::Decides::nat_tests))]
fn stored_value(state: &mut State, target: Target, access: &PortAccess) -> Option<u32>
    requires reaching { Reaching state.old access.now (target) }
    requires device { (dev : Dev) → target ≡ Device dev → ⊥ }
    requires register { (reg : Reg) → target ≡ Config reg → ⊥ }
    ensures sound { StaysSound state.old state.new }
    ensures value { (setup : Setup) (history : List Entry) → IsStateOf setup history state.old
        → target ≡ (reached setup history access.now).target → result ≡ (if access.now.write then None
        else Some (value_at setup history (target) access.now.port access.now.width)) }
    ensures board { (setup : Setup) (history : List Entry) (entry : Entry) → IsStateOf setup history state.old
        → IsEntryOf setup history access.now (target) entry → IsStateOf setup (entry ∷ history) state.new }
{
    if access.write {
        write(state, target, access);
        return None;
    }
    Some(read(state, target, access))
}

/// The value of a read at a port that `target` answers. The read can change a device.
#[tactic(auto, using(crate::proofs::HeldTargets::stored_in, std::proofs::lemmas::Bool::Decides::nat_tests))]
fn read(state: &mut State, target: Target, access: &PortAccess) -> u32
    requires reaching { Reaching state.old access.now target }
    requires device { (dev : Dev) → target ≡ Device dev → ⊥ }
    requires register { (reg : Reg) → target ≡ Config reg → ⊥ }
    requires reads { access.now.write ≡ false }
    ensures sound { StaysSound state.old state.new }
    ensures value { (setup : Setup) (history : List Entry) → IsStateOf setup history state.old
        → target ≡ (reached setup history access.now).target
        → result ≡ value_at setup history target access.now.port access.now.width }
    ensures board { (setup : Setup) (history : List Entry) (entry : Entry) → IsStateOf setup history state.old
        → IsEntryOf setup history access.now target entry → IsStateOf setup (entry ∷ history) state.new }
{
    state
        .stores
        .read(target, u32::from(access.port), access.width)
}

/// The value of a read of a device's port.
#[tactic(auto, using(crate::proofs::PortSteps::chip_value, crate::proofs::StateSteps::sound_devices))]
fn read_device(state: &mut State, dev: Dev, access: &PortAccess) -> u32
    requires reaching { Reaching state.old access.now (Device dev) }
    requires reads { access.now.write ≡ false }
    ensures sound { StaysSound state.old state.new }
    ensures value { (setup : Setup) (history : List Entry) → IsStateOf setup history state.old
        → result ≡ port_value setup history dev access.now.port access.now.width }
    ensures board { (setup : Setup) (history : List Entry) (entry : Entry) → IsStateOf setup history state.old
        → IsEntryOf setup history access.now (Device dev) entry → IsStateOf setup (entry ∷ history) state.new }
{
    match dev {
        Dev::Confadd => state.registers.address.read(),
        Dev::Reset => u32::from(state.registers.control.read()),
        _ => state
            .devices
            .read(&state.registers.south.routes, dev, access),
    }
}

/// Does a write at a port that `target` answers.
#[tactic(auto, using(crate::proofs::HeldTargets::write_rules))]
fn write(state: &mut State, target: Target, access: &PortAccess)
    requires reaching { Reaching state.old access.now target }
    requires device { (dev : Dev) → target ≡ Device dev → ⊥ }
    requires register { (reg : Reg) → target ≡ Config reg → ⊥ }
    requires writes { access.now.write ≡ true }
    ensures sound { StaysSound state.old state.new }
    ensures board { (setup : Setup) (history : List Entry) (entry : Entry) → IsStateOf setup history state.old
        → IsEntryOf setup history access.now target entry → IsStateOf setup (entry ∷ history) state.new }
{
    state
        .stores
        .write(target, u32::from(access.port), access.width, access.value);
}

/// Writes a register in configuration space. The PIRQRC registers of the 82371SB route the PCI interrupts, so after a
/// write to the 82371SB the interrupt lines are set anew.
#[tactic(auto, using(crate::proofs::StateSteps::sound_changed))]
fn write_register(state: &mut State, register: &ConfigRegister, access: &PortAccess)
    requires reaching { Reaching state.old access.now (Config register.now.reg) }
    requires function { HasRegister state.old.registers.map.regs.cards register.now.function register.now.reg }
    requires writes { access.now.write ≡ true }
    ensures sound { StaysSound state.old state.new }
    ensures board { (setup : Setup) (history : List Entry) (entry : Entry) → IsStateOf setup history state.old
        → IsEntryOf setup history access.now (Config register.now.reg) entry
        → IsStateOf setup (entry ∷ history) state.new }
{
    if state.registers.store(register, access.width, access.value) {
        state.devices.reroute(&state.registers.south.routes);
    }
}

/// Writes a port of a device.
#[tactic(auto, using(crate::proofs::StateSteps::sound_changed))]
fn write_device(state: &mut State, dev: Dev, access: &PortAccess)
    requires reaching { Reaching state.old access.now (Device dev) }
    requires writes { access.now.write ≡ true }
    ensures sound { StaysSound state.old state.new }
    ensures board { (setup : Setup) (history : List Entry) (entry : Entry) → IsStateOf setup history state.old
        → IsEntryOf setup history access.now (Device dev) entry → IsStateOf setup (entry ∷ history) state.new }
{
    match dev {
        Dev::Confadd => state.registers.write_address(access.value),
        Dev::Reset => write_control(state, access),
        _ => state
            .devices
            .write(&state.registers.south.routes, dev, access),
    }
}

/// Writes reset control. A hard reset resets the registers, and then the devices.
#[tactic(auto, using(crate::proofs::StateSteps::sound_changed))]
fn write_control(state: &mut State, access: &PortAccess)
    requires reaching { Reaching state.old access.now (Device Reset) }
    requires writes { access.now.write ≡ true }
    ensures sound { StaysSound state.old state.new }
    ensures board { (setup : Setup) (history : List Entry) (entry : Entry) → IsStateOf setup history state.old
        → IsEntryOf setup history access.now (Device Reset) entry → IsStateOf setup (entry ∷ history) state.new }
{
    if state.registers.write_control(access.value as u8) {
        state.devices.reset(&state.registers.south.routes);
    }
}
