//! The ports of the 82371SB and of the cards: what an access to a port reaches, and what denies it.
ghost use Rattle.std.specs.Prelude.{◌≡◌, ◌%◌, ◌^◌, IsTrue, IfSome, option_map, unwrap_or, if◌then◌else◌};
ghost use Rattle.board_prelude.specs.{Setup, function_exists, kept_address, config_register, is_config_port, Bytes};
ghost use Rattle.board_prelude.specs.{command_of, io_claim, io_shut, nobody, port_target_of, config_port, unselected};
ghost use Rattle.board_prelude.specs.{other_port};
ghost use Rattle.pci_bars.specs.Cards.{AreCards, AreDecoded, AreFitted};
ghost use Rattle.addr_decode.specs.Found.{IsFoundIn, decoded_as, register_answers};
ghost use Rattle.addr_decode.specs.MapRegs.{IsChannelOf, StandsFor, map_bytes};
ghost use Rattle.addr_decode.specs.Ports.{as_decoded, IsDenied};

use crate::conf_add::{Selected, kept, select};
use crate::denied_by::card_command;
use crate::found::{ConfigRegister, Found, function_of};
use crate::onboard::{Onboard, onboard_at};
use crate::regs::MapRegs;
use crate::singles::chip_selects;
use board_base::{Denial, Target, Width};
use device_spec::port::{CONFIG_DATA, CONFIG_DATA_END};
use pci_bars::{CardRegs, claim_io, offset_in, shut_io};

/// What the ports depend on beside the registers of the address map: the configuration address, of which the
/// bits that it does not keep do not count, the command and the timing of the IDE function, and whether a
/// disk is fitted.
#[derive(Clone, Copy)]
pub struct PortRegs {
    pub confadd: u32,
    pub ide_command: u8,
    pub idetim: u16,
    pub disk: bool,
}

/// What a port access reaches, and what denies it: None exactly where something answers.
pub fn decode_port(
    regs: &MapRegs,
    ports: &PortRegs,
    port: u16,
    width: Width,
) -> (Target, Option<Denial>)
    requires cards { AreFitted regs.now.cards.items }
    ensures decoded { (setup : Setup) (bytes : Bytes) → StandsFor setup bytes (map_bytes regs.now)
        → IsChannelOf bytes ports.now.ide_command ports.now.idetim
        → as_decoded result ≡ port_target_of setup bytes (kept_address ports.now.confadd) ports.now.disk port width }
    ensures denied { IsDenied result }
{
    let found = find_port(regs, ports, port, width);
    (found.target(), found.denial())
}

/// What a port access finds. A register in configuration space comes with the function that has it.
#[inline(always)]
pub fn find_port(regs: &MapRegs, ports: &PortRegs, port: u16, width: Width) -> Found
    requires cards { AreFitted regs.now.cards.items }
    ensures decoded { (setup : Setup) (bytes : Bytes) → StandsFor setup bytes (map_bytes regs.now)
        → IsChannelOf bytes ports.now.ide_command ports.now.idetim
        → decoded_as result ≡ port_target_of setup bytes (kept_address ports.now.confadd) ports.now.disk port width }
    ensures found { IsFoundIn regs.now.cards.items result }
{
    if is_config_data(port) {
        return config_port(&regs.cards, ports.confadd, port);
    }
    match onboard_at(chip_selects(&regs.singles), ports, port, width) {
        Onboard::Answers(dev) => Found::Device(dev),
        Onboard::Denied(denial) => claimed_or(&regs.cards, port, denial),
        Onboard::Absent => other_port(&regs.cards, port),
    }
}

/// Whether a port is one of those of the configuration data.
fn is_config_data(port: u16) -> bool
    ensures data { result ≡ is_config_port port }
{
    CONFIG_DATA <= port && port <= CONFIG_DATA_END
}

/// What an access to the configuration data finds.
fn config_port(cards: &[CardRegs], confadd: u32, port: u16) -> Found
    requires { IsTrue (is_config_port port) }
    ensures decoded { (setup : Setup) (bytes : Bytes) → AreDecoded setup bytes cards.now
        → decoded_as result ≡ config_port (kept_address confadd) (config_register setup (kept_address confadd) port) }
    ensures found { IsFoundIn cards.now result }
{
    match select(kept(confadd), port) {
        Some(selected) => selected_port(cards, selected),
        None => Found::Nobody(Denial::Confadd),
    }
}

/// What an access to the selected register finds: the register, where its bus is 0 and its function exists.
fn selected_port(cards: &[CardRegs], selected: Selected) -> Found
    ensures decoded { (setup : Setup) (bytes : Bytes) → AreDecoded setup bytes cards.now
        → decoded_as result ≡ (if function_exists setup selected.bus selected.reg.dev selected.reg.fun
        then register_answers selected.reg else nobody Denial.NoRegister) }
    ensures found { IsFoundIn cards.now result }
{
    if selected.bus != 0 {
        return Found::Nobody(Denial::NoRegister);
    }
    let reg = selected.reg;
    match function_of(cards, reg) {
        Some(function) => Found::Register(ConfigRegister { reg, function }),
        None => Found::Nobody(Denial::NoRegister),
    }
}

/// What a card answers at a port: the first whose enabled base covers it, at its place there. None where none does.
fn claim(cards: &[CardRegs], port: u16) -> Option<Found>
    requires cards { AreCards cards.now }
    ensures claim { (setup : Setup) (bytes : Bytes) → AreDecoded setup bytes cards.now
        → result ≡ option_map (λ window. Found.Card window.dev window.base (port % 2 ^ window.bits))
        (io_claim setup bytes port) }
    ensures found { IfSome result (IsFoundIn cards.now) }
{
    match claim_io(cards, port) {
        Some((dev, base)) => Some(Found::Card(dev, base, offset_in(cards, dev, base, port.into()))),
        None => None,
    }
}

/// The card that claims a port, or else this denial.
fn claimed_or(cards: &[CardRegs], port: u16, denial: Denial) -> Found
    requires cards { AreCards cards.now }
    ensures decoded { (setup : Setup) (bytes : Bytes) → AreDecoded setup bytes cards.now
        → decoded_as result ≡ unselected setup bytes port denial }
    ensures found { IsFoundIn cards.now result }
{
    match claim(cards, port) {
        Some(found) => found,
        None => Found::Nobody(denial),
    }
}

/// The card that claims a port of none of the board's own devices, or else the denial by the first that would if it
/// were enabled.
fn other_port(cards: &[CardRegs], port: u16) -> Found
    requires cards { AreCards cards.now }
    ensures decoded { (setup : Setup) (bytes : Bytes) → AreDecoded setup bytes cards.now
        → decoded_as result ≡ other_port setup bytes port }
    ensures found { IsFoundIn cards.now result }
{
    match claim(cards, port) {
        Some(found) => found,
        None => Found::Nobody(shut_denial(cards, port)),
    }
}

/// What denies a port that nobody claims: the command of the first card that would if it were enabled.
fn shut_denial(cards: &[CardRegs], port: u16) -> Denial
    requires cards { AreCards cards.now }
    ensures denial { (setup : Setup) (bytes : Bytes) → AreDecoded setup bytes cards.now
        → result ≡ unwrap_or (option_map command_of (io_shut setup bytes port)) Denial.NoRegister }
{
    match shut_io(cards, port) {
        Some(dev) => card_command(dev),
        None => Denial::NoRegister,
    }
}
