//! Reads of registers in configuration space, by function and then by offset.
ghost use Rattle.std.specs.Prelude.{◌≡◌, ◌≢◌, ◌+◌, ◌≤◌, ◌==◌, Some, true};
ghost use Rattle.board_prelude.specs.{bytes_of, Setup, position, wide, bridge, isa, card_register, xbcs};
ghost use Rattle.board_prelude.specs.{function_exists, Bytes};
ghost use Rattle.pci_bars.specs.Cards.{AreCards, AreCardsOf, AreFitted};
ghost use Rattle.addr_decode.specs.Found.{HasRegister};
ghost use Rattle.addr_decode.specs.MapRegs.{StandsFor, map_bytes};
ghost use Rattle.config_regs.specs.Config.{AreKeptOf, HasFixed, IsSouthOf};

use crate::south::South;
use addr_decode::{ConfigRegister, Function, MapRegs, chip_selects, function_of};
use board_base::{Reg, Width};
use board_spec::offset::{HOST_BRIDGE, PIRQRCA, PIRQRCD, XBCS};
use board_spec::wide::read_at;
use pci_bars::CardRegs;

/// The bytes from a register on of a function that exists, the first in the low bits.
pub fn read(regs: &MapRegs, south: &South, reg: Reg, width: Width) -> u32
    requires within { reg.off + bytes_of width ≤ 0x100 }
    requires cards { AreFitted regs.now.cards.items }
    ensures value { (setup : Setup) (bytes : Bytes) → AreKeptOf setup bytes (map_bytes regs.now) south.now
        → HasFixed setup bytes → function_exists setup 0 reg.dev reg.fun ≡ true
        → result ≡ wide (λ off. bytes (record reg { off = off })) reg.off width }
{
    match function_of(&regs.cards, reg) {
        Some(function) => read_from(regs, south, &ConfigRegister { reg, function }, width),
        None => 0,
    }
}

/// The bytes from a register on of the function that has it, the first in the low bits.
pub fn read_from(regs: &MapRegs, south: &South, register: &ConfigRegister, width: Width) -> u32
    requires within { register.now.reg.off + bytes_of width ≤ 0x100 }
    requires cards { AreFitted regs.now.cards.items }
    requires function { HasRegister regs.now.cards.items register.now.function register.now.reg }
    ensures value { (setup : Setup) (bytes : Bytes) → AreKeptOf setup bytes (map_bytes regs.now) south.now
        → HasFixed setup bytes
        → result ≡ wide (λ off. bytes (record register.now.reg { off = off })) register.now.reg.off width }
{
    let mut bytes = [0; 4];
    for index in 0..width.bytes() as u8 {
        let off = register.reg.off + index;
        bytes[usize::from(index)] = read_byte(regs, south, register, off);
    }
    read_at(&bytes, 0, width)
}

/// The byte at an offset of the function that has a register.
#[tactic(auto, using(std::proofs::lemmas::Bool::Decides::nat_tests))]
fn read_byte(regs: &MapRegs, south: &South, register: &ConfigRegister, off: u8) -> u8
    requires cards { AreFitted regs.now.cards.items }
    requires function { HasRegister regs.now.cards.items register.now.function register.now.reg }
    ensures byte { (setup : Setup) (bytes : Bytes) → AreKeptOf setup bytes (map_bytes regs.now) south.now
        → HasFixed setup bytes → result ≡ bytes (record register.now.reg { off = off }) }
{
    match register.function {
        Function::HostBridge => bridge_byte(regs, off),
        Function::IsaBridge => isa_byte(regs, south, off),
        Function::Ide => south.ide.read(off),
        Function::Card(place) => card_byte(&regs.cards, place, register.reg.dev, off),
    }
}

/// A register of the host bridge.
fn bridge_byte(regs: &MapRegs, off: u8) -> u8
    requires cards { AreFitted regs.now.cards.items }
    ensures byte { (setup : Setup) (bytes : Bytes) → StandsFor setup bytes (map_bytes regs.now)
        → HasFixed setup bytes → result ≡ bytes (bridge off) }
{
    match regs.register(Reg {
        dev: HOST_BRIDGE,
        fun: 0,
        off,
    }) {
        Some(register) => regs.byte(register),
        None => host_bridge::fixed_byte(off),
    }
}

/// A register of the ISA bridge.
fn isa_byte(regs: &MapRegs, south: &South, off: u8) -> u8
    ensures byte { (setup : Setup) (bytes : Bytes) → AreKeptOf setup bytes (map_bytes regs.now) south.now
        → HasFixed setup bytes → result ≡ bytes (isa off) }
{
    if off == XBCS {
        return chip_selects(&regs.singles);
    }
    isa_byte_beside(south, off)
}

/// A register of the ISA bridge other than XBCS.
fn isa_byte_beside(south: &South, off: u8) -> u8
    requires other { off ≢ xbcs.off }
    ensures byte { (setup : Setup) (bytes : Bytes) → IsSouthOf bytes south.now
        → HasFixed setup bytes → result ≡ bytes (isa off) }
{
    match off {
        PIRQRCA..=PIRQRCD => south.routes.read(off),
        _ => south_bridge::isa_fixed_byte(off),
    }
}

/// A register of the card at a place, whose device number is `dev`.
fn card_byte(cards: &[CardRegs], place: usize, dev: u8, off: u8) -> u8
    requires cards { AreCards cards.now }
    requires place { position (λ card. card.card.dev == dev) cards.now ≡ Some place }
    ensures byte { (setup : Setup) (bytes : Bytes)
        → AreCardsOf setup bytes cards.now → result ≡ bytes (card_register dev off) }
{
    cards[place].read(off)
}
