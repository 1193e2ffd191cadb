//! What the decode of a port access finds.
ghost use Rattle.std.specs.Prelude.{◌≡◌, ◌≤◌, List, IfSome, is_some};
ghost use Rattle.board_prelude.specs.{Setup, function_exists};
ghost use Rattle.pci_bars.specs.Cards.{CardBytes, cards_of};
ghost use Rattle.addr_decode.specs.Found.{HasRegister, decoded_as};

use board_base::{Denial, Dev, Reg, Target};
use board_spec::offset::{HOST_BRIDGE, IDE, SOUTH_BRIDGE};
use pci_bars::{CardRegs, card_index};

/// A function of bus 0 with registers in configuration space.
#[derive(Clone, Copy, PartialEq, Eq)]
pub enum Function {
    /// 00.0, the host bridge.
    HostBridge,
    /// 01.0, the ISA bridge of the 82371SB.
    IsaBridge,
    /// 01.1, the IDE function of the 82371SB.
    Ide,
    /// Function 0 of the card at a place in the list of cards.
    Card(usize),
}

/// A register in configuration space, with the function that has it.
#[derive(Clone, Copy)]
pub struct ConfigRegister {
    pub reg: Reg,
    pub function: Function,
}

/// What an access at a port reaches: a device of the board, a register in configuration space, a base of a card (its
/// device, its base and the offset there), or nobody, with what denies the access.
#[derive(Clone, Copy)]
pub enum Found {
    Device(Dev),
    Register(ConfigRegister),
    Card(u8, u8, u32),
    Nobody(Denial),
}

impl Found {
    /// What the access reaches.
    pub fn target(&self) -> Target
        ensures target { result ≡ (decoded_as self.now).target }
    {
        match self {
            Found::Device(dev) => Target::Device(*dev),
            Found::Register(register) => Target::Config(register.reg),
            Found::Card(dev, base, offset) => Target::Card(*dev, *base, *offset),
            Found::Nobody(_) => Target::Abort,
        }
    }

    /// What denies the access. None where something answers.
    pub fn denial(&self) -> Option<Denial>
        ensures denial { result ≡ (decoded_as self.now).denial }
    {
        match self {
            Found::Nobody(denial) => Some(*denial),
            _ => None,
        }
    }
}

/// The function of bus 0 that has a register: the host bridge, one of the two of the 82371SB, or function 0 of a card.
/// None where there is no such function.
pub fn function_of(cards: &[CardRegs], reg: Reg) -> Option<Function>
    ensures has { IfSome result (λ function. HasRegister cards.now function reg) }
    ensures exists { (setup : Setup) → setup.cards ≡ cards_of cards.now
        → is_some result ≡ function_exists setup 0 reg.dev reg.fun }
{
    match reg.fun {
        0 => function_0(cards, reg),
        IDE => function_1(reg),
        _ => None,
    }
}

/// The function 0 that has a register.
fn function_0(cards: &[CardRegs], reg: Reg) -> Option<Function>
    requires fun { reg.fun ≡ 0 }
    ensures has { IfSome result (λ function. HasRegister cards.now function reg) }
    ensures exists { (setup : Setup) → setup.cards ≡ cards_of cards.now
        → is_some result ≡ function_exists setup 0 reg.dev 0 }
{
    match reg.dev {
        HOST_BRIDGE => Some(Function::HostBridge),
        SOUTH_BRIDGE => Some(Function::IsaBridge),
        _ => card_function(cards, reg),
    }
}

/// The function 1 that has a register.
fn function_1(reg: Reg) -> Option<Function>
    requires fun { reg.fun ≡ 1 }
    ensures has { (cards : List CardBytes) → IfSome result (λ function. HasRegister cards function reg) }
    ensures exists { (setup : Setup) → is_some result ≡ function_exists setup 0 reg.dev 1 }
{
    match reg.dev {
        SOUTH_BRIDGE => Some(Function::Ide),
        _ => None,
    }
}

/// The card that has a register.
fn card_function(cards: &[CardRegs], reg: Reg) -> Option<Function>
    requires dev { 2 ≤ reg.dev }
    requires fun { reg.fun ≡ 0 }
    ensures has { IfSome result (λ function. HasRegister cards.now function reg) }
    ensures exists { (setup : Setup) → setup.cards ≡ cards_of cards.now
        → is_some result ≡ function_exists setup 0 reg.dev 0 }
{
    match card_index(cards, reg.dev) {
        Some(place) => Some(Function::Card(place)),
        None => None,
    }
}
