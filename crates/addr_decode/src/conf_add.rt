//! The configuration address register, CONFADD of the 82441FX (configuration mechanism one of PCI Local Bus 2.1).
ghost use Rattle.std.specs.Prelude.{◌≡◌, ◌+◌, ◌%◌, ◌≤◌, ◌↔◌, false, IsTrue, IsNone, IfSome};
ghost use Rattle.board_prelude.specs.{Width, bytes_of, Setup, kept_address, is_enabled, is_config_port};
ghost use Rattle.board_prelude.specs.{config_register};
ghost use Rattle.addr_decode.specs.Selection.{selected_at, existing};

use board_base::Reg;
use board_spec::bits::is_set;
use std::marker::Model;

/// The bits that the register keeps: enable, bus, device, function and register. The others read 0.
const KEPT: u32 = 0x80FF_FFFC;
/// The bit that turns an access to the configuration data ports into a configuration access.
const ENABLE: u32 = 31;

/// What the configuration address selects at a configuration data port: a bus, and a register there.
#[derive(Clone, Copy)]
pub struct Selected {
    pub bus: u8,
    pub reg: Reg,
}

/// The configuration address register at port 0CF8h: enable in bit 31, and from bit 23 down 8 bits of bus, 5 of
/// device, 3 of function and 8 of register, whose low two are 0. Contracts see the number that it holds.
#[derive(Drop)]
pub struct ConfAdd {
    pub(crate) value: u32,
}

impl Model for ConfAdd {
    ghost use Rattle.std.specs.Prelude.{◌≡◌, ℕ};
    ghost use Rattle.board_spec.specs.Registers.{kept_address};

    ghost Value = { ℕ };

    ghost view = { λ conf_add. conf_add.value };

    ghost invariant = { λ conf_add. kept_address conf_add.value ≡ conf_add.value };
}

impl ConfAdd {
    /// The register after a reset: 0, so nothing is selected.
    pub fn new() -> ConfAdd
        ensures zero { result ≡ 0 }
    {
        ConfAdd { value: 0 }
    }

    /// Writes the four bytes of the register. Reserved bits stay 0.
    pub fn write(&mut self, value: u32)
        ensures kept { self.new ≡ kept_address value }
    {
        self.value = kept(value);
    }

    /// The number that the register holds. Reserved bits read 0.
    pub fn read(&self) -> u32
        ensures value { result ≡ self.now }
        ensures kept { kept_address result ≡ result }
    {
        self.value
    }

    /// Gives the register its value after a reset, 0.
    pub fn reset(&mut self)
        ensures zero { self.new ≡ 0 }
    {
        self.value = 0;
    }

    /// What an access at one of the ports 0CFCh to 0CFFh reaches: `select` of the number that the register holds.
    /// None where the enable bit is 0.
    pub fn select(&self, port: u16) -> Option<Selected>
        requires config_port { IsTrue (is_config_port port) }
        ensures none { IsNone result ↔ (is_enabled self.now ≡ false) }
        ensures selected { IfSome result (λ selected. selected ≡ selected_at self.now port) }
        ensures register { (setup : Setup) → config_register setup self.now port ≡ existing setup result }
        ensures within { IfSome result (λ selected. (width : Width) → port % bytes_of width ≡ 0
            → selected.reg.off + bytes_of width ≤ 0x100) }
    {
        select(self.value, port)
    }
}

/// The bits of a configuration address that its register keeps. The others read 0.
pub fn kept(address: u32) -> u32
    ensures kept { result ≡ kept_address address }
    ensures again { kept_address result ≡ result }
{
    address & KEPT
}

/// The register that an access at one of the ports 0CFCh to 0CFFh reaches by an address that the configuration
/// address register holds, whether or not its function exists. None where the enable bit is 0. An aligned access
/// stays within the function's 256 bytes.
pub fn select(address: u32, port: u16) -> Option<Selected>
    requires kept { kept_address address ≡ address }
    requires config_port { IsTrue (is_config_port port) }
    ensures none { IsNone result ↔ (is_enabled address ≡ false) }
    ensures selected { IfSome result (λ selected. selected ≡ selected_at address port) }
    ensures register { (setup : Setup) → config_register setup address port ≡ existing setup result }
    ensures within { IfSome result (λ selected. (width : Width) → port % bytes_of width ≡ 0
        → selected.reg.off + bytes_of width ≤ 0x100) }
{
    if !is_set(address, ENABLE) {
        return None;
    }
    Some(Selected {
        bus: (address >> 16 & 0xFF) as u8,
        reg: Reg {
            dev: (address >> 11 & 0x1F) as u8,
            fun: (address >> 8 & 0x07) as u8,
            off: (address & 0xFF) as u8 + (port & 0x03) as u8,
        },
    })
}
