//! The registers of the board.

ghost use Rattle.std.specs.Prelude.{◌≡◌, ◌≢◌, ◌+◌, ◌≤◌, ◌<◌, true, false, List, [], ◌∷◌, Some, None, is_some};
ghost use Rattle.std.specs.Prelude.{if◌then◌else◌};
ghost use Rattle.board_prelude.specs.{bytes_of, Entry, Port, Store, Reset, Setup, IsCardList, wide, function_exists};
ghost use Rattle.board_prelude.specs.{reset_byte, byte_of, config_address, is_hard_value, map_change_of, touches_map};
ghost use Rattle.board_prelude.specs.{Bytes, port_target_of};
ghost use Rattle.board_base.specs.declared.target.Dev.TheVariants.{Reset as ResetPort};
ghost use Rattle.pci_bars.specs.Cards.{AreFitted};
ghost use Rattle.addr_decode.specs.Found.{HasRegister, IsFoundIn, decoded_as};
ghost use Rattle.addr_decode.specs.MapRegs.{StandsFor, map_bytes};
ghost use Rattle.addr_decode.specs.Ports.{as_decoded};
ghost use Rattle.map_builder.specs.Map.{next_version};
ghost use Rattle.map_builder.specs.Applied.{AreChanged};
ghost use Rattle.config_regs.specs.Config.{AreKeptOf};
ghost use Rattle.board_chipset.specs.Kept.{AreSound, HasRegisters, IsFlat};
ghost use Rattle.board_chipset.specs.Ports.{Writes};

use crate::reset_control::ResetControl;
use addr_decode::{
    ConfAdd, ConfigRegister, Found, MapChange, MapRegs, PortRegs, find_port, touches,
};
use board_base::{Denial, Dev, PortAccess, Reg, Target, Width};
use config_regs::South;
use map_builder::FlatMap;
use pci_bars::CardSpec;

/// The configuration address, the reset control, the memory map with the registers on which it depends, and the
/// other registers in configuration space.
#[derive(Drop)]
pub struct Registers {
    pub address: ConfAdd,
    pub control: ResetControl,
    pub map: FlatMap,
    pub south: South,
}

impl Registers {
    /// The registers after power-on of a board with these cards.
    pub fn new(specs: &[CardSpec]) -> Registers
        requires cards { IsCardList specs.now }
        ensures reset { (setup : Setup) → setup.cards ≡ specs.now → HasRegisters setup [] result }
    {
        Registers {
            address: ConfAdd::new(),
            control: ResetControl::new(),
            map: FlatMap::from_scratch(MapRegs::reset_of(specs)),
            south: South::new(),
        }
    }

    /// The registers on which the memory map depends.
    pub fn regs(&self) -> &MapRegs
        ensures same { map_bytes result.now ≡ self.now.map.regs }
        ensures stand { (setup : Setup) (history : List Entry) → HasRegisters setup history self.now
            → StandsFor setup (byte_of setup history) (map_bytes result.now) }
        ensures fitted { AreFitted result.now.cards.items }
    {
        self.map.regs()
    }

    /// What an access at a port reaches, and what denies it, with a disk fitted or without.
    pub fn decode_port(&self, port: u16, width: Width, disk: bool) -> (Target, Option<Denial>)
        ensures stands { (setup : Setup) (bytes : Bytes) → AreKeptOf setup bytes self.now.map.regs self.now.south
            → as_decoded result ≡ port_target_of setup bytes self.now.address disk port width }
        ensures decoded { (setup : Setup) (history : List Entry) → HasRegisters setup history self.now
            → as_decoded result
            ≡ port_target_of setup (byte_of setup history) (config_address history) disk port width }
    {
        let found = self.find_port(port, width, disk);
        (found.target(), found.denial())
    }

    /// What an access at a port finds, with a disk fitted or without.
    #[inline(always)]
    pub fn find_port(&self, port: u16, width: Width, disk: bool) -> Found
        ensures stands { (setup : Setup) (bytes : Bytes) → AreKeptOf setup bytes self.now.map.regs self.now.south
            → decoded_as result ≡ port_target_of setup bytes self.now.address disk port width }
        ensures decoded { (setup : Setup) (history : List Entry) → HasRegisters setup history self.now
            → decoded_as result
            ≡ port_target_of setup (byte_of setup history) (config_address history) disk port width }
        ensures found { IsFoundIn self.now.map.regs.cards result }
    {
        let ports = PortRegs {
            confadd: self.address.read(),
            ide_command: self.south.ide.command(),
            idetim: self.south.ide.timing(),
            disk,
        };
        find_port(self.map.regs(), &ports, port, width)
    }

    /// The bytes from a register on that its function has, the first in the low bits.
    pub fn read(&self, register: &ConfigRegister, width: Width) -> u32
        requires within { register.now.reg.off + bytes_of width ≤ 0x100 }
        requires function { HasRegister self.now.map.regs.cards register.now.function register.now.reg }
        ensures value { (setup : Setup) (history : List Entry) → HasRegisters setup history self.now
            → result ≡ wide (λ off. byte_of setup history (record register.now.reg { off = off }))
            register.now.reg.off width }
    {
        config_regs::read_from(self.map.regs(), &self.south, register, width)
    }

    /// Writes the configuration address.
    pub fn write_address(&mut self, value: u32)
        ensures sound { (setup : Setup) → AreSound setup self.old → AreSound setup self.new }
        ensures registers { (setup : Setup) (history : List Entry) (entry : Entry) → HasRegisters setup history self.old
            → Writes setup history entry.event None (Some value) None → HasRegisters setup (entry ∷ history) self.new }
        ensures south { self.new.south ≡ self.old.south }
    {
        self.address.write(value);
    }

    /// Stores the bytes of a value in configuration space, the low one first, in rising offset. Returns whether they go
    /// to the 82371SB, which routes the PCI interrupts.
    pub fn store(&mut self, register: &ConfigRegister, width: Width, value: u32) -> bool
        requires within { register.now.reg.off + bytes_of width ≤ 0x100 }
        requires function { HasRegister self.old.map.regs.cards register.now.function register.now.reg }
        ensures sound { (setup : Setup) → AreSound setup self.old → AreSound setup self.new }
        ensures registers { (setup : Setup) (history : List Entry) (entry : Entry) → HasRegisters setup history self.old
            → Writes setup history entry.event None None (Some (Store register.now.reg width value))
            → HasRegisters setup (entry ∷ history) self.new }
        ensures south { register.now.reg.dev ≢ 1 → self.new.south ≡ self.old.south }
        ensures routing { result ≡ true → register.now.reg.dev ≡ 1 }
        ensures other { result ≡ false → register.now.reg.dev ≢ 1 }
    {
        self.map.store(register, width, value);
        self.south.store(register.reg, width, value)
    }

    /// Writes reset control. Returns whether that makes a hard reset, which gives each register its value after a
    /// reset.
    pub fn write_control(&mut self, byte: u8) -> bool
        ensures sound { (setup : Setup) → AreSound setup self.old → AreSound setup self.new }
        ensures hard { result ≡ is_hard_value self.old.control byte }
        ensures registers { (setup : Setup) (history : List Entry) (entry : Entry)
            → Writes setup history entry.event (Some byte) None None
            → HasRegisters setup history self.old → HasRegisters setup (entry ∷ history) self.new }
        ensures south { is_hard_value self.old.control byte ≡ false → self.new.south ≡ self.old.south }
    {
        let hard = self.control.write(byte);
        if hard {
            self.reset();
        }
        hard
    }

    /// Gives each register but reset control its value after a reset.
    fn reset(&mut self)
        ensures sound { (setup : Setup) → AreSound setup self.old → AreSound setup self.new }
        ensures address { self.new.address ≡ 0 }
        ensures control { self.new.control ≡ self.old.control }
        ensures kept { (setup : Setup) (bytes : Bytes) → AreKeptOf setup bytes self.old.map.regs self.old.south
            → AreKeptOf setup (reset_byte setup) self.new.map.regs self.new.south }
        ensures version { self.new.map.version ≡ next_version self.old.map.version }
        ensures windows { (setup : Setup) (bytes : Bytes) → StandsFor setup bytes self.old.map.regs
            → AreChanged setup bytes Reset self.new.map.changed }
        ensures flat { IsFlat self.new.map }
    {
        self.address.reset();
        self.map.apply(&MapChange::Reset);
        self.south.reset();
    }

    /// The change of the map that an access at a port makes, with a disk fitted or without. None where it makes none.
    #[tactic(auto, unfolding(board_spec::specs::MapWrites::map_change_of))]
    pub fn map_change(&self, access: &PortAccess, disk: bool) -> Option<MapChange>
        ensures change { (setup : Setup) (history : List Entry) → HasRegisters setup history self.now
            → disk ≡ is_some setup.disk → result ≡ map_change_of setup history (Port access.now) }
    {
        if !access.write {
            return None;
        }
        match self.find_port(access.port, access.width, disk) {
            Found::Device(dev) => self.device_change(dev, access.value),
            Found::Register(register) => self.store_change(
                register.reg,
                access.width,
                access.value,
            ),
            _ => None,
        }
    }

    /// The change of the map that a write of this value to a device's port makes: a hard reset, or none.
    fn device_change(&self, dev: Dev, value: u32) -> Option<MapChange>
        ensures control { dev ≡ ResetPort
            → result ≡ (if is_hard_value self.now.control value then Some Reset else None) }
        ensures other { (dev ≡ ResetPort → ⊥) → result ≡ None }
    {
        match dev {
            Dev::Reset => self.control_change(value),
            _ => None,
        }
    }

    /// The change of the map that a write of this value to reset control makes: a hard reset, or none.
    fn control_change(&self, value: u32) -> Option<MapChange>
        ensures change { result ≡ (if is_hard_value self.now.control value then Some Reset else None) }
    {
        if self.control.resets(value) {
            return Some(MapChange::Reset);
        }
        None
    }

    /// The change of the map that a store to `reg` and the registers after it makes. None where the map depends on none
    /// of its bytes.
    fn store_change(&self, reg: Reg, width: Width, value: u32) -> Option<MapChange>
        ensures change { (setup : Setup) (history : List Entry) → HasRegisters setup history self.now
            → result ≡ (if touches_map setup (Store reg width value) then Some (Store reg width value) else None) }
    {
        if touches(self.regs(), reg, width) {
            return Some(MapChange::Store { reg, width, value });
        }
        None
    }
}
