//! What the steps of a chipset change: the registers, the bytes behind the addresses, and the devices.

ghost use Rattle.std.specs.Prelude.{◌≡◌, ◌≤◌, ◌↔◌, [], length, Err, IfOk};
ghost use Rattle.board_prelude.specs.{most_mib, most_card_memory, IsCardList, IsDisk, IsRomSize, memory_of_cards};
ghost use Rattle.board_chipset.specs.Kept.{IsSound, IsStateOf};

use crate::registers::Registers;
use crate::setup::{BoardOpen, Setup, is_rom_size};
use board_devices::Devices;
use board_stores::Stores;
use std::alloc::Global;

/// The registers of the board, the bytes behind its addresses, and its devices.
#[derive(Drop)]
pub struct State {
    pub registers: Registers,
    pub stores: Stores,
    pub devices: Devices,
}

impl State {
    /// The state after power-on of the board that a setup describes. BadRom exactly where the ROM has no length of a
    /// BIOS ROM, BadDisk exactly where it has one and the disk is not of 1 to 65,536 whole sectors.
    pub fn open(alloc: Global, setup: &Setup) -> Result<State, BoardOpen>
        requires low { 1 ≤ setup.now.mib }
        requires high { setup.now.mib ≤ most_mib }
        requires cards { IsCardList setup.now.cards }
        requires windows { memory_of_cards setup.now.cards ≤ most_card_memory }
        ensures fresh { IfOk result (λ state. IsStateOf setup.now [] state) }
        ensures sound { IfOk result (λ state. IsSound setup.now state) }
        ensures bad_rom { (result ≡ Err BoardOpen.BadRom) ↔ ¬ IsRomSize (length setup.now.rom) }
        ensures bad_disk { (result ≡ Err BoardOpen.BadDisk)
            ↔ IsRomSize (length setup.now.rom) × ¬ IsDisk setup.now.disk }
    {
        if !is_rom_size(setup.rom().len()) {
            return Err(BoardOpen::BadRom);
        }
        let devices = Devices::open(alloc, setup.disk())?;
        let stores = Stores::open(alloc, setup.mib, &setup.cards)?;
        Ok(State {
            registers: Registers::new(&setup.cards),
            stores,
            devices,
        })
    }
}
