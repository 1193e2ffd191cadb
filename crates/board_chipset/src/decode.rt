//! What an access would reach, without doing it: nothing changes.

ghost use Rattle.std.specs.Prelude.{◌≡◌, List};
ghost use Rattle.board_prelude.specs.{Bytes, Entry, part_answer};
ghost use Rattle.board_stores.specs.Targets.{part_in};
ghost use Rattle.board_chipset.specs.Chipset.{IsLeftBy};
ghost use Rattle.board_chipset.specs.Held.{HoldsBytes, HoldsRegisters, held_place, held_port};
ghost use Rattle.board_chipset.specs.Places.{place_of, port_part};

use crate::chipset::Chipset;
use board_base::{Access, PortAccess};
use board_spec::{Event, Part};
use board_stores::decoded;

impl Chipset {
    /// Does nothing: its clause says that a chipset holds the register bytes of some board.
    pub fn holds_registers(&self)
        ensures some { (bytes : Bytes) × HoldsRegisters self.now bytes }
    {
        self.map();
    }

    /// What would answer an access of one bus cycle, to memory or to a port, and what would deny it. None for every
    /// other event.
    pub fn decode(&self, event: &Event) -> Option<Part>
        ensures held { (bytes : Bytes) → HoldsRegisters self.now bytes
            → result ≡ held_place self.now bytes event.now }
        ensures place { (history : List Entry) → IsLeftBy self.now history
            → result ≡ place_of self.now.setup history event.now }
    {
        match event {
            Event::Memory(access) => Some(self.decode_memory(access)),
            Event::Port(access) => Some(self.decode_port(access)),
            _ => None,
        }
    }

    /// What would answer an access to memory.
    #[tactic(auto, using(board_stores::proofs::MemoryLemmas::part_answered), unfolding(crate::specs::Chipset::IsLeftBy))]
    fn decode_memory(&self, access: &Access) -> Part
        ensures held { (bytes : Bytes) → HoldsBytes self.now bytes
            → result ≡ part_in self.now.setup bytes access.now }
        ensures part { (history : List Entry) → IsLeftBy self.now history
            → result ≡ part_answer self.now.setup history access.now }
    {
        decoded(self.state.registers.regs(), self.setup.rom(), access)
    }

    /// What would answer an access to a port.
    #[tactic(auto, using(crate::proofs::HeldPlaces::disk_fitted), unfolding(crate::specs::Chipset::IsLeftBy))]
    fn decode_port(&self, access: &PortAccess) -> Part
        ensures held { (bytes : Bytes) → HoldsRegisters self.now bytes
            → result ≡ held_port self.now bytes access.now }
        ensures part { (history : List Entry) → IsLeftBy self.now history
            → result ≡ port_part self.now.setup history access.now }
    {
        let disk = self.state.devices.has_disk();
        let registers = &self.state.registers;
        let (target, denial) = registers.decode_port(access.port, access.width, disk);
        Part { target, denial }
    }
}
