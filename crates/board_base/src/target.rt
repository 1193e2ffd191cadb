//! What an access reaches: a row of DRAM, a ROM, a card, a device, a register, or nothing.

/// A byte of PCI configuration space of bus 0: device, function and offset. It is written as
/// `00.0.72`, the device and the offset in hexadecimal (PCI Local Bus 2.1, configuration mechanism one).
#[derive(Clone, Copy, PartialEq, Eq, Debug)]
pub struct Reg {
    pub dev: u8,
    pub fun: u8,
    pub off: u8,
}

/// A device that answers at I/O ports, at a wire, or at an interrupt acknowledge.
#[derive(Clone, Copy, PartialEq, Eq, Debug)]
pub enum Dev {
    /// The configuration address register, at port 0CF8h.
    Confadd,
    /// The reset control register, at port 0CF9h.
    Reset,
    /// The master 8259A.
    Pic0,
    /// The slave 8259A.
    Pic1,
    /// The 8254 timer.
    Pit,
    /// The system control port 61h.
    System,
    /// The socket of a keyboard controller, which is empty.
    Keyboard,
    /// The MC146818 clock with its RAM.
    Clock,
    /// The edge and level control registers, at ports 4D0h and 4D1h.
    Elcr,
    /// The primary ATA channel.
    Ata,
    /// The board's wires.
    Wires,
    /// An interrupt acknowledge answered by chip 0, the master, or chip 1, the slave.
    Vector(u8),
    /// An interrupt acknowledge that finds no request, answered by chip 0 or 1.
    Spurious(u8),
}

/// The part of the memory map in which an address lies.
#[derive(Clone, Copy, PartialEq, Eq, Debug)]
pub enum Area {
    /// Main memory, in this row of DRAM.
    Dram(u8),
    /// Main memory behind an open PAM window, in this row of DRAM.
    Shadow(u8),
    /// Main memory of system management mode, A0000h to BFFFFh.
    Smram,
    /// The BIOS ROM.
    Rom,
    /// A card: its device number and the number of its base.
    Card(u8, u8),
    /// Nothing: reads give all ones, and writes are lost.
    Abort,
}

/// What answered an access, and where in it.
#[derive(Clone, Copy, PartialEq, Eq, Debug)]
pub enum Target {
    /// Main memory, in this row of DRAM.
    Dram(u8),
    /// Main memory behind an open PAM window, in this row of DRAM.
    Shadow(u8),
    /// Main memory of system management mode.
    Smram,
    /// The BIOS ROM, at this offset.
    Rom(u32),
    /// A card: its device number, the number of its base, and the offset from that base.
    Card(u8, u8, u32),
    /// A device of the board.
    Device(Dev),
    /// A configuration register, the first of those accessed.
    Config(Reg),
    /// Nothing.
    Abort,
}

/// What keeps an access from an answer: the register whose bits say so.
#[derive(Clone, Copy, PartialEq, Eq, Debug)]
pub enum Denial {
    /// This register.
    Register(Reg),
    /// The configuration address register.
    Confadd,
    /// No register could change it.
    NoRegister,
}
