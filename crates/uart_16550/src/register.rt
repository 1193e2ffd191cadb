//! The registers and their bits, by the names of the PC16550D data sheet (8.0, "Registers"). Bit 0 is the lowest.
//!
//! | offset | read | write | with DLAB |
//! |--------|------|-------|-----------|
//! | 0      | RBR  | THR   | DLL       |
//! | 1      | IER  | IER   | DLM       |
//! | 2      | IIR  | FCR   |           |
//! | 3      | LCR  | LCR   |           |
//! | 4      | MCR  | MCR   |           |
//! | 5      | LSR  |       |           |
//! | 6      | MSR  |       |           |
//! | 7      | SCR  | SCR   |           |

ghost use Rattle.std.specs.Prelude.{◌≡◌, ◌≤◌, ◌<◌, ◌^◌};
ghost use Rattle.uart_16550.specs.Uart.{flag};
ghost use Rattle.uart_16550.specs.Reads.{register_read};
ghost use Rattle.uart_16550.specs.Writes.{register_written};

/// IER: received data available.
pub const ERBFI: u32 = 0;
/// IER: THR is empty.
pub const ETBEI: u32 = 1;
/// IER: receiver line status.
pub const ELSI: u32 = 2;
/// IER: modem status.
pub const EDSSI: u32 = 3;
/// The bits that IER keeps.
pub const IER_BITS: u8 = 0x0F;

/// IIR: the FIFOs are on.
pub const FIFOS_ENABLED: u8 = 0xC0;

/// FCR: turns the FIFOs on.
pub const FIFO_ENABLE: u32 = 0;
/// FCR: empties the receiver's FIFO.
pub const RECEIVER_RESET: u32 = 1;

/// LCR: the divisor latch stands at offsets 0 and 1.
pub const DLAB: u32 = 7;

/// MCR: data terminal ready.
pub const DTR: u32 = 0;
/// MCR: request to send.
pub const RTS: u32 = 1;
/// MCR: the first free output.
pub const OUT1: u32 = 2;
/// MCR: the second, which lets the interrupt out on a PC.
pub const OUT2: u32 = 3;
/// MCR: loopback.
pub const LOOP: u32 = 4;
/// The bits that MCR keeps.
pub const MCR_BITS: u8 = 0x1F;

/// LSR: data ready.
pub const DR: u32 = 0;
/// LSR: overrun error.
pub const OE: u32 = 1;
/// LSR: THR is empty.
pub const THRE: u32 = 5;
/// LSR: the transmitter is empty.
pub const TEMT: u32 = 6;

/// MSR: clear to send changed.
pub const DCTS: u32 = 0;
/// MSR: data set ready changed.
pub const DDSR: u32 = 1;
/// MSR: a ring ended.
pub const TERI: u32 = 2;
/// MSR: data carrier detect changed.
pub const DDCD: u32 = 3;
/// MSR: clear to send.
pub const CTS: u32 = 4;
/// MSR: data set ready.
pub const DSR: u32 = 5;
/// MSR: ring indicator.
pub const RI: u32 = 6;
/// MSR: data carrier detect.
pub const DCD: u32 = 7;

/// A register as a read reaches it.
#[derive(Clone, Copy)]
pub enum ReadRegister {
    /// Receiver buffer.
    Rbr,
    /// Divisor latch, low byte.
    Dll,
    /// Interrupt enable.
    Ier,
    /// Divisor latch, high byte.
    Dlm,
    /// Interrupt identification.
    Iir,
    /// Line control.
    Lcr,
    /// Modem control.
    Mcr,
    /// Line status.
    Lsr,
    /// Modem status.
    Msr,
    /// Scratch.
    Scr,
}

impl ReadRegister {
    /// The register at an offset, 0 to 7.
    pub fn at(off: u8, dlab: bool) -> ReadRegister
        requires off { off < 8 }
        ensures register { result ≡ register_read dlab off }
    {
        match off {
            0 if dlab => ReadRegister::Dll,
            0 => ReadRegister::Rbr,
            1 if dlab => ReadRegister::Dlm,
            1 => ReadRegister::Ier,
            2 => ReadRegister::Iir,
            3 => ReadRegister::Lcr,
            4 => ReadRegister::Mcr,
            5 => ReadRegister::Lsr,
            6 => ReadRegister::Msr,
            _ => ReadRegister::Scr,
        }
    }
}

/// What reads of the registers would give: of the divisor latch, whether it stands at offsets 0 and 1 or not.
#[derive(Clone, Copy)]
pub struct UartRegisters {
    pub ier: u8,
    pub iir: u8,
    pub lcr: u8,
    pub mcr: u8,
    pub lsr: u8,
    pub msr: u8,
    pub scr: u8,
    pub dll: u8,
    pub dlm: u8,
}

/// A register as a write reaches it.
#[derive(Clone, Copy)]
pub enum WriteRegister {
    /// Transmitter holding.
    Thr,
    /// Divisor latch, low byte.
    Dll,
    /// Interrupt enable.
    Ier,
    /// Divisor latch, high byte.
    Dlm,
    /// FIFO control.
    Fcr,
    /// Line control.
    Lcr,
    /// Modem control.
    Mcr,
    /// Line status, which a write leaves.
    Lsr,
    /// Modem status, which a write leaves.
    Msr,
    /// Scratch.
    Scr,
}

impl WriteRegister {
    /// The register at an offset, 0 to 7.
    pub fn at(off: u8, dlab: bool) -> WriteRegister
        requires off { off < 8 }
        ensures register { result ≡ register_written dlab off }
    {
        match off {
            0 if dlab => WriteRegister::Dll,
            0 => WriteRegister::Thr,
            1 if dlab => WriteRegister::Dlm,
            1 => WriteRegister::Ier,
            2 => WriteRegister::Fcr,
            3 => WriteRegister::Lcr,
            4 => WriteRegister::Mcr,
            5 => WriteRegister::Lsr,
            6 => WriteRegister::Msr,
            _ => WriteRegister::Scr,
        }
    }
}

/// A register in which one bit may be set.
pub fn flag(on: bool, bit: u32) -> u8
    requires bit { bit < 8 }
    ensures flag { result ≡ flag on bit }
    ensures most { result ≤ 2 ^ bit }
{
    if on {
        return 1 << bit;
    }
    0
}
