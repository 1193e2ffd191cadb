//! The chip.

ghost use Rattle.std.specs.Prelude.{◌≡◌, ◌<◌, ◌≤◌, true, false, [], ◌++◌, not, ◌==◌, length};
ghost use Rattle.uart_16550.specs.Uart.{uart_at_reset, no_changes, is_dlab, is_loopback, is_full, has_room, received};
ghost use Rattle.uart_16550.specs.Uart.{has_condition, is_raised, pending, is_interrupting};
ghost use Rattle.uart_16550.specs.Calls.{bytes_taken, keeps_queue};
ghost use Rattle.uart_16550.specs.Reads.{iir_of, lsr_of, msr_of, registers_of, after_identity, value_of, after_value};
ghost use Rattle.uart_16550.specs.Reads.{byte_read, after_read};
ghost use Rattle.uart_16550.specs.Writes.{looped, thr_written, ier_written, is_emptying, fcr_written, mcr_written};
ghost use Rattle.uart_16550.specs.Writes.{with_value, after_write, byte_sent};

use crate::interrupt::{Interrupt, identity};
use crate::modem::{ModemChanges, ModemLines, modem_status};
use crate::queue::{FIFO_SIZE, Queue};
use crate::register::{
    DLAB, DR, ETBEI, FIFO_ENABLE, FIFOS_ENABLED, IER_BITS, LOOP, MCR_BITS, OE, OUT2,
    RECEIVER_RESET, ReadRegister, TEMT, THRE, UartRegisters, WriteRegister, flag,
};
use board_spec::bits::is_set;
use std::marker::Model;

/// A 16550. Contracts see the machine of the definitions. No time passes in it: a byte is sent as it is written.
/// `board_example::serial` has an example.
#[derive(Drop)]
pub struct Uart {
    pub(crate) ier: u8,
    pub(crate) lcr: u8,
    pub(crate) mcr: u8,
    pub(crate) scr: u8,
    pub(crate) dll: u8,
    pub(crate) dlm: u8,
    pub(crate) fifos: bool,
    pub(crate) queue: Queue,
    pub(crate) overrun: bool,
    pub(crate) emptied: bool,
    pub(crate) changes: ModemChanges,
}

impl Model for Uart {
    ghost use Rattle.uart_16550.specs.Uart.{Uart as Machine, AreKept};

    ghost Value = { Machine };

    ghost view = { λ uart. record {
      ier = uart.ier;
      lcr = uart.lcr;
      mcr = uart.mcr;
      scr = uart.scr;
      dll = uart.dll;
      dlm = uart.dlm;
      fifos = uart.fifos;
      queue = uart.queue;
      overrun = uart.overrun;
      emptied = uart.emptied;
      changes = uart.changes;
    } };

    ghost invariant = { λ uart. AreKept uart.ier uart.mcr uart.fifos uart.queue };
}

impl Uart {
    /// A UART as power-on and a hard reset leave it: every register at 0 but MSR, no FIFOs, an empty queue.
    pub fn new() -> Uart
        ensures reset { result ≡ uart_at_reset }
    {
        Uart {
            ier: 0,
            lcr: 0,
            mcr: 0,
            scr: 0,
            dll: 0,
            dlm: 0,
            fifos: false,
            queue: Queue::new(),
            overrun: false,
            emptied: false,
            changes: ModemChanges::none(),
        }
    }

    /// Whether the divisor latch stands at offsets 0 and 1 (LCR bit 7).
    fn is_dlab(&self) -> bool
        ensures is { result ≡ is_dlab self.now }
    {
        is_set(self.lcr.into(), DLAB)
    }

    /// Whether what is sent comes back (MCR bit 4).
    fn is_loopback(&self) -> bool
        ensures is { result ≡ is_loopback self.now }
    {
        is_set(self.mcr.into(), LOOP)
    }

    /// Whether the queue is full: 16 bytes with FIFOs, one without.
    fn is_full(&self) -> bool
        ensures is { result ≡ is_full self.now }
    {
        let size = if self.fifos { FIFO_SIZE } else { 1 };
        self.queue.len() >= size
    }

    fn is_empty(&self) -> bool
        ensures is { result ≡ (length self.now.queue == 0) }
    {
        self.queue.len() == 0
    }

    /// Whether a byte can be received: the queue is not full, and loopback is off.
    pub fn room(&self) -> bool
        ensures room { result ≡ has_room self.now }
    {
        !self.is_full() && !self.is_loopback()
    }

    /// Receives a byte from outside, at the end of the queue.
    pub fn receive(&mut self, byte: u8)
        requires room { has_room self.old ≡ true }
        ensures after { self.new ≡ received self.old byte }
    {
        self.put(byte);
    }

    /// Puts a byte at the end of the queue.
    fn put(&mut self, byte: u8)
        requires room { is_full self.old ≡ false }
        ensures after { self.new ≡ received self.old byte }
    {
        self.queue.push(byte);
    }

    /// Whether the cause of this interrupt is there.
    fn has_condition(&self, interrupt: Interrupt) -> bool
        ensures condition { result ≡ has_condition self.now interrupt }
    {
        match interrupt {
            Interrupt::LineStatus => self.overrun,
            Interrupt::DataAvailable => !self.is_empty(),
            Interrupt::TransmitterEmpty => self.emptied,
            Interrupt::ModemStatus => self.changes.any(),
        }
    }

    /// Whether the cause of this interrupt is there, and IER enables it.
    fn is_raised(&self, interrupt: Interrupt) -> bool
        ensures raised { result ≡ is_raised self.now interrupt }
    {
        is_set(self.ier.into(), interrupt.enable_bit()) && self.has_condition(interrupt)
    }

    /// The interrupt that is raised; of several the first of this order.
    fn pending(&self) -> Option<Interrupt>
        ensures pending { result ≡ pending self.now }
    {
        if self.is_raised(Interrupt::LineStatus) {
            return Some(Interrupt::LineStatus);
        }
        if self.is_raised(Interrupt::DataAvailable) {
            return Some(Interrupt::DataAvailable);
        }
        if self.is_raised(Interrupt::TransmitterEmpty) {
            return Some(Interrupt::TransmitterEmpty);
        }
        if self.is_raised(Interrupt::ModemStatus) {
            return Some(Interrupt::ModemStatus);
        }
        None
    }

    /// The level of the interrupt line: 1 while an interrupt is pending and MCR lets it out (OUT2).
    pub fn irq(&self) -> bool
        ensures level { result ≡ is_interrupting self.now }
    {
        is_set(self.mcr.into(), OUT2) && self.pending().is_some()
    }

    /// What reads of the registers would give, of which none was made: nothing is taken or cleared.
    #[tactic(auto, unfolding(crate::specs::Reads::value_of))]
    pub fn registers(&self) -> UartRegisters
        ensures registers { result ≡ registers_of self.now }
    {
        UartRegisters {
            ier: self.ier,
            iir: self.iir(),
            lcr: self.lcr,
            mcr: self.mcr,
            lsr: self.lsr(),
            msr: modem_status(ModemLines::under(self.mcr), self.changes),
            scr: self.scr,
            dll: self.dll,
            dlm: self.dlm,
        }
    }

    /// The bytes that were received and not read, the next to be read first.
    pub fn received(&self) -> &[u8]
        ensures bytes { result.now ≡ self.now.queue }
        ensures most { length result.now ≤ 16 }
    {
        self.queue.bytes()
    }

    /// Whether THR became empty, and IIR was not read with that cause since.
    pub fn is_emptied(&self) -> bool
        ensures emptied { result ≡ self.now.emptied }
    {
        self.emptied
    }

    /// Reads the register at an offset, 0 to 7. RBR gives the front of the queue and takes it, and 0 where there is
    /// none; IIR clears the empty THR where it gives that cause, LSR the overrun, and MSR the changes of the lines.
    pub fn port_read(&mut self, off: u8) -> u8
        requires off { off < 8 }
        ensures value { result ≡ byte_read self.old off }
        ensures after { self.new ≡ after_read self.old off }
        // What was taken, and what is left, is what was there.
        ensures order { bytes_taken self.old off result ++ self.new.queue ≡ self.old.queue }
    {
        let register = ReadRegister::at(off, self.is_dlab());
        self.read(register)
    }

    #[tactic(auto, unfolding(crate::specs::Reads::value_of, crate::specs::Reads::after_value))]
    fn read(&mut self, register: ReadRegister) -> u8
        ensures value { result ≡ value_of self.old register }
        ensures after { self.new ≡ after_value self.old register }
    {
        match register {
            ReadRegister::Rbr => self.queue.pop(),
            ReadRegister::Dll => self.dll,
            ReadRegister::Ier => self.ier,
            ReadRegister::Dlm => self.dlm,
            ReadRegister::Iir => self.read_iir(),
            ReadRegister::Lcr => self.lcr,
            ReadRegister::Mcr => self.mcr,
            ReadRegister::Lsr => self.read_lsr(),
            ReadRegister::Msr => self.read_msr(),
            ReadRegister::Scr => self.scr,
        }
    }

    fn read_iir(&mut self) -> u8
        ensures value { result ≡ iir_of self.old }
        ensures after { self.new ≡ after_identity (pending self.old) self.old }
    {
        let iir = self.iir();
        if self.pending() == Some(Interrupt::TransmitterEmpty) {
            self.emptied = false;
        }
        iir
    }

    /// IIR.
    fn iir(&self) -> u8
        ensures value { result ≡ iir_of self.now }
    {
        let fifos = if self.fifos { FIFOS_ENABLED } else { 0 };
        identity(self.pending()) + fifos
    }

    fn read_lsr(&mut self) -> u8
        ensures value { result ≡ lsr_of self.old }
        ensures after { self.new ≡ record self.old { overrun = false } }
    {
        let lsr = self.lsr();
        self.overrun = false;
        lsr
    }

    /// LSR.
    fn lsr(&self) -> u8
        ensures value { result ≡ lsr_of self.now }
    {
        flag(!self.is_empty(), DR) + flag(self.overrun, OE) + flag(true, THRE) + flag(true, TEMT)
    }

    fn read_msr(&mut self) -> u8
        ensures value { result ≡ msr_of self.old }
        ensures after { self.new ≡ record self.old { changes = no_changes } }
    {
        let changes = self.changes;
        self.changes = ModemChanges::none();
        modem_status(ModemLines::under(self.mcr), changes)
    }

    /// Writes the register at an offset, 0 to 7, and returns the byte that is sent. None exactly where the offset is
    /// not 0, DLAB is 1, or loopback is on.
    pub fn port_write(&mut self, off: u8, byte: u8) -> Option<u8>
        requires off { off < 8 }
        ensures sent { result ≡ byte_sent self.old off byte }
        ensures after { self.new ≡ after_write self.old off byte }
        ensures order { keeps_queue self.old off byte ≡ true → self.new.queue ≡ self.old.queue }
    {
        let register = WriteRegister::at(off, self.is_dlab());
        let sent = register == WriteRegister::Thr && !self.is_loopback();
        self.write(register, byte);
        sent.then_some(byte)
    }

    #[tactic(auto, unfolding(crate::specs::Writes::with_value))]
    fn write(&mut self, register: WriteRegister, byte: u8)
        ensures after { self.new ≡ with_value self.old register byte }
    {
        match register {
            WriteRegister::Thr => self.write_thr(byte),
            WriteRegister::Dll => self.dll = byte,
            WriteRegister::Ier => self.write_ier(byte),
            WriteRegister::Dlm => self.dlm = byte,
            WriteRegister::Fcr => self.write_fcr(byte),
            WriteRegister::Lcr => self.lcr = byte,
            WriteRegister::Mcr => self.write_mcr(byte),
            WriteRegister::Lsr => {}
            WriteRegister::Msr => {}
            WriteRegister::Scr => self.scr = byte,
        }
    }

    fn write_thr(&mut self, byte: u8)
        ensures after { self.new ≡ thr_written self.old byte }
    {
        self.emptied = true;
        if self.is_loopback() {
            self.loop_back(byte);
        }
    }

    fn loop_back(&mut self, byte: u8)
        ensures after { self.new ≡ looped self.old byte }
    {
        if self.is_full() {
            self.overrun = true;
            return;
        }
        self.put(byte);
    }

    fn write_ier(&mut self, byte: u8)
        ensures after { self.new ≡ ier_written self.old byte }
    {
        let rises = is_set(byte.into(), ETBEI) && !is_set(self.ier.into(), ETBEI);
        self.emptied = self.emptied || rises;
        self.ier = byte & IER_BITS;
    }

    /// Whether this byte in FCR empties the queue: it says so, or turns the FIFOs on or off.
    fn is_emptying(&self, byte: u8) -> bool
        ensures emptying { result ≡ is_emptying self.now byte }
    {
        is_set(byte.into(), RECEIVER_RESET) || is_set(byte.into(), FIFO_ENABLE) != self.fifos
    }

    fn write_fcr(&mut self, byte: u8)
        ensures after { self.new ≡ fcr_written self.old byte }
    {
        if self.is_emptying(byte) {
            self.queue.clear();
        }
        self.fifos = is_set(byte.into(), FIFO_ENABLE);
    }

    fn write_mcr(&mut self, byte: u8)
        ensures after { self.new ≡ mcr_written self.old byte }
    {
        let mcr = byte & MCR_BITS;
        let lines = ModemLines::under(self.mcr);
        self.changes = self.changes.after(lines, ModemLines::under(mcr));
        self.mcr = mcr;
    }
}
