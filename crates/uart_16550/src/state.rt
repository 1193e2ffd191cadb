//! The states of a UART and of the serial port as bytes, out and in.

ghost use Rattle.std.specs.Prelude.{◌≡◌, ◌≤◌, ◌<◌, ◌++◌, OnOk, IfOk, length};
ghost use Rattle.byte_fields.specs.Fields.{Took, plain};
ghost use Rattle.byte_fields.specs.Loads.{Loads, OneSpelling};
ghost use Rattle.uart_16550.specs.Uart.{size_with};
ghost use Rattle.uart_16550.specs.State.{registers_in, registers_bytes, registers_fields, causes_of, causes_bytes};
ghost use Rattle.uart_16550.specs.State.{causes_fields, receiver_of, receiver_bytes, receiver_fields, IsReceiver};
ghost use Rattle.uart_16550.specs.State.{IsUart, uart_bytes, uart_fields, IsCom1, com1_bytes, com1_fields};

use crate::com1::Com1;
use crate::modem::ModemChanges;
use crate::queue::{FIFO_SIZE, Queue};
use crate::register::{IER_BITS, MCR_BITS};
use crate::uart::Uart;
use board_base::NoMemory;
use byte_fields::{Bad, Fields, push_byte, push_bytes, push_flag};

/// The registers that keep what is written.
#[derive(Clone, Copy)]
struct Registers {
    ier: u8,
    lcr: u8,
    mcr: u8,
    scr: u8,
    dll: u8,
    dlm: u8,
}

/// What a UART interrupts for, beside the bytes received: a byte was lost, THR became empty, and what the lines of the
/// modem did.
#[derive(Clone, Copy)]
struct Causes {
    overrun: bool,
    emptied: bool,
    dcts: bool,
    ddsr: bool,
    teri: bool,
    ddcd: bool,
}

/// Whether the FIFOs are on, and the bytes received.
#[derive(Drop)]
struct Receiver {
    fifos: bool,
    queue: Queue,
}

/// Does nothing: its clause says what the type of a byte says.
fn is_byte(byte: u8)
    ensures small { byte < 256 }
{}

/// The most bytes that a queue keeps.
fn size_with(fifos: bool) -> u8
    ensures size { result ≡ size_with fifos }
    ensures most { result ≤ 16 }
{
    if fifos { FIFO_SIZE as u8 } else { 1 }
}

/// Reads the bytes of a queue.
fn read_queue(fields: &mut Fields, count: u8) -> Result<Queue, Bad>
    requires few { count ≤ 16 }
    ensures took { Took (λ queue. queue) result fields.new (plain count fields.old) }
    ensures size { IfOk result (λ queue. length queue ≡ count) }
{
    let bytes = fields.bytes(count.into())?;
    Ok(Queue::of(bytes))
}

impl Registers {
    /// Reads IER, LCR, MCR, SCR, DLL and DLM.
    #[tactic(auto, unfolding(crate::specs::State::registers_fields))]
    fn read(fields: &mut Fields) -> Result<Registers, Bad>
        ensures took { Took (λ registers. registers) result fields.new (registers_fields fields.old) }
        ensures sound { IfOk result (λ registers. (registers.ier < 16) × (registers.mcr < 32)) }
    {
        let ier = fields.byte(0, IER_BITS)?;
        let lcr = fields.byte(0, u8::MAX)?;
        let mcr = fields.byte(0, MCR_BITS)?;
        let scr = fields.byte(0, u8::MAX)?;
        let dll = fields.byte(0, u8::MAX)?;
        let dlm = fields.byte(0, u8::MAX)?;
        Ok(Registers {
            ier,
            lcr,
            mcr,
            scr,
            dll,
            dlm,
        })
    }
}

impl Causes {
    /// Reads six flags.
    #[tactic(auto, unfolding(crate::specs::State::causes_fields))]
    fn read(fields: &mut Fields) -> Result<Causes, Bad>
        ensures took { Took (λ causes. causes) result fields.new (causes_fields fields.old) }
    {
        let overrun = fields.flag()?;
        let emptied = fields.flag()?;
        let dcts = fields.flag()?;
        let ddsr = fields.flag()?;
        let teri = fields.flag()?;
        let ddcd = fields.flag()?;
        Ok(Causes {
            overrun,
            emptied,
            dcts,
            ddsr,
            teri,
            ddcd,
        })
    }
}

impl Receiver {
    /// Reads whether the FIFOs are on, how many bytes there are, and these.
    #[tactic(auto, unfolding(crate::specs::State::receiver_fields))]
    fn read(fields: &mut Fields) -> Result<Receiver, Bad>
        ensures took { Took (λ receiver. receiver) result fields.new (receiver_fields fields.old) }
        ensures sound { IfOk result IsReceiver }
    {
        let fifos = fields.flag()?;
        let count = fields.byte(0, size_with(fifos))?;
        let queue = read_queue(fields, count)?;
        Ok(Receiver { fifos, queue })
    }
}

impl Uart {
    /// Does nothing: its clause says that the state of each UART is sound.
    fn is_sound(&self)
        ensures sound { IsUart self.now }
    {
        is_byte(self.lcr);
        is_byte(self.scr);
        is_byte(self.dll);
        is_byte(self.dlm);
    }

    /// The bytes of the registers.
    fn register_bytes(&self) -> [u8; 6]
        ensures bytes { result ≡ registers_bytes (registers_in self.now) }
    {
        [self.ier, self.lcr, self.mcr, self.scr, self.dll, self.dlm]
    }

    /// The bytes of what it interrupts for.
    fn cause_bytes(&self) -> [u8; 6]
        ensures bytes { result ≡ causes_bytes (causes_of self.now) }
    {
        [
            u8::from(self.overrun),
            u8::from(self.emptied),
            u8::from(self.changes.dcts),
            u8::from(self.changes.ddsr),
            u8::from(self.changes.teri),
            u8::from(self.changes.ddcd),
        ]
    }

    /// Adds the bytes of the receiver.
    fn save_receiver(&self, into: &mut Vec<u8>) -> Result<(), NoMemory>
        ensures saved { OnOk result (into.new.items ≡ into.old.items ++ receiver_bytes (receiver_of self.now)) }
    {
        push_flag(into, self.fifos)?;
        push_byte(into, self.queue.len() as u8)?;
        push_bytes(into, self.queue.bytes())
    }

    /// Adds the 14 to 30 bytes of the state.
    pub fn save_state(&self, into: &mut Vec<u8>) -> Result<(), NoMemory>
        ensures saved { OnOk result (into.new.items ≡ into.old.items ++ uart_bytes self.now) }
        ensures sound { IsUart self.now }
    {
        self.is_sound();
        push_bytes(into, &self.register_bytes())?;
        push_bytes(into, &self.cause_bytes())?;
        self.save_receiver(into)
    }

    /// The UART whose state is at the front of the bytes. Refused where a field is not whole or out of range: the bytes
    /// left then begin with the first such field.
    pub fn load_state(fields: &mut Fields) -> Result<Uart, Bad>
        ensures loaded { Loads uart_fields uart_bytes IsUart fields.old fields.new result }
    {
        fields.are_bytes();
        Uart::read_state(fields)
    }

    /// Reads the fields one after another.
    #[tactic(auto, unfolding(crate::specs::State::uart_fields))]
    fn read_state(fields: &mut Fields) -> Result<Uart, Bad>
        ensures took { Took (λ uart. uart) result fields.new (uart_fields fields.old) }
    {
        let registers = Registers::read(fields)?;
        let causes = Causes::read(fields)?;
        let receiver = Receiver::read(fields)?;
        Ok(Uart {
            ier: registers.ier,
            lcr: registers.lcr,
            mcr: registers.mcr,
            scr: registers.scr,
            dll: registers.dll,
            dlm: registers.dlm,
            fifos: receiver.fifos,
            queue: receiver.queue,
            overrun: causes.overrun,
            emptied: causes.emptied,
            changes: ModemChanges {
                dcts: causes.dcts,
                ddsr: causes.ddsr,
                teri: causes.teri,
                ddcd: causes.ddcd,
            },
        })
    }
}

impl Com1 {
    /// Adds the bytes of the state: the level that events gave its line last, and then those of the UART.
    pub fn save_state(&self, into: &mut Vec<u8>) -> Result<(), NoMemory>
        ensures saved { OnOk result (into.new.items ≡ into.old.items ++ com1_bytes self.now) }
        ensures sound { IsCom1 self.now }
    {
        self.uart.is_sound();
        push_flag(into, self.script_level)?;
        self.uart.save_state(into)
    }

    /// The serial port whose state is at the front of the bytes. Refused as `Uart::load_state` refuses.
    pub fn load_state(fields: &mut Fields) -> Result<Com1, Bad>
        ensures loaded { Loads com1_fields com1_bytes IsCom1 fields.old fields.new result }
    {
        fields.are_bytes();
        Com1::read_state(fields)
    }

    /// Reads the fields one after another.
    #[tactic(auto, unfolding(crate::specs::State::com1_fields))]
    fn read_state(fields: &mut Fields) -> Result<Com1, Bad>
        ensures took { Took (λ com1. com1) result fields.new (com1_fields fields.old) }
    {
        let script_level = fields.flag()?;
        let uart = Uart::read_state(fields)?;
        Ok(Com1 { uart, script_level })
    }
}

/// One state has one spelling, and one spelling is of one state.
pub fn law_one_uart()
    ensures one { OneSpelling uart_bytes IsUart }
{}
