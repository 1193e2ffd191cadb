//! The state of a chipset with a serial port as bytes, out and in.

ghost use Rattle.std.specs.Prelude.{◌≡◌, ◌++◌, ◌⊎◌, ◌↔◌, ℕ, true, false, Ok, Err, OnOk, IfOk, IfErr};
ghost use Rattle.board_prelude.specs.{IsSetup};
ghost use Rattle.byte_fields.specs.declared.fault.Fault.TheVariants as faults;
ghost use Rattle.byte_fields.specs.Fields.{Filled};
ghost use Rattle.board_chipset.specs.declared.check.SetupFault.{SetupFault};
ghost use Rattle.board_chipset.specs.Alone.{alone};
ghost use Rattle.board_chipset.specs.Chipset.{Running};
ghost use Rattle.board_chipset.specs.ChipsetState.{is_other_version};
ghost use Rattle.board_chipset.specs.Setups.{IsSetupFault};
ghost use Rattle.board_chipset.specs.StateFaults.{IsOfBytes};
ghost use Rattle.uart_16550.specs.Serial.{Serial};
ghost use Rattle.uart_16550.specs.SerialState.{IsBadSerialAt, IsSerial, LoadsSerial, bare_serial, serial_bytes};
ghost use Rattle.uart_16550.specs.SerialState.{serial_fields};

use crate::com1::Com1;
use crate::serial::SerialBoard;
use board_base::NoMemory;
use board_chipset::{Chipset, Setup, StateFault, is_other_version};
use byte_fields::{Fault, Fields};
use std::alloc::Global;

impl SerialBoard<Chipset> {
    /// Adds the bytes of the state: the chipset's, with their mark and version, and then the port's.
    pub fn save_state(&self, into: &mut Vec<u8>) -> Result<(), NoMemory>
        ensures saved { OnOk result (into.new.items ≡ into.old.items ++ serial_bytes self.now) }
        ensures sound { OnOk result (IsSerial self.now) }
    {
        self.board.save_state(into)?;
        self.com1.save_state(into)
    }

    /// The chipset of this setup, with its port, whose state the bytes are: equal to the one that was saved.
    ///
    /// Refused as `Chipset::load_state` refuses: with the first field of the setup that no board can have; and then
    /// where the bytes are of another version of the format; and then with the offset of the first field that is not
    /// whole or out of range, of the chipset or of the port behind it, or of the first byte too many. NoMemory says
    /// nothing of the bytes.
    pub fn load_state(
        alloc: Global,
        setup: Setup,
        bytes: &[u8],
    ) -> Result<SerialBoard<Chipset>, StateFault>
        ensures loaded { IfOk result (λ serial. (serial.board.setup ≡ setup) × IsSerial serial
            × (serial_bytes serial ≡ bytes.now)) }
        ensures exact { (serial : Serial Running) → serial.board.setup ≡ setup → IsSerial serial
            → bytes.now ≡ serial_bytes serial → (result ≡ Ok serial) ⊎ (result ≡ Err StateFault.NoMemory) }
        ensures fits { (result ≡ Err StateFault.NoMemory → IsSetup setup)
            × ((fault : SetupFault) → result ≡ Err (StateFault.Setup fault) → IsSetupFault setup fault) }
        ensures other_version { (result ≡ Err StateFault.OtherVersion)
            ↔ IsSetup setup × (is_other_version bytes.now ≡ true) }
        ensures bad { (at : ℕ) → result ≡ Err (StateFault.Bad at) → IsBadSerialAt setup bytes.now at }
        ensures only_bad { (at : ℕ) → IsSetup setup → is_other_version bytes.now ≡ false
            → IsBadSerialAt setup bytes.now at
            → (result ≡ Err (StateFault.Bad at)) ⊎ (result ≡ Err StateFault.NoMemory) }
    {
        if let Err(fault) = setup.check() {
            return Err(StateFault::Setup(fault));
        }
        if is_other_version(bytes) {
            return Err(StateFault::OtherVersion);
        }
        load_version(alloc, setup, bytes)
    }

    /// The chipset of this setup, with its port, whose state is at the front of the bytes: equal to the one that was
    /// saved, so that each history which left that one leaves this one. Refused where a field is not whole or out of
    /// range, or the version is another: the bytes left then begin with the first such field.
    #[tactic(auto, unfolding(crate::specs::SerialState::serial_fields))]
    pub fn load_fields(
        alloc: Global,
        setup: Setup,
        fields: &mut Fields,
    ) -> Result<SerialBoard<Chipset>, Fault>
        requires fits { IsSetup setup }
        ensures loaded { LoadsSerial setup fields.old fields.new result }
    {
        let board = Chipset::load_fields(alloc, setup, fields)?;
        match Com1::load_state(fields) {
            Ok(com1) => Ok(SerialBoard { board, com1 }),
            Err(_) => Err(Fault::Bad),
        }
    }
}

/// The chipset of this setup, with its port, whose state is all that is left of the bytes.
#[tactic(auto, unfolding(board_chipset::specs::Alone::alone))]
fn read_alone(
    alloc: Global,
    setup: Setup,
    fields: &mut Fields,
) -> Result<SerialBoard<Chipset>, Fault>
    requires fits { IsSetup setup }
    ensures loaded { IfOk result (λ serial. (serial.board.setup ≡ setup) × IsSerial serial
        × (serial_bytes serial ≡ fields.old)) }
    ensures exact { (serial : Serial Running) → serial.board.setup ≡ setup → IsSerial serial
        → fields.old ≡ serial_bytes serial → (result ≡ Ok serial) ⊎ (result ≡ Err faults.NoMemory) }
    ensures filled { Filled bare_serial result fields.new (alone (serial_fields setup) fields.old) }
{
    let serial = SerialBoard::<Chipset>::load_fields(alloc, setup, fields)?;
    fields.end()?;
    Ok(serial)
}

/// The chipset of this setup, with its port, whose state the bytes are. Bad where they are of another version, too.
fn load_version(
    alloc: Global,
    setup: Setup,
    bytes: &[u8],
) -> Result<SerialBoard<Chipset>, StateFault>
    requires fits { IsSetup setup }
    ensures loaded { IfOk result (λ serial. (serial.board.setup ≡ setup) × IsSerial serial
        × (serial_bytes serial ≡ bytes.now)) }
    ensures exact { (serial : Serial Running) → serial.board.setup ≡ setup → IsSerial serial
        → bytes.now ≡ serial_bytes serial → (result ≡ Ok serial) ⊎ (result ≡ Err StateFault.NoMemory) }
    ensures bad { (at : ℕ) → result ≡ Err (StateFault.Bad at) → IsBadSerialAt setup bytes.now at }
    ensures only_bad { (at : ℕ) → IsBadSerialAt setup bytes.now at
        → (result ≡ Err (StateFault.Bad at)) ⊎ (result ≡ Err StateFault.NoMemory) }
    ensures only { IfErr result IsOfBytes }
{
    let mut fields = Fields::of(bytes);
    match read_alone(alloc, setup, &mut fields) {
        Ok(serial) => Ok(serial),
        Err(Fault::Bad) => Err(StateFault::Bad {
            at: bytes.len() - fields.len(),
        }),
        Err(Fault::NoMemory) => Err(StateFault::NoMemory),
    }
}
