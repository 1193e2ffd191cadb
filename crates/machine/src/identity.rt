//! What a card says that it is.

ghost use Rattle.std.specs.Prelude.{◌≡◌};
ghost use Rattle.machine.specs.Header.{fields_of, is_blank, identity_byte};

use crate::field::{Field, field_at};

/// Where the fields lie in a configuration header (PCI Local Bus 2.1, section 6.2).
const VENDOR_ID: u8 = 0x00;

const DEVICE_ID: u8 = 0x02;

const REVISION_ID: u8 = 0x08;

const CLASS_CODE: u8 = 0x09;

const SUBSYSTEM_VENDOR_ID: u8 = 0x2C;

const SUBSYSTEM_ID: u8 = 0x2E;

const INTERRUPT_PIN: u8 = 0x3D;

/// What a card says that it is, in its configuration header: the vendor (00h) and its device (02h), the revision (08h),
/// the class with subclass and programming interface (09h, 24 bits), the subsystem's vendor (2Ch) and its number (2Eh),
/// and the interrupt pin (3Dh, 1 for INTA#). A field of 0 says nothing, and the card's bytes there stay those of the
/// board.
#[derive(Clone, Copy, PartialEq, Eq, Debug, Default)]
pub struct Identity {
    pub vendor_id: u16,
    pub device_id: u16,
    pub revision_id: u8,
    pub class_code: u32,
    pub subsystem_vendor_id: u16,
    pub subsystem_id: u16,
    pub interrupt_pin: u8,
}

/// The identity of the card at a device number.
#[derive(Clone, Copy, PartialEq, Eq, Debug, Default)]
pub struct FittedIdentity {
    pub dev: u8,
    pub identity: Identity,
}

impl Identity {
    /// Whether no field says anything.
    pub fn is_blank(&self) -> bool
        ensures blank { result ≡ is_blank self.now }
    {
        self.vendor_id == 0
            && self.device_id == 0
            && self.revision_id == 0
            && self.class_code == 0
            && self.subsystem_vendor_id == 0
            && self.subsystem_id == 0
            && self.interrupt_pin == 0
    }

    /// The byte at an offset of the header, where it was `old`.
    pub(crate) fn byte(&self, off: u32, old: u8) -> u8
        ensures byte { result ≡ identity_byte self.now off old }
    {
        for field in &self.fields() {
            if field.says(off) {
                return field.byte(off);
            }
        }
        old
    }

    fn fields(&self) -> [Field; 7]
        ensures fields { result ≡ fields_of self.now }
    {
        [
            field_at(VENDOR_ID, 2, self.vendor_id.into()),
            field_at(DEVICE_ID, 2, self.device_id.into()),
            field_at(REVISION_ID, 1, self.revision_id.into()),
            field_at(CLASS_CODE, 3, self.class_code),
            field_at(SUBSYSTEM_VENDOR_ID, 2, self.subsystem_vendor_id.into()),
            field_at(SUBSYSTEM_ID, 2, self.subsystem_id.into()),
            field_at(INTERRUPT_PIN, 1, self.interrupt_pin.into()),
        ]
    }
}
