//! Why a command ends with an error.

ghost use Rattle.std.specs.Prelude.{◌≡◌};
ghost use Rattle.ata_pio.specs.View.{error_of};

/// Why a command ends with an error: ABRT, IDNF or UNC of the error register.
#[derive(Clone, Copy, PartialEq, Eq, Debug)]
pub enum Fault {
    Aborted,
    NotFound,
    Uncorrectable,
}

impl Fault {
    /// The byte of the error register.
    pub fn error(self) -> u8
        ensures error { result ≡ error_of self }
    {
        match self {
            Fault::Aborted => 0x04,
            Fault::NotFound => 0x10,
            Fault::Uncorrectable => 0x40,
        }
    }
}
