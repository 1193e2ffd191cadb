//! What stands in front of the state of a running board.

ghost use Rattle.std.specs.Prelude.{◌≡◌, ◌++◌, true, false, OnOk, length, ◌≤◌};
ghost use Rattle.board_prelude.specs.{IsSetup};
ghost use Rattle.byte_fields.specs.Fields.{Filled, Took};
ghost use Rattle.byte_fields.specs.Loads.{LoadsWith, OneSpelling};
ghost use Rattle.machine.specs.Fitted.{IsFitting, IsOtherVersion, fitting_bytes, fitting_fields, version_field};
ghost use Rattle.machine.specs.Setups.{disk_unless_left};

use crate::identities::{MOST_CARDS, are_identities, push_identities, read_identities};
use crate::identity::FittedIdentity;
use crate::setup_reader::setup;
use crate::setup_writer::push_setup;
use arrayvec::ArrayVec;
use board_base::NoMemory;
use board_chipset::Setup;
use byte_fields::{Bad, Fault, Fields, push_bytes, push_half};
use std::alloc::Global;
use std::marker::Model;

/// What the bytes of a running board begin with.
pub const MAGIC: [u8; 8] = *b"BOARDRUN";

/// The version of their format, which counts each change of the state behind it too.
pub const VERSION: u16 = 1;

/// What a board is fitted with, and what its cards say that they are.
#[derive(Drop)]
pub struct Fitted {
    pub setup: Setup,
    pub identities: ArrayVec<FittedIdentity, MOST_CARDS>,
}

impl Model for Fitted {
    ghost use Rattle.machine.specs.Fitted.{Fitting};

    ghost Value = { Fitting };

    ghost view = { λ fitted. record { setup = fitted.setup; identities = fitted.identities.items } };
}

/// Adds the mark, the version, the setup, and what the cards say. Where the bytes of the disk are left out, zeros stand
/// in their place.
pub fn push_fitted(
    into: &mut Vec<u8>,
    setup: &Setup,
    identities: &[FittedIdentity],
    left: bool,
) -> Result<(), NoMemory>
    requires fits { IsSetup setup.now }
    requires few { length identities.now ≤ 8 }
    ensures added { OnOk result (into.new.items ≡ into.old.items
        ++ fitting_bytes (record { setup = disk_unless_left left setup.now; identities = identities.now })) }
    ensures sound { IsFitting (record { setup = setup.now; identities = identities.now }) }
{
    are_identities(identities);
    push_bytes(into, &MAGIC)?;
    push_half(into, VERSION)?;
    push_setup(into, setup, left)?;
    push_identities(into, identities)
}

/// Reads the mark, the version, the setup, and what the cards say. Refused where a field is not whole or out of range:
/// the bytes left then begin with the first such field.
pub fn read_fitted(alloc: Global, fields: &mut Fields) -> Result<Fitted, Fault>
    ensures loaded { LoadsWith fitting_fields fitting_bytes IsFitting fields.old fields.new result }
{
    fields.are_bytes();
    read(alloc, fields)
}

/// Reads the fields one after another.
#[tactic(auto, unfolding(crate::specs::Fitted::fitting_fields))]
fn read(alloc: Global, fields: &mut Fields) -> Result<Fitted, Fault>
    ensures filled { Filled (λ fitted. fitted) result fields.new (fitting_fields fields.old) }
{
    fields.exactly(&MAGIC)?;
    fields.half(VERSION, VERSION)?;
    let setup = setup(alloc, fields)?;
    let identities = read_identities(fields)?;
    Ok(Fitted { setup, identities })
}

/// Whether bytes begin with the mark and with the number of another version.
pub fn is_other_version(bytes: &[u8]) -> bool
    ensures other { result ≡ true → IsOtherVersion bytes.now }
    ensures no_other { result ≡ false → ¬ IsOtherVersion bytes.now }
{
    let mut fields = Fields::of(bytes);
    match read_version(&mut fields) {
        Ok(number) => number != VERSION,
        Err(_) => false,
    }
}

/// Reads the mark, and the number of a version.
#[tactic(auto, unfolding(crate::specs::Fitted::version_field))]
fn read_version(fields: &mut Fields) -> Result<u16, Bad>
    ensures took { Took (λ number. number) result fields.new (version_field fields.old) }
{
    fields.exactly(&MAGIC)?;
    fields.half(0, u16::MAX)
}

/// One spelling is of one setup and its identities.
#[tactic(auto, using(byte_fields::proofs::Loaded::one_spelling, crate::proofs::FittedFormat::fitting_format))]
pub fn law_one_fitting()
    ensures one { OneSpelling fitting_bytes IsFitting }
{}
