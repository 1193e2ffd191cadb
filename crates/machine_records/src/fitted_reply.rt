//! The bytes of the cards' identities, and of their expansion ROMs, over the record of a reply.

ghost use Rattle.std.specs.Prelude.{◌≡◌, ◌≢◌, ◌<◌, [], true, Some};
ghost use Rattle.machine.specs.Roms.{roms_in};
ghost use Rattle.machine_records.specs.FittedReplies.{fitted_record, is_config_read, identified_by, identified_record};
ghost use Rattle.machine_records.specs.Statuses.{ok};

use crate::event::{EventRecord, width_of};
use crate::numbers::{BUS_REPLY, CONFIG_TARGET};
use crate::reply::ReplyRecord;
use crate::rom_reply::fit_roms;
use crate::status::OK;
use board_base::Width;
use machine::{FittedIdentity, Identity, Roms, identity_at};

/// Puts the bytes of the cards' identities and of their expansion ROMs into the record of a reply.
#[inline(always)]
pub(crate) fn fit_reply(
    identities: &[FittedIdentity],
    roms: &Option<Roms>,
    event: &EventRecord,
    status: u32,
    reply: &mut ReplyRecord,
)
    ensures fitted { status ≡ ok → reply.new ≡ fitted_record identities.now (roms_in roms.now) event.now reply.old }
    ensures same { status ≢ ok → reply.new ≡ reply.old }
{
    if status == OK && !is_unfitted(identities, roms) {
        fit(identities, roms, event, reply);
    }
}

/// Whether no card says what it is, and no ROM was given bytes.
#[inline(always)]
fn is_unfitted(identities: &[FittedIdentity], roms: &Option<Roms>) -> bool
    ensures said { result ≡ true → identities.now ≡ [] }
    ensures given { result ≡ true → roms_in roms.now ≡ [] }
{
    identities.is_empty() && roms.is_none()
}

/// The same where some are. It is not inlined: few boards have a card with either.
#[inline(never)]
fn fit(
    identities: &[FittedIdentity],
    roms: &Option<Roms>,
    event: &EventRecord,
    reply: &mut ReplyRecord,
)
    ensures fitted { reply.new ≡ fitted_record identities.now (roms_in roms.now) event.now reply.old }
{
    identify(identities, event, reply);
    fit_roms(roms, event, reply);
}

/// Puts the bytes of the cards' identities in the place of the fixed ones where the reply to an event is to a read of
/// configuration data. Every other reply stays as it is.
fn identify(identities: &[FittedIdentity], event: &EventRecord, reply: &mut ReplyRecord)
    ensures identified { reply.new ≡ identified_record identities.now event.now reply.old }
{
    if !is_config_read(reply) {
        return;
    }
    if let Some(identity) = identity_at(identities, reply.part0.unit) {
        identify_read(identity, width_of(event.bytes), reply);
    }
}

/// The same of a read of as many bytes as the width has, of a card with this identity.
fn identify_read(identity: &Identity, width: Option<Width>, reply: &mut ReplyRecord)
    requires within { reply.old.part0.offset < 256 }
    ensures identified { reply.new ≡ identified_by (Some identity.now) width reply.old }
{
    if let Some(width) = width {
        let value = (reply.value % 0x1_0000_0000) as u32;
        reply.value = u64::from(identity.over(reply.part0.offset as u8, width, value));
    }
}

/// Whether a reply is to a read of configuration data.
fn is_config_read(reply: &ReplyRecord) -> bool
    ensures read { result ≡ is_config_read reply.now }
{
    reply.form == BUS_REPLY
        && reply.has_value == 1
        && reply.part0.target == CONFIG_TARGET
        && reply.part0.offset < 0x100
}
