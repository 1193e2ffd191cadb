//! The bytes of an identity in a value that was read.

ghost use Rattle.std.specs.Prelude.{◌≡◌, ◌<◌, ◌+◌, Some, option_map};
ghost use Rattle.board_prelude.specs.{byte};
ghost use Rattle.machine.specs.Header.{identity_byte};
ghost use Rattle.machine.specs.IdentityBytes.{identity_at, with_identity};

use crate::field::byte_of;
use crate::identity::{FittedIdentity, Identity};
use board_base::Width;
use board_spec::wide::read_at;

/// The identity of the card at a device number, where it has one.
#[tactic(auto, using(crate::proofs::Walks::find_next))]
pub fn identity_at(identities: &[FittedIdentity], dev: u8) -> Option<&Identity>
    ensures identity { option_map (λ identity. identity.now) result ≡ identity_at identities.now dev }
{
    for card in identities {
        if card.dev == dev {
            return Some(&card.identity);
        }
    }
    None
}

impl Identity {
    /// The bytes from an offset of the header on, as many as the width has, that a board read with this value, with
    /// those of the identity in their places.
    #[tactic(auto, unfolding(crate::specs::IdentityBytes::with_identity))]
    pub fn over(&self, off: u8, width: Width, value: u32) -> u32
        ensures value { result ≡ with_identity (Some self.now) off width value }
    {
        let bytes = [
            byte_at(self, off, value, 0),
            byte_at(self, off, value, 1),
            byte_at(self, off, value, 2),
            byte_at(self, off, value, 3),
        ];
        read_at(&bytes, 0, width)
    }
}

/// Byte `place`, 0 to 3, of a value that was read from an offset on, with the identity's in its place.
fn byte_at(identity: &Identity, off: u8, value: u32, place: u8) -> u8
    requires place { place < 4 }
    ensures byte { result ≡ identity_byte identity.now (off + place) (byte value place) }
{
    let place = u32::from(place);
    identity.byte(u32::from(off) + place, byte_of(value, place))
}
