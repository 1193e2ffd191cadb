//! The bytes of an image.

ghost use Rattle.std.specs.Prelude.{◌≡◌, ◌++◌, flat_map};

use std::marker::Model;

/// The bytes of an image, in pieces. Contracts see them joined.
#[derive(Drop)]
pub struct ImageBytes {
    /// The head, and the cards.
    pub(crate) front: Vec<u8>,
    pub(crate) rom: Vec<u8>,
    /// Empty where there is no disk.
    pub(crate) disk: Vec<u8>,
    pub(crate) steps: Vec<u8>,
}

impl Model for ImageBytes {
    ghost use Rattle.std.specs.Prelude.{◌++◌, ℕ, List};

    ghost Value = { List ℕ };

    ghost view = { λ bytes. bytes.front.items ++ (bytes.rom.items ++ (bytes.disk.items ++ bytes.steps.items)) };
}

impl ImageBytes {
    /// The pieces, in their order.
    pub fn pieces(&self) -> [&[u8]; 4]
        ensures bytes { flat_map (λ piece. piece.now) result ≡ self.now }
    {
        [&self.front, &self.rom, &self.disk, &self.steps]
    }

    /// The pieces, in their order, to keep.
    pub fn into_pieces(self) -> (Vec<u8>, Vec<u8>, Vec<u8>, Vec<u8>)
        ensures bytes { result.0.items ++ (result.1.items ++ (result.2.items ++ result.3.items)) ≡ self }
    {
        let ImageBytes {
            front,
            rom,
            disk,
            steps,
        } = self;
        (front, rom, disk, steps)
    }
}
