//! Bytes that are kept in pieces, so that none of them is copied to join them.

ghost use Rattle.std.specs.Prelude.{◌≡◌, ◌++◌, string_bytes, IfOk, OnOk, OnErr};
ghost use Rattle.logs.specs.Text.{joined};

use board_base::NoMemory;
use std::alloc::Global;
use std::marker::Model;

/// A text in pieces, one after another, which need not be UTF-8. Contracts see it as the bytes of them all.
#[derive(Drop)]
pub struct Text {
    pieces: Vec<Vec<u8>>,
}

impl Model for Text {
    ghost use Rattle.std.specs.Prelude.{ℕ, List};
    ghost use Rattle.logs.specs.Text.{joined};

    ghost Value = { List ℕ };

    ghost view = { λ text. joined text.pieces.items };
}

impl Text {
    /// A text of one piece.
    pub fn whole(alloc: Global, piece: String) -> Result<Text, NoMemory>
        ensures bytes { IfOk result (λ text. text ≡ string_bytes piece) }
    {
        Text::of_bytes(alloc, piece.into_bytes())
    }

    /// A text of one piece, which need not be UTF-8.
    pub fn of_bytes(alloc: Global, piece: Vec<u8>) -> Result<Text, NoMemory>
        ensures bytes { IfOk result (λ text. text ≡ piece.items) }
    {
        let mut pieces = Vec::new(alloc);
        pieces.push(piece)?;
        Ok(Text { pieces })
    }

    /// Adds a piece after the others. Where there is no memory the text is as before.
    pub fn push(&mut self, piece: String) -> Result<(), NoMemory>
        ensures added { OnOk result (self.new ≡ self.old ++ string_bytes piece) }
        ensures same { OnErr result (self.new ≡ self.old) }
    {
        self.push_bytes(piece.into_bytes())
    }

    /// Adds a piece, which need not be UTF-8, after the others. Where there is no memory the text is as before.
    pub fn push_bytes(&mut self, piece: Vec<u8>) -> Result<(), NoMemory>
        ensures added { OnOk result (self.new ≡ self.old ++ piece.items) }
        ensures same { OnErr result (self.new ≡ self.old) }
    {
        self.pieces.push(piece)?;
        Ok(())
    }

    /// The pieces, in their order.
    pub fn pieces(&self) -> &[Vec<u8>]
        ensures bytes { joined result.now ≡ self.now }
    {
        &self.pieces
    }
}
