//! A text.

ghost use Rattle.std.specs.Prelude.{◌≡◌, ℕ, List};
ghost use Rattle.std.specs.String.{string_bytes};

use std::marker::Model;

/// A text; that of `log_line` has no line feed. Contracts see it as its bytes.
#[derive(Drop)]
pub struct Line {
    text: String,
}

impl Model for Line {
    ghost Value = { List ℕ };

    ghost view = { λ line. string_bytes line.text };
}

impl Line {
    /// This text.
    pub fn new(text: String) -> Line
        ensures bytes { result ≡ string_bytes text }
    {
        Line { text }
    }

    /// The text as a string slice.
    pub fn as_str(&self) -> &str
        ensures text { result.now ≡ self.now }
    {
        self.text.as_str()
    }

    /// The bytes of the text.
    pub fn as_bytes(&self) -> &[u8]
        ensures bytes { result.now ≡ self.now }
    {
        self.text.as_bytes()
    }
}
