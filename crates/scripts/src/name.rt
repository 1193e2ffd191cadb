//! The name of a file, as a script gives it.

ghost use Rattle.std.specs.Prelude.{◌≡◌, ℕ, List, IfOk, string_bytes};
ghost use Rattle.script_spec.specs.Grammar.{IsName};

use std::alloc::{AllocError, Global};
use std::marker::Model;

/// The name of a file, which contracts see as its bytes.
#[derive(Drop)]
pub struct Name {
    text: String,
}

impl Model for Name {
    ghost Value = { List ℕ };

    ghost view = { λ name. string_bytes name.text };
}

impl Name {
    /// The name with these bytes, which are all ASCII.
    #[tactic(auto, using(crate::proofs::NameLemmas::name_is_text))]
    pub fn new(alloc: Global, bytes: &[u8]) -> Result<Name, AllocError>
        requires { IsName bytes.now }
        ensures name { IfOk result (λ name. name ≡ bytes.now) }
    {
        let text = String::from_utf8_lossy(alloc, bytes)?;
        Ok(Name { text })
    }

    /// The name as text.
    pub fn as_str(&self) -> &str
        ensures text { result.now ≡ self.now }
    {
        self.text.as_str()
    }
}
