//! Fields of a line.

ghost use Rattle.std.specs.Prelude.{◌≡◌, ℕ, [], ◌∷◌, List, option_map, MatchOption};
ghost use Rattle.script_spec.specs.Fields.{fields_of, only_of};

use std::marker::Model;

/// The fields of a line that are still to be read. Between two of them one space stands.
#[derive(Drop)]
pub struct Fields<'a> {
    rest: Option<&'a [u8]>,
}

impl<'a> Model for Fields<'a> {
    ghost use Rattle.std.specs.Prelude.{ℕ, List, option_map};
    ghost use Rattle.script_spec.specs.Fields.{fields_in};

    ghost Value = { List (List ℕ) };

    ghost view = { λ fields. fields_in (option_map (λ rest. rest.now) fields.rest) };
}

impl<'a> Fields<'a> {
    /// All fields of a line.
    pub fn of(line: &'a [u8]) -> Fields<'a>
        ensures all { result ≡ fields_of line.now }
    {
        Fields { rest: Some(line) }
    }

    /// The next field and those after it. None where no field is left.
    pub fn next(self) -> Option<(&'a [u8], Fields<'a>)>
        ensures next { MatchOption result (self.entry ≡ []) (λ p. self.entry ≡ p.0.now ∷ p.1) }
    {
        let rest = self.rest?;
        match rest.iter().position(|byte| *byte == b' ') {
            Some(end) => Some((&rest[..end], Fields::of(&rest[end + 1..]))),
            None => Some((rest, Fields { rest: None })),
        }
    }

    /// None where a field is left.
    pub fn end(self) -> Option<()>
        ensures end { MatchOption result ((field : List ℕ) × (later : List (List ℕ)) × (self.entry ≡ field ∷ later))
            (λ done. self.entry ≡ []) }
    {
        match self.next() {
            None => Some(()),
            Some(_) => None,
        }
    }

    /// The field that is left, where it is one.
    pub fn only(self) -> Option<&'a [u8]>
        ensures only { option_map (λ field. field.now) result ≡ only_of self.entry }
    {
        let (field, later) = self.next()?;
        later.end()?;
        Some(field)
    }
}
