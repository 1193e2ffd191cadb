//! The rule of the published copies: whose they are.
use crate::shown::Shown;
use atomic_table::{Join, Split};
use crossbeam_utils::rule::{Outcome, Protocol};

/// What the publisher or a reader of the copies knows: nothing, or which list the copies follow. No value of it is
/// made.
pub struct Name {
    pub named: bool,
    pub number: u64,
    pub log_name: u64,
    pub cells_name: u64,
}

/// What each of them knows is true: the published map is that of a beginning of the list that it knows.
pub struct Published;

impl Protocol<Shown, Name> for Published {
    ghost use Rattle.map_publish.specs.Names.{AllKnow, nobody};

    ghost holds = { AllKnow };

    ghost first = { nobody };
}

/// A publish after which the publisher knows the list that the copies follow.
pub struct Names;

impl Outcome<Shown, Name> for Names {
    ghost use Rattle.map_publish.specs.Names.{LearnsName};

    ghost then = { LearnsName };
}

/// A publish, or an entry of a reader, after which each knows what it knew before.
pub struct Stays;

impl Outcome<Shown, Name> for Stays {
    ghost use Rattle.map_publish.specs.Names.{Stays};

    ghost then = { Stays };
}

/// The publisher passes what it knows on to a reader.
pub struct Tells;

impl Split<Name> for Tells {
    ghost left = { λ given. given };

    ghost right = { λ given. given };
}

impl Join<Name> for Tells {
    ghost use Rattle.map_publish.specs.Names.{nobody};

    ghost both = { λ given told. told };

    ghost spent = { nobody };
}
