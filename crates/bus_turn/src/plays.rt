//! What each step on the table makes known. These types are for the proofs alone.
ghost use Rattle.std.specs.Prelude.{List, []};
ghost use Rattle.bus_turn.specs.Plays.{drew, called, counted, gave, looked};
ghost use Rattle.bus_turn.specs.Views.{after_split, split_off, with_joined, spent};

use crate::kept::Kept;
use crate::view::View;
use atomic_table::{Join, Play, Split};
use std::marker::{Brand, PhantomData};

/// Draws a ticket.
pub(crate) struct Draw;

impl<T: Kept> Play<Option<T>, View<T::Entry, T::Fixed>> for Draw {
    ghost then = { drew };
}

/// Looks which ticket is served, and takes the slot where it is the pass's own.
pub(crate) struct Call;

impl<T: Kept> Play<Option<T>, View<T::Entry, T::Fixed>> for Call {
    ghost then = { called T.entries T.actor T.fixed };
}

/// The entries that a commit adds, for the proof alone. The call at `Brand` picks them.
pub(crate) trait Said<E> {
    ghost added: { List E };
}

impl<E> Said<E> for Brand {
    ghost added = { [] };
}

/// Counts the entries of `W`.
pub(crate) struct Count<W> {
    said: PhantomData<W>,
}

impl<T: Kept, W: Said<T::Entry>> Play<Option<T>, View<T::Entry, T::Fixed>> for Count<W> {
    ghost then = { counted W.added };
}

/// Puts the slot back, and has the next ticket served.
pub(crate) struct Give;

impl<T: Kept> Play<Option<T>, View<T::Entry, T::Fixed>> for Give {
    ghost then = { gave };
}

/// Sees the list as it is.
pub(crate) struct Look;

impl<T: Kept> Play<Option<T>, View<T::Entry, T::Fixed>> for Look {
    ghost then = { looked };
}

/// A further caller.
pub(crate) struct Branch;

impl<E, F> Split<View<E, F>> for Branch {
    ghost left = { after_split };

    ghost right = { split_off };
}

/// Takes in what another pass knows.
pub(crate) struct Absorb;

impl<E, F> Join<View<E, F>> for Absorb {
    ghost both = { with_joined };

    ghost spent = { spent };
}
