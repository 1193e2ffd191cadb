//! What a pass knows, and the rule of the table behind a turn.
use crate::kept::Kept;
use atomic_table::{Seat, TableRule};
use std::collections::LinkedList;
use std::snapshot::Snapshot;

/// Where a pass stands: it holds no turn, it has drawn a ticket, it holds the turn, or it was joined into another.
pub enum Stage {
    Idle,
    Waits(u64),
    Holds,
    Spent,
}

/// What a pass knows. No value of it is made: it is for contracts alone.
pub struct View<E, F> {
    /// The pass of `open` has 0, and those that are split from it have 1, 2 and so on.
    pub number: u64,
    pub stage: Stage,
    /// How many passes were split from this one.
    pub splits: u64,
    /// The list of the value that `open` took.
    pub opened: LinkedList<E>,
    /// The fixed part of the value that `open` took.
    pub fixed: Option<F>,
    /// The list as the caller has seen it.
    pub seen: LinkedList<E>,
    /// What a pass had seen that was just joined into this one.
    pub told: LinkedList<E>,
    /// The entries that were committed with this pass, in their order.
    pub mine: LinkedList<E>,
    /// The numbers of the passes that were joined into this one, each with its entries.
    pub joined: LinkedList<(u64, LinkedList<E>)>,
}

/// What one caller knows of a turn. It has no bytes.
pub type Pass<T> = Seat<Option<T>, View<<T as Kept>::Entry, <T as Kept>::Fixed>>;

/// The rule of the table: one order of all entries.
pub struct Order;

impl<T: Kept> TableRule<Option<T>, View<T::Entry, T::Fixed>, Snapshot<T>> for Order {
    ghost use Rattle.bus_turn.specs.Rule.{Ruled};
    ghost use Rattle.bus_turn.specs.Views.{starting};

    ghost holds = { λ key. Ruled T.entries T.actor T.fixed (T.entries key.value) (T.fixed key.value) };

    ghost first = { λ key. starting (T.entries key.value) (T.fixed key.value) };
}
