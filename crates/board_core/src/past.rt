//! A list that contracts alone see.
ghost use Rattle.std.specs.Prelude.{◌≡◌, List, [], ◌∷◌};
ghost use Rattle.std.specs.Borrow.{ftrue};

use std::marker::{Model, PhantomData};

/// A list that contracts alone see, the newest first. It takes no memory, and its calls do nothing.
#[derive(Drop)]
pub struct Past<E> {
    of: PhantomData<E>,
    pub ghost entries: { List E },
}

impl<E> Model for Past<E> {
    ghost also_owns = { λ _. ftrue };
}

// It owns nothing.
unsafe impl<E: Send> Send for Past<E> {}

impl<E> Past<E> {
    /// A list without elements.
    pub fn new() -> Past<E>
        ensures empty { result.entries ≡ [] }
    {
        Past { of: PhantomData }
    }

    /// The list with one more.
    #[inline]
    pub fn and(&self, entry: &E) -> Past<E>
        ensures more { result.entries ≡ entry.now ∷ self.now.entries }
    {
        Past { of: PhantomData }
    }
}
