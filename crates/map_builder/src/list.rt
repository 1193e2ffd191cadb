//! A list with room for a fixed number of elements. It is shortened without writing to them.
ghost use Rattle.std.specs.Prelude.{◌≡◌, ◌+◌, ◌<◌, ◌≤◌, ◌++◌, [], ◌∷◌, length, take, slice_set};

use std::marker::Model;

/// A list of at most `CAP` elements. To drop its last ones it sets the length alone, where an `ArrayVec` writes each.
#[derive(Drop)]
pub struct FixedList<T, const CAP: usize> {
    cells: [T; CAP],
    len: usize,
}

impl<T, const CAP: usize> Model for FixedList<T, CAP> {
    ghost use Rattle.std.specs.Prelude.{◌≡◌, ◌≤◌, length, take};
    ghost use Rattle.arrayvec.specs.ArrayVec.{ArrayVec as Items, array_vec_code};

    ghost Value = { Items T };

    ghost coded = { array_vec_code T.code };

    ghost view = { λ list. record { items = take list.len list.cells } };

    ghost invariant = { λ list. (list.len ≤ CAP) × (length list.cells ≡ CAP) };
}

impl<T: Copy + Default + Drop, const CAP: usize> FixedList<T, CAP> {
    /// The empty list.
    pub fn new() -> FixedList<T, CAP>
        ensures items { result.items ≡ [] }
    {
        FixedList {
            cells: Default::default(),
            len: 0,
        }
    }

    /// The elements.
    pub fn as_slice(&self) -> &[T]
        ensures items { result.now ≡ self.now.items }
        ensures fits { length result.now ≤ CAP }
    {
        &self.cells[..self.len]
    }

    /// Adds an element at the end.
    pub fn push(&mut self, element: T)
        requires room { length self.old.items < CAP }
        ensures items { self.new.items ≡ self.old.items ++ element ∷ [] }
    {
        let len = self.len;
        self.cells[len] = element;
        self.len = len + 1;
    }

    /// Replaces the element at an index below the length.
    pub fn set(&mut self, index: usize, element: T)
        requires within { index < length self.old.items }
        ensures items { self.new.items ≡ slice_set self.old.items index element }
    {
        let cells = &mut self.cells[..self.len];
        cells[index] = element;
    }

    /// Adds these elements at the end.
    pub fn extend(&mut self, elements: &[T])
        requires room { length self.old.items + length elements.now ≤ CAP }
        ensures items { self.new.items ≡ self.old.items ++ elements.now }
    {
        let len = self.len;
        let end = len + elements.len();
        let cells = &mut self.cells[..];
        cells[len..end].copy_from_slice(elements);
        self.len = end;
    }

    /// Keeps the first `len` elements alone.
    pub fn truncate(&mut self, len: usize)
        ensures items { self.new.items ≡ take len self.old.items }
        ensures fits { length self.old.items ≤ CAP }
    {
        self.len = self.len.min(len);
    }
}
