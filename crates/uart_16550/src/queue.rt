//! The queue itself.

ghost use Rattle.std.specs.Prelude.{◌≡◌, ◌≤◌, ◌<◌, ◌++◌, ◌∷◌, [], length};
ghost use Rattle.uart_16550.specs.Queue.{front_of, rest_of};

use arrayvec::ArrayVec;
use std::marker::Model;

/// The most bytes that it holds: those of the receiver's FIFO.
pub const FIFO_SIZE: usize = 16;

/// At most 16 bytes, the first to come in front. Contracts see the list of them.
#[derive(Drop)]
pub struct Queue {
    bytes: ArrayVec<u8, FIFO_SIZE>,
}

impl Model for Queue {
    ghost use Rattle.std.specs.Prelude.{ℕ, List};

    ghost Value = { List ℕ };

    ghost view = { λ queue. queue.bytes.items };
}

impl Queue {
    /// The empty queue.
    pub fn new() -> Queue
        ensures empty { result ≡ [] }
    {
        Queue {
            bytes: ArrayVec::new(),
        }
    }

    /// The queue of these bytes, of which there are at most 16.
    pub fn of(bytes: &[u8]) -> Queue
        requires few { length bytes.now ≤ 16 }
        ensures bytes { result ≡ bytes.now }
    {
        let mut queue = ArrayVec::new();
        queue.try_extend_from_slice(bytes).unwrap();
        Queue { bytes: queue }
    }

    /// The bytes.
    pub fn bytes(&self) -> &[u8]
        ensures bytes { result.now ≡ self.now }
        ensures most { length result.now ≤ 16 }
    {
        &self.bytes
    }

    /// How many bytes there are.
    pub fn len(&self) -> usize
        ensures len { result ≡ length self.now }
        ensures most { result ≤ 16 }
    {
        self.bytes.len()
    }

    /// Puts a byte at the end.
    pub fn push(&mut self, byte: u8)
        requires room { length self.old < 16 }
        ensures bytes { self.new ≡ self.old ++ byte ∷ [] }
    {
        self.bytes.push(byte);
    }

    /// Takes the front, and 0 where there is none.
    pub fn pop(&mut self) -> u8
        ensures front { result ≡ front_of self.old }
        ensures rest { self.new ≡ rest_of self.old }
    {
        self.bytes.pop_at(0).unwrap_or(0)
    }

    /// Drops all bytes.
    pub fn clear(&mut self)
        ensures empty { self.new ≡ [] }
    {
        self.bytes.clear();
    }
}
