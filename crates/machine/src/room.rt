//! Puts bytes into a room.

ghost use Rattle.std.specs.Prelude.{◌≡◌, ◌+◌, ◌≤◌, length};
ghost use Rattle.machine.specs.Room.{IsPutAt};

/// Puts bytes into the room from a place on, and returns where they end.
pub fn put(into: &mut [u8], at: usize, bytes: &[u8]) -> usize
    requires room { at + length bytes.now ≤ length into.old }
    ensures put { IsPutAt at bytes.now into.old into.new }
    ensures end { result ≡ at + length bytes.now }
    ensures size { length into.new ≡ length into.old }
{
    let end = at + bytes.len();
    into[at..end].copy_from_slice(bytes);
    end
}
