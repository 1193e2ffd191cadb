//! Turns, passes and held values may cross threads. The check of each function is that its bounds are met.
ghost use Rattle.std.specs.Prelude.{◌≡◌};

use crate::kept::Kept;
use crate::turn::{Held, Turn};
use crate::view::Pass;

fn sent<X: Send>(x: X) -> X
    ensures same { result ≡ x }
{
    x
}

fn shared<X: Sync>(x: &X) -> &X
    ensures same { result.now ≡ x.now }
{
    x
}

/// A turn may go to another thread.
pub fn send_turn<T: Kept + Send>(turn: Turn<T>) -> Turn<T>
    ensures same { result ≡ turn }
{
    sent(turn)
}

/// Threads may share a turn.
pub fn share_turn<T: Kept + Send>(turn: &Turn<T>) -> &Turn<T>
    ensures same { result.now ≡ turn.now }
{
    shared(turn)
}

/// A pass may go to another thread.
pub fn send_pass<T: Kept + Send>(pass: Pass<T>) -> Pass<T>
    ensures same { result ≡ pass }
{
    sent(pass)
}

/// A value may go to another thread while the turn is held.
pub fn send_held<T: Kept + Send>(held: Held<T>) -> Held<T>
    ensures same { result ≡ held }
{
    sent(held)
}
