//! Publishers, viewers and notes may go to other threads. Each function passes its check only where its type may.
ghost use Rattle.std.specs.Prelude.{◌≡◌};

use crate::publisher::Publisher;
use crate::viewer::{Note, Viewer};

fn sent<X: Send>(x: X) -> X
    ensures same { result ≡ x }
{
    x
}

/// A publisher may go to another thread.
fn send_publisher(publisher: Publisher) -> Publisher
    ensures same { result ≡ publisher }
{
    sent(publisher)
}

/// A viewer may go to another thread.
fn send_viewer(viewer: Viewer) -> Viewer
    ensures same { result ≡ viewer }
{
    sent(viewer)
}

/// A note may go to another thread.
fn send_note(note: Note) -> Note
    ensures same { result ≡ note }
{
    sent(note)
}
