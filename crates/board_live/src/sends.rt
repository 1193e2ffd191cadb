//! A shared board and its callers may cross threads. The check of each function is that its bound is met.
ghost use Rattle.std.specs.Prelude.{◌≡◌};

use crate::cpu::Cpu;
use crate::live::Live;
use board_core::Steps;

/// The value itself, of a type that may go to another thread.
fn sent<X: Send>(x: X) -> X
    ensures same { result ≡ x }
{
    x
}

/// The reference itself, to a type that threads may share.
fn lent<X: Sync>(x: &X) -> &X
    ensures same { result.now ≡ x.now }
{
    x
}

/// A caller may go to another thread.
fn send_cpu<B: Steps + Send>(cpu: Cpu<B>) -> Cpu<B>
    ensures same { result ≡ cpu }
{
    sent(cpu)
}

/// A shared board may go to another thread.
fn send_live<B: Steps + Send>(live: Live<B>) -> Live<B>
    ensures same { result ≡ live }
{
    sent(live)
}

/// Threads may share a shared board.
fn share_live<B: Steps + Send>(live: &Live<B>) -> &Live<B>
    ensures same { result.now ≡ live.now }
{
    lent(live)
}
