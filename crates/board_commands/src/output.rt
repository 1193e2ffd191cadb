//! A whole text, put piece by piece to a sink.

ghost use Rattle.std.specs.Prelude.{◌≡◌, ◌≤◌, drop, length, IfErr, OnOk, OnErr};
ghost use Rattle.board_prelude.specs.{Appends};
ghost use Rattle.board_outside.specs.Outside.{Rose};
ghost use Rattle.board_commands.specs.Output.{AppendsFront};
ghost use Rattle.command_files.specs.Calls.{OfCalls};
ghost use Rattle.board_commands.specs.Puts.{PutsBy};

use board_outside::{PutFault, Sink};
use logs::Text;

/// The bytes that are left after the first `count`.
fn after(bytes: &[u8], count: usize) -> &[u8]
    requires { count ≤ length bytes.now }
    ensures rest { result.now ≡ drop count bytes.now }
{
    &bytes[count..]
}

/// Puts a whole piece, in as many calls as the sink needs, none for an empty piece. Where the sink refuses, what it
/// took before is a front of the piece.
#[tactic(auto, using(crate::proofs::PutLemmas::put_piece_rules))]
fn put_piece<K: Sink>(out: &mut K, piece: &[u8]) -> Result<(), PutFault>
    ensures whole { OnOk result (Appends (K.taken out.old) (K.taken out.new) piece.now) }
    ensures front { OnErr result (AppendsFront (K.taken out.old) (K.taken out.new) piece.now) }
    ensures failed { IfErr result (λ fault. fault ≡ PutFault.Failed → Rose (K.faults out.old) (K.faults out.new)) }
    ensures later { K.faults out.old ≤ K.faults out.new }
    ensures quiet { OnOk result (K.faults out.new ≡ K.faults out.old) }
    ensures no_fault { IfErr result (λ fault. fault ≡ PutFault.NoMemory → K.faults out.new ≡ K.faults out.old) }
    ensures puts { OfCalls (K.puts out.old) (K.puts out.new) (PutsBy result) }
{
    let mut rest = piece;
    while !rest.is_empty() {
        let taken = out.put(rest)?;
        rest = after(rest, taken);
    }
    Ok(())
}

/// Puts a whole text. Where the sink refuses a piece, what it took before is a front of the text.
pub(crate) fn put_all<K: Sink>(out: &mut K, text: &Text) -> Result<(), PutFault>
    ensures whole { OnOk result (Appends (K.taken out.old) (K.taken out.new) text.now) }
    ensures front { OnErr result (AppendsFront (K.taken out.old) (K.taken out.new) text.now) }
    ensures failed { IfErr result (λ fault. fault ≡ PutFault.Failed → Rose (K.faults out.old) (K.faults out.new)) }
    ensures later { K.faults out.old ≤ K.faults out.new }
    ensures quiet { OnOk result (K.faults out.new ≡ K.faults out.old) }
    ensures no_fault { IfErr result (λ fault. fault ≡ PutFault.NoMemory → K.faults out.new ≡ K.faults out.old) }
    ensures puts { OfCalls (K.puts out.old) (K.puts out.new) (PutsBy result) }
{
    for piece in text.pieces() {
        put_piece(out, piece)?;
    }
    Ok(())
}
