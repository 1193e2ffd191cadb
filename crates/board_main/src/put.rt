//! Texts that the program puts itself.

ghost use Rattle.std.specs.Prelude.{◌≡◌, ◌++◌, ◌≤◌, drop, length};
ghost use Rattle.board_main.specs.Outputs.{IsPut, out_call};

use board_files::OutSink;
use board_outside::{Failed, Sink};
use std::io::Write;

/// The bytes that are left after the first `count`.
fn after(bytes: &[u8], count: usize) -> &[u8]
    requires { count ≤ length bytes.now }
    ensures rest { result.now ≡ drop count bytes.now }
{
    &bytes[count..]
}

/// Puts a whole text, in as many calls as the output needs.
#[tactic(auto, using(board_commands::proofs::SentLemmas::then_sent))]
pub fn put_text<W: Write>(out: &mut OutSink<W>, text: &str) -> Result<(), Failed>
    ensures put { IsPut result text.now (out_call W.contents out.old out.new) }
{
    let mut rest = text.as_bytes();
    while !rest.is_empty() {
        let Ok(taken) = out.put(rest) else {
            return Err(Failed);
        };
        rest = after(rest, taken);
    }
    Ok(())
}

/// Puts one text after another.
#[tactic(auto, using(crate::proofs::Puts::put_more, crate::proofs::Puts::put_stopped))]
pub fn put_two<W: Write>(out: &mut OutSink<W>, first: &str, second: &str) -> Result<(), Failed>
    ensures put { IsPut result (first.now ++ second.now) (out_call W.contents out.old out.new) }
{
    put_text(out, first)?;
    put_text(out, second)
}

/// Puts three texts, one after another.
#[tactic(auto, using(crate::proofs::Puts::put_more, crate::proofs::Puts::put_stopped))]
pub fn put_three<W: Write>(
    out: &mut OutSink<W>,
    first: &str,
    second: &str,
    third: &str,
) -> Result<(), Failed>
    ensures put { IsPut result (first.now ++ (second.now ++ third.now)) (out_call W.contents out.old out.new) }
{
    put_text(out, first)?;
    put_two(out, second, third)
}
