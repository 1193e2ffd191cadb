//! The text of the script: its setup, the statements that program the board, and the rounds.

ghost use Rattle.std.specs.Prelude.{◌≡◌, ◌+◌, ◌*◌, ◌%◌, [], ◌∷◌, ◌++◌, OnOk, OnErr, IfOk};
ghost use Rattle.board_spec.specs.Text.{space, line_feed, hex_long};
ghost use Rattle.script_spec.specs.Lines.{text_of_lines};
ghost use Rattle.logs.specs.Adds.{AddsWords, KeepsFront};
ghost use Rattle.make_script.specs.MakeText.{setup_lines, opening_lines, round_lines, make_text};

use board_base::NoMemory;
use logs::{Line, push_hex_long, push_words};
use std::alloc::Global;

/// The setup, and the line of the phase.
const SETUP: &str = "\
board 1
cpus 2
memory 16
rom make.rom
disk make.disk
card 2 vga m20
card 3 plain m12 i4
phase
";

/// The 47 statements that program the board.
const OPENING: &str = "\
0 out d 0CF8 80000060
0 out d 0CFC 02020202
0 out d 0CF8 80000064
0 out d 0CFC 02020202
0 out d 0CF8 80000058
0 out b 0CFD 20
0 r d 000F0000
0 w d 000F0000 03020100
0 out b 0CFD 10
0 out d 0CF8 80001010
0 out d 0CFC E0000000
0 out d 0CF8 80001004
0 out b 0CFC 03
0 out d 0CF8 80001810
0 out d 0CFC E0100000
0 out d 0CF8 80001814
0 out d 0CFC 0000C000
0 out d 0CF8 80001804
0 out b 0CFC 03
0 out d 0CF8 80000070
0 out b 0CFE 18
0 out d 0CF8 80000904
0 out b 0CFC 01
0 out d 0CF8 80000940
0 out w 0CFC 8000
0 out b 0020 11
0 out b 0021 20
0 out b 0021 04
0 out b 0021 01
0 out b 00A0 11
0 out b 00A1 28
0 out b 00A1 02
0 out b 00A1 01
0 out b 0043 34
0 out b 0040 04
0 out b 0040 00
0 pulse 1
0 moment 2024-02-29T12:00:00
0 w b 000A0000 C3 smm
0 out b 03F6 02
0 out b 01F6 E0
0 out b 01F2 01
0 out b 01F3 05
0 out b 01F4 00
0 out b 01F5 00
0 out b 01F7 20
0 in d 01F0
";

/// The statements of a round after its accesses to DRAM and to the base of card 2.
const ROUND_END: &str = "\
1 r b 000A0000
0 r b 000A0000 smm
1 w b 000F0000 00
1 look r 000F0000
0 pulse 4
0 ack
0 out b 0020 20
1 r b FFFE0000
";

/// Appends the setup, the line of the phase and the statements that program the board.
#[tactic(auto, unfolding(crate::specs::MakeText::setup_lines, crate::specs::MakeText::opening_lines))]
fn push_opening(text: &mut String) -> Result<(), NoMemory>
    ensures appended { OnOk result (AddsWords text.old text.new (text_of_lines (setup_lines ++ opening_lines))) }
    ensures front { OnErr result (KeepsFront text.old text.new) }
{
    push_words(text, SETUP)?;
    push_words(text, OPENING)
}

/// Appends words, a number in eight hexadecimal digits, and a line feed.
#[tactic(auto, using(logs::proofs::Joined::joined_rules))]
fn push_numbered_line(text: &mut String, words: &str, number: u32) -> Result<(), NoMemory>
    ensures appended { OnOk result (AddsWords text.old text.new (words.now ++ hex_long number ++ line_feed ∷ [])) }
    ensures front { OnErr result (KeepsFront text.old text.new) }
{
    push_words(text, words)?;
    push_hex_long(text, number)?;
    push_words(text, "\n")
}

/// Appends the line of words, an address and a value.
#[tactic(auto, using(logs::proofs::Joined::joined_rules, std::proofs::lemmas::List::append_assoc))]
fn push_write(text: &mut String, words: &str, addr: u32, value: u32) -> Result<(), NoMemory>
    ensures appended { OnOk result (AddsWords text.old text.new
        (words.now ++ hex_long addr ++ space ∷ hex_long value ++ line_feed ∷ [])) }
    ensures front { OnErr result (KeepsFront text.old text.new) }
{
    push_words(text, words)?;
    push_hex_long(text, addr)?;
    push_numbered_line(text, " ", value)
}

/// Appends the eleven statements of a round. Rounds count from 0.
#[tactic(auto, using(crate::proofs::MadeLemmas::appended_pieces), unfolding(crate::specs::MakeText::round_lines))]
pub(crate) fn push_round(text: &mut String, round: u32) -> Result<(), NoMemory>
    ensures appended { OnOk result (AddsWords text.old text.new (text_of_lines (round_lines round))) }
    ensures front { OnErr result (KeepsFront text.old text.new) }
{
    let dram = 0x10_0000 + 4 * (round % 4096);
    let card = 0xE000_0000 + 4 * (round % 256);
    push_write(text, "0 w d ", dram, round)?;
    push_numbered_line(text, "1 r d ", dram)?;
    push_write(text, "1 w d ", card, round)?;
    push_words(text, ROUND_END)
}

/// The script of `n` rounds, each line with its line feed. With 1 to 20,000 rounds it is one that can be read.
#[tactic(auto, unfolding(crate::specs::MakeText::make_text))]
pub fn make_text(alloc: Global, n: u32) -> Result<Line, NoMemory>
    ensures text { IfOk result (λ line. line ≡ make_text n) }
{
    let mut text = String::new(alloc);
    push_opening(&mut text)?;
    for round in 0..n {
        push_round(&mut text, round)?;
    }
    Ok(Line::new(text))
}
