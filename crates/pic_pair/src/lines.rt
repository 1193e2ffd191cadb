//! The levels of the sixteen interrupt lines, as a bit mask.
ghost use Rattle.std.specs.Prelude.{◌≡◌, ℕ, ◌+◌, ◌*◌, ◌<◌, ◌||◌, ◌++◌, length, replicate, take, drop, slice_index_or};
ghost use Rattle.std.specs.Prelude.{slice_set, true, false};
ghost use Rattle.device_spec.specs.Levels.{levels_of_byte};

use crate::level_set::LevelSet;
use board_base::bits::is_set;
use std::marker::Model;

/// How many of the lines are the master's.
const MASTER_LINES: u32 = 8;

/// The levels of the sixteen interrupt lines.
///
/// Contracts see the list of sixteen Booleans that say which lines are at 1.
#[derive(Drop)]
pub struct Lines {
    bits: u16,
}

impl Model for Lines {
    ghost use Rattle.std.specs.Prelude.{Bool, List};

    ghost Value = { List Bool };

    ghost use Rattle.pic_pair.specs.Lines.{lines_of};

    ghost view = { λ lines. lines_of lines.bits };
}

impl Lines {
    /// All lines at 0.
    #[tactic(auto, using(crate::proofs::LineLemmas::lines_low))]
    pub fn low() -> Lines
        ensures low { result ≡ replicate 16 false }
    {
        Lines { bits: 0 }
    }

    /// The level of a line.
    #[tactic(auto, using(crate::proofs::LineLemmas::has_lines_where))]
    pub fn level(&self, line: u8) -> bool
        requires { line < 16 }
        ensures level { result ≡ slice_index_or self.now line false }
    {
        is_set(self.bits.into(), line.into())
    }

    /// The same levels, but with this one for a line.
    pub fn with(&self, line: u8, on: bool) -> Lines
        requires { line < 16 }
        ensures set { result ≡ slice_set self.now line on }
        ensures size { length self.now ≡ 16 }
    {
        if on {
            return self.raised(line);
        }
        self.lowered(line)
    }

    /// The lines that are at 1 here or there.
    #[tactic(auto, using(crate::proofs::LineLemmas::lines_either, crate::proofs::LineLemmas::lines_where_length))]
    pub fn union(&self, other: &Lines) -> Lines
        ensures either { (line : ℕ) → line < 16 → slice_index_or result line false
            ≡ (slice_index_or self.now line false || slice_index_or other.now line false) }
        ensures size { length result ≡ 16 }
    {
        Lines {
            bits: self.bits | other.bits,
        }
    }

    /// The levels that are the bits of two bytes: those of lines 0 to 7, and those of lines 8 to 15.
    #[tactic(auto, using(crate::proofs::LineLemmas::lines_of_bytes))]
    pub(crate) fn of_bytes(low: u8, high: u8) -> Lines
        ensures levels { result ≡ levels_of_byte low ++ levels_of_byte high }
    {
        Lines {
            bits: mask(low, high),
        }
    }

    /// Does nothing: its clause says that there are sixteen lines.
    #[tactic(auto, using(crate::proofs::LineLemmas::lines_where_length))]
    pub(crate) fn are_sixteen(&self)
        ensures size { length self.now ≡ 16 }
    {
        let _ = &self.bits;
    }

    /// The master's lines, 0 to 7.
    #[tactic(auto, using(crate::proofs::LineLemmas::low_lines))]
    pub(crate) fn masters(&self) -> LevelSet
        ensures levels { result ≡ take 8 self.now }
    {
        LevelSet::from_byte((self.bits % (1 << MASTER_LINES)) as u8)
    }

    /// The slave's lines, 8 to 15.
    #[tactic(auto, using(crate::proofs::LineLemmas::high_lines))]
    pub(crate) fn slaves(&self) -> LevelSet
        ensures levels { result ≡ drop 8 self.now }
    {
        LevelSet::from_byte((self.bits >> MASTER_LINES) as u8)
    }

    /// The same levels, but with a line at 1.
    #[tactic(auto, using(crate::proofs::LineLemmas::lines_raised, crate::proofs::LineLemmas::lines_where_length))]
    fn raised(&self, line: u8) -> Lines
        requires { line < 16 }
        ensures set { result ≡ slice_set self.now line true }
        ensures size { length self.now ≡ 16 }
    {
        Lines {
            bits: self.bits | 1 << line,
        }
    }

    /// The same levels, but with a line at 0.
    #[tactic(auto, using(crate::proofs::LineLemmas::lines_lowered, crate::proofs::LineLemmas::lines_where_length))]
    fn lowered(&self, line: u8) -> Lines
        requires { line < 16 }
        ensures set { result ≡ slice_set self.now line false }
        ensures size { length self.now ≡ 16 }
    {
        Lines {
            bits: self.bits & !(1 << line),
        }
    }
}

/// The mask of two bytes, the low one first.
fn mask(low: u8, high: u8) -> u16
    ensures bits { result ≡ low + 256 * high }
    ensures small { low < 256 }
{
    u16::from_le_bytes([low, high])
}
