//! Sets of the eight levels of an interrupt controller, as bit masks.
ghost use Rattle.std.specs.Prelude.{◌≡◌, ◌↔◌, ◌<◌, ◌&&◌, ◌||◌, not, true, length};
ghost use Rattle.device_spec.specs.Levels.{has, levels_where, no_levels, with_level, without_level, levels_of_byte};
ghost use Rattle.device_spec.specs.Levels.{byte_of_levels};

use board_base::bits::is_set;
use std::marker::Model;

/// A set of levels, IR0 to IR7.
///
/// Contracts see the list of eight Booleans that say which levels it has.
#[derive(Drop)]
pub struct LevelSet {
    bits: u8,
}

impl Model for LevelSet {
    ghost use Rattle.device_spec.specs.Levels.{Levels, levels_of_byte};

    ghost Value = { Levels };

    ghost view = { λ set. levels_of_byte set.bits };
}

impl LevelSet {
    /// The set of no levels.
    pub fn empty() -> LevelSet
        ensures none { result ≡ no_levels }
    {
        LevelSet { bits: 0 }
    }

    /// The set of the levels whose bit is 1.
    pub fn from_byte(byte: u8) -> LevelSet
        ensures levels { result ≡ levels_of_byte byte }
    {
        LevelSet { bits: byte }
    }

    /// The byte with the bits of the set's levels.
    #[tactic(auto, using(crate::proofs::LevelLemmas::level_laws))]
    pub fn byte(&self) -> u8
        ensures byte { result ≡ byte_of_levels self.now }
    {
        self.bits
    }

    /// Does nothing: its clause says that there are eight levels.
    #[tactic(auto, unfolding(device_spec::specs::Levels::levels_where))]
    pub fn has_eight(&self)
        ensures eight { length self.now ≡ 8 }
    {
        let _ = &self.bits;
    }

    /// Whether the set has no level.
    #[tactic(auto, using(crate::proofs::LevelLemmas::levels_none))]
    pub fn is_empty(&self) -> bool
        ensures none { (result ≡ true) ↔ (self.now ≡ no_levels) }
    {
        self.bits == 0
    }

    /// Whether the set has the level.
    #[tactic(auto, using(crate::proofs::LevelLemmas::level_laws))]
    pub fn contains(&self, level: u8) -> bool
        requires { level < 8 }
        ensures has { result ≡ has self.now level }
    {
        is_set(self.bits.into(), level.into())
    }

    /// Adds a level.
    #[tactic(auto, using(crate::proofs::LevelLemmas::levels_set))]
    pub fn insert(&mut self, level: u8)
        requires { level < 8 }
        ensures added { self.new ≡ with_level self.old level }
    {
        self.bits |= 1 << level;
    }

    /// Takes a level away.
    #[tactic(auto, using(crate::proofs::LevelLemmas::levels_cleared))]
    pub fn remove(&mut self, level: u8)
        requires { level < 8 }
        ensures removed { self.new ≡ without_level self.old level }
    {
        self.bits &= !(1 << level);
    }

    /// The levels of one set or the other.
    #[tactic(auto, using(crate::proofs::LevelLemmas::levels_union))]
    pub fn union(&self, other: &LevelSet) -> LevelSet
        ensures either { result ≡ levels_where (λ level. has self.now level || has other.now level) }
    {
        LevelSet {
            bits: self.bits | other.bits,
        }
    }

    /// The levels of both sets.
    #[tactic(auto, using(crate::proofs::LevelLemmas::levels_both))]
    pub fn intersection(&self, other: &LevelSet) -> LevelSet
        ensures both { result ≡ levels_where (λ level. has self.now level && has other.now level) }
    {
        LevelSet {
            bits: self.bits & other.bits,
        }
    }

    /// The levels of this set that the other has not.
    #[tactic(auto, using(crate::proofs::LevelLemmas::levels_rest))]
    pub fn difference(&self, other: &LevelSet) -> LevelSet
        ensures rest { result ≡ levels_where (λ level. has self.now level && not (has other.now level)) }
    {
        LevelSet {
            bits: self.bits & !other.bits,
        }
    }
}
