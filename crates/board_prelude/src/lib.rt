//! The names that files above the definitions cite most, passed on from one place: `specs/Lib.antt` those of the
//! definitions (the standard library, `board_base`, `device_spec`, `board_spec`), `proofs/Lib.antt` those of lemmas and
//! of what proofs cite with them. It declares nothing.
#![tactic(auto)]
