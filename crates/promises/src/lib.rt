//! What a user of the board may rely on: five promises, each on a page of definitions in the words of the board's own,
//! and proved of the board's public calls from what these promise. No crate stands on this one.
//!
//! - The headline (`specs/Headline.antt`, `Accepted.antt`): what was put once `run`, `replay`, `check` or `resume` is
//!   done. `board_with_headline`, and of the whole program `program_with_headline`; `laws` says that it can be met.
//! - Totality (`specs/Totality.antt`): each status with its cause, both ways, over files and outputs that may fail.
//!   `board_with_causes`, `program_with_causes`, `room_or_as_before`.
//! - A caller's history (`specs/Caller.antt`): `bus_in_its_place`, `look_never_back`.
//! - Images and bus masters (`specs/Images.antt`): `image_as_saved`, `board_as_saved`, `chipset_as_saved`,
//!   `machine_as_saved`, `saved_and_loaded`, `reach_beside_smram`, `transfer_beside_smram`, `piece_beside_smram`.
//! - The definitions (`specs/Definitions.antt`): `map_as_decoded`, `map_changed_as_decoded`, `span_as_decoded`,
//!   `law_wide_is_its_cycles`.
//!
//! Not promised: that `run` and `Cpu::bus` return, what threads do, and what real files, words and outputs tell.
#![tactic(auto)]

mod caller;
mod definitions;
mod headline;
mod images;
pub mod laws;
mod machines;
mod masters;
mod program;
mod totality;

pub use caller::{bus_in_its_place, look_never_back};
pub use definitions::{
    law_wide_is_its_cycles, map_as_decoded, map_changed_as_decoded, span_as_decoded,
};
pub use headline::board_with_headline;
pub use images::{board_as_saved, chipset_as_saved, image_as_saved};
pub use machines::{machine_as_saved, saved_and_loaded};
pub use masters::{piece_beside_smram, reach_beside_smram, transfer_beside_smram};
pub use program::{program_with_causes, program_with_headline};
pub use totality::{board_with_causes, room_or_as_before};
