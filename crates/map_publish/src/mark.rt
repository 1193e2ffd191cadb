//! An entry of the list of what was published.

use board_spec::MapChange;
use map_builder::FlatMap;

/// The map that was opened, or a change of it.
#[derive(Drop)]
pub enum Mark {
    Opened(FlatMap),
    Changed(MapChange),
}
