//! The law of looks. Its function does nothing: its clause is the law.

ghost use Rattle.map_publish.specs.Laws.{LooksGoOn};

/// Where the copies were opened with the map of a board, a look shows that board's map after the map writes that led to
/// the opened map and some of the published ones, the first: how many map writes these are together, and the span that
/// the registers have after them.
pub fn law_looks_go_on()
    ensures goes_on { LooksGoOn }
{}
