//! Events at the borders of what a board can be asked, and setups at those of what it can be fitted with.

ghost use Rattle.board_examples.specs.Events.{AccessBorders, WideBorders, OutsideBorders, MomentBorders};
ghost use Rattle.board_examples.specs.Events.{StatementBorders};
ghost use Rattle.board_examples.specs.Limits.{AmountBorders, AreaBorders};
ghost use Rattle.board_examples.specs.Setups.{SetupBorders};

/// Which events are in range.
#[tactic(auto, using(crate::proofs::SetupRuns::borders))]
pub fn borders()
    ensures accesses { AccessBorders }
    ensures wide { WideBorders }
    ensures outside { OutsideBorders }
{}

/// Which moments there are, and which statements a script can have.
#[tactic(auto, using(crate::proofs::SetupRuns::borders))]
pub fn statements()
    ensures moments { MomentBorders }
    ensures statements { StatementBorders }
{}

/// What a board can be fitted with.
#[tactic(auto, using(crate::proofs::SetupRuns::setup_borders))]
pub fn setups()
    ensures borders { SetupBorders }
{}

/// How much a script may ask for, and which areas a look of a log can name.
#[tactic(auto, using(crate::proofs::SetupRuns::amount_borders, crate::proofs::SetupRuns::borders))]
pub fn amounts()
    ensures borders { AmountBorders }
    ensures areas { AreaBorders }
{}
