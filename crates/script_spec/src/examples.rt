//! Worked examples of the definitions: texts of scripts, and what they say.

ghost use Rattle.script_spec.specs.ExampleEntries.{NameBorders, EntryBorders};
ghost use Rattle.script_spec.specs.ExampleScripts.{AreBad, AreBounds, TwoProcessors, TwoOrders, WideScript};

/// Texts that are bad, each at its first bad line, for the least reason.
#[tactic(auto, using(crate::proofs::ExampleRuns::worked))]
pub fn bad_texts()
    ensures refused { AreBad }
{}

/// The first good and the first bad number for each number of a script.
#[tactic(auto, using(crate::proofs::ExampleRuns::worked))]
pub fn bounds()
    ensures each { AreBounds }
{}

/// Comments, an empty line, two processors, cards and phases, and a fetch beside a read.
#[tactic(auto, using(crate::proofs::ExampleRuns::worked))]
pub fn two_processors()
    ensures says { TwoProcessors }
{}

/// The script of the worked orders.
#[tactic(auto, using(crate::proofs::ExampleRuns::worked))]
pub fn two_orders()
    ensures says { TwoOrders }
{}

/// Version 2: an expansion ROM, wide accesses, and one that is not.
#[tactic(auto, using(crate::proofs::ExampleRuns::worked))]
pub fn wide_script()
    ensures says { WideScript }
{}

/// What an entry of a log can name, and what it can say.
#[tactic(auto, using(crate::proofs::ExampleRuns::borders))]
pub fn entry_borders()
    ensures names { NameBorders }
    ensures entries { EntryBorders }
{}
