//! Laws of the definitions. Each function does nothing: its clause is the law.

ghost use Rattle.script_spec.specs.Laws.{LineSaysEntry, LogSaysAll, NotBoth, OneBadLog, OneDifference, OneItem};
ghost use Rattle.script_spec.specs.Laws.{OneRefusal, OneScript, ScriptsAreInRange, SomeReading};

/// A line of a script says at most one thing, whatever the case of its digits.
#[tactic(auto, using(crate::proofs::LineReading::one_item))]
pub fn law_one_item()
    ensures one { OneItem }
{}

/// A text says at most one script.
pub fn law_one_script()
    ensures one { OneScript }
{}

/// Each text either says a script or is bad, and one that is bad is so at one line, for one reason.
pub fn law_one_reading()
    ensures some { SomeReading }
    ensures not_both { NotBoth }
    ensures one { OneRefusal }
{}

/// A text is a bad log at one line, and differs from the logs of a script at one line.
pub fn law_one_line()
    ensures log { OneBadLog }
    ensures script { OneDifference }
{}

/// What a text says is in range: a board can have its setup and do its statements.
pub fn law_in_range()
    ensures each { ScriptsAreInRange }
{}

/// A line of a log says its number and its entry, and a whole log its version and its history.
pub fn law_log_says_all()
    ensures line { LineSaysEntry }
    ensures log { LogSaysAll }
{}
