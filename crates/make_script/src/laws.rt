//! Laws of the definitions. Each function does nothing: its clause is the law.

ghost use Rattle.make_script.specs.Laws.{MakeTextIsScript, MadeIsInRange, StatementCount, MadeSetupFits, KindsAddUp};

/// Up to 20,000 rounds the text is that of a script, which says the made script.
pub fn law_make_text()
    ensures says { MakeTextIsScript }
{}

/// The made script is in range, and has eleven statements a round after the first 47.
pub fn law_made_script()
    ensures range { MadeIsInRange }
    ensures count { StatementCount }
    ensures setup { MadeSetupFits }
{}

/// Without wide accesses the looks and the entries of each kind of target are all entries.
pub fn law_summary()
    ensures total { KindsAddUp }
{}
