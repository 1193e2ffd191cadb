//! Laws of the report. Each function does nothing: its clause is the law.

ghost use Rattle.map_blame.specs.Laws.{KeptSuffice, OneReport};

use board_spec::laws::law_one_flat_map;

/// The kept changes alone leave each map byte as all changes do.
#[tactic(auto, using(crate::proofs::KeepLaws::kept_suffice))]
pub fn law_kept_suffice()
    ensures suffice { KeptSuffice }
{}

/// There is only one report of a list of changes.
pub fn law_one_report()
    ensures one { OneReport }
{
    law_one_flat_map();
}
