//! Shadow windows by the kind of access, and looks in SMM.

ghost use Rattle.board_examples.specs.Windows.{WindowsByKind, LookInSmm};

/// Windows that are open for some kinds of access.
#[tactic(auto, using(crate::proofs::Histories::histories))]
pub fn windows_by_kind()
    ensures history { WindowsByKind }
{}

/// A look at SMRAM in SMM.
#[tactic(auto, using(crate::proofs::LookRuns::looks))]
pub fn look_in_smm()
    ensures history { LookInSmm }
{}
