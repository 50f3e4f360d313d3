//! When a source breaks no rule: laws, each as the contract of a function that does nothing when it is called.
ghost use Rattle.faultless_nodes.specs.Laws.{NodesSuffice, UnaskedBreakNothing};

/// A source breaks no rule where none of its productions breaks one, and where what is declared once is and there is an assembly (ECMA-335
/// II.5 to II.19).
#[tactic(auto, using(crate::proofs::Nodes::nodes_suffice))]
pub fn nodes_suffice()
    ensures { NodesSuffice }
{}

/// A production of which no rule speaks breaks none, whatever stands below and around it; and so does what has no other (ECMA-335 II.5 to
/// II.19).
#[tactic(auto, using(crate::proofs::Unasked::unasked_break_nothing))]
pub fn unasked_break_nothing()
    ensures { UnaskedBreakNothing }
{}
