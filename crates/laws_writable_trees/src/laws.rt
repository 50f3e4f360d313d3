//! What follows of a well-formed assembly: laws, each as the contract of a function that does nothing when it is called.
ghost use Rattle.laws_writable_trees.specs.Laws.{TypesAreDeclarable, FormedCanFill, AccessorsHaveRows, MembersAreInBounds};

/// No two types of a well-formed assembly have one encloser and one name, none is in the place of `<Module>`, and no name holds
/// a zero byte (ECMA-335 II.22.37, II.24.2.3).
#[tactic(auto, using(crate::proofs::Filling::types_declarable))]
pub fn types_are_declarable()
    ensures { TypesAreDeclarable }
{}

/// Every text, type, reference, constant and body of a well-formed assembly can be written (ECMA-335 II.22, II.23.2, II.25.4).
#[tactic(auto, using(crate::proofs::Filling::can_fill))]
pub fn formed_can_fill()
    ensures { FormedCanFill }
{}

/// The accessors of events and properties of a well-formed assembly are methods of their types (ECMA-335 II.22.28).
#[tactic(auto, using(crate::proofs::Filling::accessors_have_rows))]
pub fn accessors_have_rows()
    ensures { AccessorsHaveRows }
{}

/// The signatures of the members of a well-formed assembly are no deeper and no larger than a reader takes, and the ranks, the
/// generic parameters and the parameters in them are in bounds (ECMA-335 II.23.2).
#[tactic(auto, using(crate::proofs::MemberBounds::members_in_bounds))]
pub fn members_are_in_bounds()
    ensures { MembersAreInBounds }
{}
