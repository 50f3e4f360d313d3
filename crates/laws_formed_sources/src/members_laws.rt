//! What follows for accessors and the entry point of a source that breaks no rule: a law each, as the contract of a function.

ghost use Rattle.laws_formed_sources.specs.members.Laws.{AccessorsAreMethods, OneEntry};

use source_nodes::derived::derivations_have_bodies;

/// In a source that breaks no rule the accessors of a class's properties and events are among its methods (ECMA-335 II.17,
/// II.18, II.22.28).
pub fn accessors_are_methods()
    ensures { AccessorsAreMethods }
{
    derivations_have_bodies();
}

/// The program starts at one method at most (ECMA-335 II.15.4.1.2).
pub fn one_entry()
    ensures { OneEntry }
{
    derivations_have_bodies();
}
