//! When no member is declared twice: a law, as the contract of a function that does nothing when it is called.
ghost use Rattle.members_once.specs.Laws.{MembersAreOnce};

use type_terms::orders_are_total;

/// Where the fields that a source gives a class all differ, none is declared twice; and so with methods, properties and events (ECMA-335
/// II.22.13, II.22.15, II.22.26, II.22.34).
pub fn members_are_once()
    ensures { MembersAreOnce }
{
    orders_are_total();
}
