//! The form of a derivation: a law, as the contract of a function.

ghost use Rattle.source_nodes.specs.Derived.{DerivationsHaveBodies};

use source_model::forests_open;

/// In a derivation, below each production stands its body.
pub fn derivations_have_bodies()
    ensures { DerivationsHaveBodies }
{
    forests_open();
}
