//! Tests alone: pieces of listings, as the definition of the canonical source gives them, are the texts that they should be
//! (ECMA-335 II.5).
#![tactic(auto)]

ghost use Rattle.tests_listing.specs.Examples.{Examples};

/// Names with and without quotes, types with suffixes and shapes, rows of flags, constants, data, lines of parameters, bodies with
/// labels and clauses, other assemblies, a manifest, and nested types.
#[tactic(auto, using(crate::proofs::Computed::examples))]
pub fn pieces_are_listed_so()
    ensures { Examples }
{}
