//! What well-formed terms of a listing are read as: laws, each as the contract of a function that does nothing when it is called.
ghost use Rattle.listing_formed.specs.Laws.{FormedAreRead, FormedAreReadable};

use listing_references::laws::{fields_are_read, methods_are_read};
use listing_terms::laws::terms_are_read;

/// Types, owners and references that are well formed, and such as a tree in memory holds, can be read back, and stand for their
/// nonterminals (ECMA-335 II.7.1, II.23.2).
#[tactic(auto, using(crate::proofs::Readable::formed_are_readable))]
pub fn formed_are_readable()
    ensures { FormedAreReadable }
{}

/// In a source that knows the other assemblies they are read as these (ECMA-335 II.7.1, II.14.2, II.15.3, II.15.4).
pub fn formed_are_read()
    ensures { FormedAreRead }
{
    terms_are_read();
    methods_are_read();
    fields_are_read();
}
