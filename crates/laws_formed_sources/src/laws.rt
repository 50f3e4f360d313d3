//! What follows of a source that breaks no rule: a law, as the contract of a function.

ghost use Rattle.laws_formed_sources.specs.Laws.{DenotedIsFormed, SourcesAreFormed};

use crate::bodies_laws::instructions_fit;
use crate::contents_laws::fields_have_contents;
use crate::members_laws::{accessors_are_methods, one_entry};
use crate::sources_laws::what_remains_suffices;

/// What a source denotes that breaks no rule is a well-formed assembly (ECMA-335 II.10, II.15 to II.19, II.21 to II.23).
pub fn faultless_sources_are_formed()
    ensures { SourcesAreFormed }
{
    what_remains_suffices();
    accessors_are_methods();
    fields_have_contents();
    instructions_fit();
    one_entry();
}

/// The same, for the bytes of a source and the assembly that they denote.
pub fn what_is_denoted_is_formed()
    ensures { DenotedIsFormed }
{
    faultless_sources_are_formed();
}
