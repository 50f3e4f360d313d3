//! What follows for the data of fields in a source that breaks no rule: a law, as the contract of a function.

ghost use Rattle.laws_formed_sources.specs.contents.Laws.{FieldsHaveContents};

use source_nodes::derived::derivations_have_bodies;

/// In a source that breaks no rule, a field has no data, or as many bytes as a value of its type has in the assembly that the
/// source denotes (ECMA-335 II.16.3, II.22.18).
pub fn fields_have_contents()
    ensures { FieldsHaveContents }
{
    derivations_have_bodies();
}
