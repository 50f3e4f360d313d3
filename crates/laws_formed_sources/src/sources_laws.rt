//! What follows of a source that breaks no rule: a law each, as the contract of a function.

ghost use Rattle.laws_formed_sources.specs.sources.Remaining.{RemainsSuffice};
ghost use Rattle.laws_formed_sources.specs.sources.Laws.{AllAreFaultless, ClassesAreDeclared, EventsAreFormed, FieldRefsAreFormed, FieldsAreFormed, MethodRefsAreFormed, MethodsAreFormed, OwnersAreFormed, PlainRefsAreFormed, PropertiesAreFormed, SignaturesAreFormed, TypesAreFormed};

use il_lexer::{the_longest_spelling_is_taken, tokens_are_spellings};
use source_nodes::derived::derivations_have_bodies;
use type_terms::orders_are_total;

/// In a source that breaks no rule, each production breaks none.
pub fn all_are_faultless()
    ensures { AllAreFaultless }
{
    derivations_have_bodies();
}

/// In a source that breaks no rule, the path of each class leads to a type of the assembly that it denotes (ECMA-335 II.10).
pub fn classes_are_declared()
    ensures { ClassesAreDeclared }
{}

/// A type that a source writes that breaks no rule is well formed in the assembly that it denotes, wherever it stands
/// (ECMA-335 II.7.1, II.23.2.12).
pub fn types_are_formed()
    ensures { TypesAreFormed }
{
    the_longest_spelling_is_taken();
    tokens_are_spellings();
}

/// And so are the owners of references and the types that a class extends or implements (ECMA-335 II.10.1, II.15.3).
pub fn owners_are_formed()
    ensures { OwnersAreFormed }
{
    the_longest_spelling_is_taken();
    tokens_are_spellings();
}

/// The signatures of declared methods and properties are well formed (ECMA-335 II.23.2.1, II.23.2.5).
pub fn signatures_are_formed()
    ensures { SignaturesAreFormed }
{
    the_longest_spelling_is_taken();
    tokens_are_spellings();
}

/// A reference to a method is well formed (ECMA-335 II.15.3, II.22.25, II.22.29).
pub fn method_references_are_formed()
    ensures { MethodRefsAreFormed }
{
    the_longest_spelling_is_taken();
    tokens_are_spellings();
}

/// And one has no generic arguments where no column holds an instantiation (ECMA-335 II.22.10, II.22.27).
pub fn plain_references_are_formed()
    ensures { PlainRefsAreFormed }
{
    the_longest_spelling_is_taken();
    tokens_are_spellings();
}

/// A reference to a field is well formed (ECMA-335 II.16, II.22.25).
pub fn field_references_are_formed()
    ensures { FieldRefsAreFormed }
{
    the_longest_spelling_is_taken();
    tokens_are_spellings();
}

/// A field is well formed where its data has the size of its type (ECMA-335 II.16, II.22.15).
pub fn fields_are_formed()
    ensures { FieldsAreFormed }
{
    the_longest_spelling_is_taken();
    tokens_are_spellings();
}

/// A method is well formed where its body is: its name, flags, signature, parameters, overrides and attributes are
/// (ECMA-335 II.15, II.22.26).
pub fn methods_are_formed()
    ensures { MethodsAreFormed }
{
    the_longest_spelling_is_taken();
    tokens_are_spellings();
}

/// A property is well formed (ECMA-335 II.17, II.22.34).
pub fn properties_are_formed()
    ensures { PropertiesAreFormed }
{
    the_longest_spelling_is_taken();
    tokens_are_spellings();
}

/// An event is well formed (ECMA-335 II.18, II.22.13).
pub fn events_are_formed()
    ensures { EventsAreFormed }
{
    the_longest_spelling_is_taken();
    tokens_are_spellings();
}

/// The assembly that a source denotes that breaks no rule is well formed, where what remains to be shown holds: that a class
/// extends a type itself where one in it does, accessors among the methods, the data of each field, instructions that fit, and
/// one entry point (ECMA-335 II.10, II.22).
pub fn what_remains_suffices()
    ensures { RemainsSuffice }
{
    the_longest_spelling_is_taken();
    tokens_are_spellings();
    derivations_have_bodies();
    orders_are_total();
}
