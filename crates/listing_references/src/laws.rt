//! What the references of a listing are read as: laws, each as the contract of a function that does nothing when it is called.
ghost use Rattle.listing_references.specs.Laws.{ArgumentsAreRead, ConventionsAreRead, FieldsAreRead, GenericsAreRead, MethodNamesAreRead, MethodsAreRead};

use listing_growth::laws::{references_stand, terms_stand};
use listing_reading::laws::searches_pass;
use listing_terms::laws::{paths_are_read, terms_are_read};
use listing_values::laws::{names_are_read, numbers_are_read};

/// The arguments of a signature are read as these, and the place of the `...` among them as its place (ECMA-335 II.15.3).
pub fn arguments_are_read()
    ensures { ArgumentsAreRead }
{
    terms_are_read();
}

/// A calling convention is read as this (ECMA-335 II.15.3).
#[tactic(auto, using(crate::proofs::Heads::conventions_are_read))]
pub fn conventions_are_read()
    ensures { ConventionsAreRead }
{}

/// The name of a method is read as this, `.ctor` and `.cctor` included (ECMA-335 II.15.4).
pub fn method_names_are_read()
    ensures { MethodNamesAreRead }
{
    names_are_read();
}

/// The arguments of a generic method, and the number of its generic parameters, are read as these (ECMA-335 II.15.3).
pub fn generics_are_read()
    ensures { GenericsAreRead }
{
    numbers_are_read();
    terms_are_read();
    searches_pass();
    terms_stand();
}

/// A reference to a field is read as this, in a source that knows the other assemblies (ECMA-335 II.15.4).
pub fn fields_are_read()
    ensures { FieldsAreRead }
{
    names_are_read();
    paths_are_read();
    terms_are_read();
    searches_pass();
    terms_stand();
    references_stand();
}

/// A reference to a method is read as this, in a source that knows the other assemblies (ECMA-335 II.15.3, II.15.4).
pub fn methods_are_read()
    ensures { MethodsAreRead }
{
    names_are_read();
    conventions_are_read();
    arguments_are_read();
    method_names_are_read();
    generics_are_read();
    paths_are_read();
    terms_are_read();
    searches_pass();
    references_stand();
}
