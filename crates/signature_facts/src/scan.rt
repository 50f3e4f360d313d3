ghost use Rattle.std.specs.Prelude.{◌≡◌, ℕ, Option};
ghost use Rattle.std.specs.Option.{option_map};
ghost use Rattle.type_terms.specs.declared.term.Owner.{Owner};
ghost use Rattle.sig_codec.specs.Reading.{whole_type, whole_field, whole_locals, whole_instantiation, whole_method, whole_property};
ghost use Rattle.signature_facts.specs.Facts.{Naming, type_facts, types_facts, method_facts};
ghost use Rattle.signature_facts.specs.Owners.{AreFacts, AreBounded};
ghost use Rattle.signature_facts.specs.Scanning as scan;

use crate::signatures::{
    whole_field, whole_instantiation, whole_locals, whole_method, whole_property, whole_type,
};
use crate::{Facts, ListFacts, MethodFacts, Owners};

/// The facts of the type that all of `bytes` spell (ECMA-335 II.23.2.14), where tokens name what `map` tells the facts of. None
/// exactly where they spell no type that is at most 100 deep and has at most 2,097,152 nodes.
pub fn scan_type<O: Owners>(bytes: &[u8], map: &O) -> Option<Facts>
    ensures steps { result ≡ scan.whole_type (O.facts map.now) bytes.now }
    ensures read { (naming : Naming) (owners : ℕ → Option Owner) → AreFacts naming owners (O.facts map.now) → AreBounded owners → result ≡ option_map (type_facts naming) (whole_type owners bytes.now) }
{
    whole_type(bytes, map)
}

/// The same of the field that they spell (ECMA-335 II.23.2.4).
pub fn scan_field<O: Owners>(bytes: &[u8], map: &O) -> Option<Facts>
    ensures steps { result ≡ scan.whole_field (O.facts map.now) bytes.now }
    ensures read { (naming : Naming) (owners : ℕ → Option Owner) → AreFacts naming owners (O.facts map.now) → AreBounded owners → result ≡ option_map (type_facts naming) (whole_field owners bytes.now) }
{
    whole_field(bytes, map)
}

/// The same of the method that they spell (ECMA-335 II.23.2.1, II.23.2.2).
pub fn scan_method<O: Owners>(bytes: &[u8], map: &O) -> Option<MethodFacts>
    ensures steps { result ≡ scan.whole_method (O.facts map.now) bytes.now }
    ensures read { (naming : Naming) (owners : ℕ → Option Owner) → AreFacts naming owners (O.facts map.now) → AreBounded owners → result ≡ option_map (method_facts naming) (whole_method owners bytes.now) }
{
    whole_method(bytes, map)
}

/// The same of the property that they spell (ECMA-335 II.23.2.5).
pub fn scan_property<O: Owners>(bytes: &[u8], map: &O) -> Option<MethodFacts>
    ensures steps { result ≡ scan.whole_property (O.facts map.now) bytes.now }
    ensures read { (naming : Naming) (owners : ℕ → Option Owner) → AreFacts naming owners (O.facts map.now) → AreBounded owners → result ≡ option_map (method_facts naming) (whole_property owners bytes.now) }
{
    whole_property(bytes, map)
}

/// The same of the locals that they spell (ECMA-335 II.23.2.6).
pub fn scan_locals<O: Owners>(bytes: &[u8], map: &O) -> Option<ListFacts>
    ensures steps { result ≡ scan.whole_locals (O.facts map.now) bytes.now }
    ensures read { (naming : Naming) (owners : ℕ → Option Owner) → AreFacts naming owners (O.facts map.now) → AreBounded owners → result ≡ option_map (types_facts naming) (whole_locals owners bytes.now) }
{
    whole_locals(bytes, map)
}

/// The same of the arguments of a generic method that they spell (ECMA-335 II.23.2.15).
pub fn scan_instantiation<O: Owners>(bytes: &[u8], map: &O) -> Option<ListFacts>
    ensures steps { result ≡ scan.whole_instantiation (O.facts map.now) bytes.now }
    ensures read { (naming : Naming) (owners : ℕ → Option Owner) → AreFacts naming owners (O.facts map.now) → AreBounded owners → result ≡ option_map (types_facts naming) (whole_instantiation owners bytes.now) }
{
    whole_instantiation(bytes, map)
}
