ghost use Rattle.std.specs.Prelude.{◌≡◌, ◌↔◌, ℕ, IsTrue, List, Option, Some};
ghost use Rattle.type_terms.specs.declared.reference.MethodSig.{MethodSig};
ghost use Rattle.type_terms.specs.declared.term.Owner.{Owner};
ghost use Rattle.type_terms.specs.declared.term.SigType.{SigType};
ghost use Rattle.sig_codec.specs.Reading.{whole_type, whole_field, whole_locals, whole_instantiation, whole_method, whole_property};
ghost use Rattle.signature_equality.specs.Numbering.{IsCanon};

use crate::pair::Pair;
use crate::{Numbering, signatures, types};
use type_terms::MAX_DEPTH;

/// Whether the types that `a` and `b` spell are one (ECMA-335 II.23.2.14), where `numbers` tells the tokens that name the
/// same. What it answers of bytes that spell none means nothing.
pub fn same_type<N: Numbering>(numbers: &N, a: &[u8], b: &[u8]) -> bool
    ensures { (owners : ℕ → Option Owner) (s t : SigType) → IsCanon owners (N.canon numbers.now) → whole_type owners a.now ≡ Some s → whole_type owners b.now ≡ Some t → IsTrue result ↔ (s ≡ t) }
{
    types::same_type(numbers, MAX_DEPTH, Pair { a, b }).is_some()
}

/// The same of fields (ECMA-335 II.23.2.4).
pub fn same_field<N: Numbering>(numbers: &N, a: &[u8], b: &[u8]) -> bool
    ensures { (owners : ℕ → Option Owner) (s t : SigType) → IsCanon owners (N.canon numbers.now) → whole_field owners a.now ≡ Some s → whole_field owners b.now ≡ Some t → IsTrue result ↔ (s ≡ t) }
{
    signatures::same_field(numbers, Pair { a, b }).is_some()
}

/// The same of methods (ECMA-335 II.23.2.1, II.23.2.2).
pub fn same_method<N: Numbering>(numbers: &N, a: &[u8], b: &[u8]) -> bool
    ensures { (owners : ℕ → Option Owner) (s t : MethodSig) → IsCanon owners (N.canon numbers.now) → whole_method owners a.now ≡ Some s → whole_method owners b.now ≡ Some t → IsTrue result ↔ (s ≡ t) }
{
    signatures::same_method(numbers, Pair { a, b }).is_some()
}

/// The same of properties (ECMA-335 II.23.2.5).
pub fn same_property<N: Numbering>(numbers: &N, a: &[u8], b: &[u8]) -> bool
    ensures { (owners : ℕ → Option Owner) (s t : MethodSig) → IsCanon owners (N.canon numbers.now) → whole_property owners a.now ≡ Some s → whole_property owners b.now ≡ Some t → IsTrue result ↔ (s ≡ t) }
{
    signatures::same_property(numbers, Pair { a, b }).is_some()
}

/// The same of locals (ECMA-335 II.23.2.6).
pub fn same_locals<N: Numbering>(numbers: &N, a: &[u8], b: &[u8]) -> bool
    ensures { (owners : ℕ → Option Owner) (s t : List SigType) → IsCanon owners (N.canon numbers.now) → whole_locals owners a.now ≡ Some s → whole_locals owners b.now ≡ Some t → IsTrue result ↔ (s ≡ t) }
{
    signatures::same_locals(numbers, Pair { a, b }).is_some()
}

/// The same of the arguments of a generic method (ECMA-335 II.23.2.15).
pub fn same_instantiation<N: Numbering>(numbers: &N, a: &[u8], b: &[u8]) -> bool
    ensures { (owners : ℕ → Option Owner) (s t : List SigType) → IsCanon owners (N.canon numbers.now) → whole_instantiation owners a.now ≡ Some s → whole_instantiation owners b.now ≡ Some t → IsTrue result ↔ (s ≡ t) }
{
    signatures::same_locals(numbers, Pair { a, b }).is_some()
}
