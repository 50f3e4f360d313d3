ghost use Rattle.std.specs.Prelude.{◌≡◌};
ghost use Rattle.assembly_tree.specs.WellFormedTerms.{is_count, is_explicit_with_this, is_sentinel_inside, is_signature, is_declaration, is_property_signature};

use super::formed_parts::Formed;
use crate::Assembly;
use type_terms::MethodSig;

/// Whether there are at most 65,535.
pub fn is_count(n: usize) -> bool
    ensures { result ≡ is_count n }
{
    n <= 65535
}

/// Whether `explicit` stands only with `instance`.
fn is_explicit_with_this(sig: &MethodSig) -> bool
    ensures { result ≡ is_explicit_with_this sig.now }
{
    !sig.explicit_this || sig.has_this
}

/// Whether a sentinel has a parameter behind it.
fn is_sentinel_inside(sig: &MethodSig) -> bool
    ensures { result ≡ is_sentinel_inside sig.now }
{
    match sig.sentinel {
        None => true,
        Some(k) => (k as usize) < sig.params.len(),
    }
}

impl Formed for MethodSig {
    ghost formed = { is_signature };

    #[tactic(auto, unfolding(crate::specs::WellFormedTerms::is_signature))]
    fn is_formed(&self, a: &Assembly) -> bool {
        is_count(self.generic as usize)
            && is_count(self.params.len())
            && is_explicit_with_this(self)
            && is_sentinel_inside(self)
            && self.ret.is_formed(a)
            && self.params.is_formed(a)
    }
}

/// Whether a method with that number of generic parameters can be declared with the signature.
pub fn is_declaration(generics: usize, sig: &MethodSig) -> bool
    ensures { result ≡ is_declaration generics sig.now }
{
    sig.sentinel.is_none() && sig.generic as usize == generics
}

/// Whether a property can have the signature.
pub fn is_property_signature(sig: &MethodSig) -> bool
    ensures { result ≡ is_property_signature sig.now }
{
    sig.sentinel.is_none() && sig.generic == 0 && !sig.explicit_this && !sig.vararg
}
