//! Whether two names, types or references are equal. Nothing here takes memory.
ghost use Rattle.std.specs.Prelude.{◌≡◌, ◌↔◌, IsTrue};
ghost use Rattle.std.specs.Bool.{beq};
ghost use lib.Pointwise.{pointwise};
ghost use Rattle.type_terms.specs.Same.{is_same_type, is_same_sentinel, is_same_signature};

use crate::{
    FieldRef, MethodRef, MethodSig, Owner, Scope, SigType, TypeId, TypeName, compare_owners,
    compare_terms,
};
use std::cmp::Ordering;

/// Whether two names of types are equal.
pub fn is_same_name(a: &TypeName, b: &TypeName) -> bool
    ensures { IsTrue result ↔ (a.now ≡ b.now) }
{
    is_same_scope(a.scope, b.scope) && is_same_path(a.path.as_slice(), b.path.as_slice())
}

fn is_same_scope(a: Scope, b: Scope) -> bool
    ensures { IsTrue result ↔ (a ≡ b) }
{
    match (a, b) {
        (Scope::Here, Scope::Here) => true,
        (Scope::Extern(x), Scope::Extern(y)) => x == y,
        _ => false,
    }
}

/// Whether two paths of nested classes are equal.
pub fn is_same_path(a: &[TypeId], b: &[TypeId]) -> bool
    ensures { IsTrue result ↔ (a.now ≡ b.now) }
{
    if a.len() != b.len() {
        return false;
    }
    for k in 0..a.len() {
        if !is_same_id(&a[k], &b[k]) {
            return false;
        }
    }
    true
}

/// Whether two classes have one space and one name.
pub fn is_same_id(a: &TypeId, b: &TypeId) -> bool
    ensures { IsTrue result ↔ (a.now ≡ b.now) }
{
    are_same_bytes(a.name.as_bytes(), b.name.as_bytes())
        && are_same_bytes(a.space.as_bytes(), b.space.as_bytes())
}

/// Whether two texts are equal. Most are short: a plain loop over their bytes takes the least time.
pub fn are_same_bytes(a: &[u8], b: &[u8]) -> bool
    ensures { IsTrue result ↔ (a.now ≡ b.now) }
{
    if a.len() != b.len() {
        return false;
    }
    for k in 0..a.len() {
        if a[k] != b[k] {
            return false;
        }
    }
    true
}

/// Whether two types are equal.
#[tactic(auto, using(crate::proofs::SameLaws::equal_types))]
pub fn is_same_type(a: &SigType, b: &SigType) -> bool
    ensures same { result ≡ is_same_type a.now b.now }
    ensures equal { IsTrue result ↔ (a.now ≡ b.now) }
{
    match compare_terms(a, b) {
        Ordering::Equal => true,
        Ordering::Less | Ordering::Greater => false,
    }
}

/// Whether two owners are equal.
pub fn is_same_owner(a: &Owner, b: &Owner) -> bool
    ensures { IsTrue result ↔ (a.now ≡ b.now) }
{
    compare_owners(a, b).is_eq()
}

/// Whether two lists have the same types in order.
#[tactic(auto, using(crate::proofs::SameLaws::equal_lists))]
pub fn are_same_types(types: &[SigType], others: &[SigType]) -> bool
    ensures same { result ≡ pointwise is_same_type types.now others.now }
    ensures equal { IsTrue result ↔ (types.now ≡ others.now) }
{
    are_pointwise(types, others)
}

fn are_pointwise(types: &[SigType], others: &[SigType]) -> bool
    ensures { result ≡ pointwise is_same_type types.now others.now }
{
    let mut rest = types;
    let mut other_rest = others;
    while let ([of, more @ ..], [other, other_more @ ..]) = (rest, other_rest) {
        if !is_same_type(of, other) {
            return false;
        }
        rest = more;
        other_rest = other_more;
    }
    rest.len() == 0 && other_rest.len() == 0
}

/// Whether two signatures are equal.
#[tactic(auto, using(crate::proofs::SameLaws::equal_signatures), unfolding(crate::specs::Same::is_same_signature))]
pub fn is_same_signature(sig: &MethodSig, other: &MethodSig) -> bool
    ensures same { result ≡ is_same_signature sig.now other.now }
    ensures equal { IsTrue result ↔ (sig.now ≡ other.now) }
{
    is_same_flag(sig.has_this, other.has_this)
        && is_same_flag(sig.explicit_this, other.explicit_this)
        && is_same_flag(sig.vararg, other.vararg)
        && sig.generic == other.generic
        && is_same_sentinel(sig.sentinel, other.sentinel)
        && is_same_type(&sig.ret, &other.ret)
        && are_same_types(sig.params.as_slice(), other.params.as_slice())
}

fn is_same_flag(flag: bool, other: bool) -> bool
    ensures { result ≡ beq flag other }
{
    match (flag, other) {
        (true, true) | (false, false) => true,
        (true, false) | (false, true) => false,
    }
}

fn is_same_sentinel(sentinel: Option<u32>, other: Option<u32>) -> bool
    ensures { result ≡ is_same_sentinel sentinel other }
{
    match (sentinel, other) {
        (None, None) => true,
        (Some(k), Some(n)) => k == n,
        (None, Some(_)) | (Some(_), None) => false,
    }
}

/// Whether two methods are equal.
pub fn is_same_method(a: &MethodRef, b: &MethodRef) -> bool
    ensures { IsTrue result ↔ (a.now ≡ b.now) }
{
    are_same_bytes(a.name.as_bytes(), b.name.as_bytes())
        && is_same_owner(&a.owner, &b.owner)
        && is_same_signature(&a.sig, &b.sig)
        && are_same_arguments(a, b)
}

fn are_same_arguments(a: &MethodRef, b: &MethodRef) -> bool
    ensures { IsTrue result ↔ (a.now.args ≡ b.now.args) }
{
    match (&a.args, &b.args) {
        (None, None) => true,
        (Some(x), Some(y)) => are_same_types(x.as_slice(), y.as_slice()),
        _ => false,
    }
}

/// Whether two fields are equal.
pub fn is_same_field(a: &FieldRef, b: &FieldRef) -> bool
    ensures { IsTrue result ↔ (a.now ≡ b.now) }
{
    are_same_bytes(a.name.as_bytes(), b.name.as_bytes())
        && is_same_owner(&a.owner, &b.owner)
        && is_same_type(&a.of, &b.of)
}
