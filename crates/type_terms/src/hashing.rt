//! The hashes by which names, types and references are found again: FNV-1 at 64 bits over all that they
//! are made of. What comes last is not multiplied: things that differ in it alone, as numbered names do, stand near one another
//! in a table.
ghost use Rattle.std.specs.Prelude.{◌≡◌};
ghost use Rattle.type_terms.specs.Hashing.{mix, mix_text, mix_id, mix_path, mix_scope, mix_name, flag_number, mix_sizes, mix_bounds, mix_type, mix_owner, mix_types, mix_signature, mix_method, mix_field, hash_member};

use crate::compare::place_of_prim;
use crate::{FieldRef, MethodRef, MethodSig, Owner, Scope, SigType, TypeId, TypeName};

/// Where a hash begins.
pub const START: u64 = 0xCBF2_9CE4_8422_2325;

/// One step of FNV-1.
#[tactic(auto, unfolding(crate::specs::Hashing::mix))]
pub fn mix(hash: u64, number: u64) -> u64
    ensures { result ≡ mix hash number }
{
    hash.wrapping_mul(0x0000_0100_0000_01B3) ^ number
}

/// Mixes the bytes of a text in.
#[tactic(auto, unfolding(crate::specs::Hashing::mix_text))]
pub fn mix_text(hash: u64, text: &[u8]) -> u64
    ensures { result ≡ mix_text hash text.now }
{
    let mut hash = hash;
    for byte in text {
        hash = mix(hash, 2 * u64::from(*byte));
    }
    hash
}

#[tactic(auto, unfolding(crate::specs::Hashing::mix_id))]
fn mix_id(hash: u64, id: &TypeId) -> u64
    ensures { result ≡ mix_id hash id.now }
{
    let hash = mix_text(hash, id.space.as_bytes());
    mix_text(mix(hash, 0xFF), id.name.as_bytes())
}

#[tactic(auto, unfolding(crate::specs::Hashing::mix_path))]
fn mix_path(hash: u64, path: &[TypeId]) -> u64
    ensures { result ≡ mix_path hash path.now }
{
    let mut hash = hash;
    for id in path {
        hash = mix_id(hash, id);
    }
    hash
}

fn mix_scope(hash: u64, scope: Scope) -> u64
    ensures { result ≡ mix_scope hash scope }
{
    match scope {
        Scope::Here => hash,
        Scope::Extern(number) => mix(mix(hash, 0x100), u64::from(number)),
    }
}

/// Mixes the name of a type in.
#[tactic(auto, unfolding(crate::specs::Hashing::mix_name))]
pub fn mix_name(hash: u64, name: &TypeName) -> u64
    ensures { result ≡ mix_name hash name.now }
{
    mix_path(mix_scope(hash, name.scope), name.path.as_slice())
}

fn flag_number(flag: bool) -> u64
    ensures { result ≡ flag_number flag }
{
    if flag { 1 } else { 0 }
}

#[tactic(auto, unfolding(crate::specs::Hashing::mix_sizes))]
fn mix_sizes(hash: u64, sizes: &[u32]) -> u64
    ensures { result ≡ mix_sizes hash sizes.now }
{
    let mut hash = hash;
    for size in sizes {
        hash = mix(hash, u64::from(*size));
    }
    hash
}

#[tactic(auto, unfolding(crate::specs::Hashing::mix_bounds))]
fn mix_bounds(hash: u64, lower: &[i32]) -> u64
    ensures { result ≡ mix_bounds hash lower.now }
{
    let mut hash = hash;
    for bound in lower {
        hash = mix(hash, u64::from(bound.unsigned_abs()));
    }
    hash
}

/// Mixes a type in.
#[cycle(hashing)]
pub fn mix_type(hash: u64, t: &SigType) -> u64
    ensures { result ≡ mix_type hash t.now }
{
    match t {
        SigType::Prim(prim) => mix(mix(hash, 0x200), u64::from(place_of_prim(*prim))),
        SigType::Class(name) => mix_name(mix(hash, 0x201), name),
        SigType::Value(name) => mix_name(mix(hash, 0x202), name),
        SigType::Inst { value, name, args } => {
            mix_types(
                mix_name(mix(mix(hash, 0x203), flag_number(*value)), name.get()),
                args.get().as_slice(),
            )
        }
        SigType::Var(number) => mix(mix(hash, 0x204), u64::from(*number)),
        SigType::MVar(number) => mix(mix(hash, 0x205), u64::from(*number)),
        SigType::SzArray(of) => mix_type(mix(hash, 0x206), of.get()),
        SigType::Array {
            of,
            rank,
            sizes,
            lower,
        } => {
            let hash = mix(mix(hash, 0x207), u64::from(*rank));
            let hash = mix_sizes(hash, sizes.get().as_slice());
            mix_type(mix_bounds(hash, lower.get().as_slice()), of.get())
        }
        SigType::ByRef(of) => mix_type(mix(hash, 0x208), of.get()),
        SigType::Pointer(of) => mix_type(mix(hash, 0x209), of.get()),
        SigType::Mod { required, by, of } => {
            let hash = mix(mix(hash, 0x20A), flag_number(*required));
            mix_type(mix_owner(hash, by.get()), of.get())
        }
        SigType::Pinned(of) => mix_type(mix(hash, 0x20B), of.get()),
    }
}

/// Mixes an owner in.
#[cycle(hashing)]
pub fn mix_owner(hash: u64, owner: &Owner) -> u64
    ensures { result ≡ mix_owner hash owner.now }
{
    match owner {
        Owner::Name(name) => mix_name(hash, name),
        Owner::Spec(of) => mix_type(hash, of),
    }
}

/// Mixes each type of a list in.
#[cycle(hashing)]
#[tactic(auto, unfolding(crate::specs::Hashing::mix_types))]
pub fn mix_types(hash: u64, types: &[SigType]) -> u64
    ensures { result ≡ mix_types hash types.now }
{
    let mut hash = hash;
    for t in types {
        hash = mix_type(hash, t);
    }
    hash
}

/// Mixes the number of generic parameters and the types of a signature in.
#[tactic(auto, unfolding(crate::specs::Hashing::mix_signature))]
pub fn mix_signature(hash: u64, sig: &MethodSig) -> u64
    ensures { result ≡ mix_signature hash sig.now }
{
    let hash = mix(hash, u64::from(sig.generic));
    mix_types(mix_type(hash, &sig.ret), sig.params.as_slice())
}

/// Mixes a method in.
#[tactic(auto, unfolding(crate::specs::Hashing::mix_method))]
pub fn mix_method(hash: u64, method: &MethodRef) -> u64
    ensures { result ≡ mix_method hash method.now }
{
    let hash = mix_text(mix_owner(hash, &method.owner), method.name.as_bytes());
    let hash = mix_signature(hash, &method.sig);
    match &method.args {
        None => hash,
        Some(args) => mix_types(mix(hash, 0x300), args.as_slice()),
    }
}

/// Mixes a field in.
#[tactic(auto, unfolding(crate::specs::Hashing::mix_field))]
pub fn mix_field(hash: u64, field: &FieldRef) -> u64
    ensures { result ≡ mix_field hash field.now }
{
    let hash = mix_text(mix_owner(hash, &field.owner), field.name.as_bytes());
    mix_type(hash, &field.of)
}

/// The hash of a member, by its name and its signature.
#[tactic(auto, unfolding(crate::specs::Hashing::hash_member))]
pub fn hash_member(name: &[u8], sig: &MethodSig) -> u64
    ensures { result ≡ hash_member name.now sig.now }
{
    mix_signature(mix_text(START, name), sig)
}
