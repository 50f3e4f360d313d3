//! Offers as lists of numbers.
ghost use Rattle.std.specs.Prelude.{◌≡◌, ◌<◌, ◌++◌, ◌∷◌, length, map, is_some, IfOk, OnOk, None};
ghost use Rattle.std.specs.Option.{option_copied, option_map, ForSome};
ghost use Rattle.sig_pool.specs.Key.{flag, list_key};
ghost use Rattle.sig_pool.specs.Pool.{Has, HasAll};
ghost use Rattle.sig_pool.specs.Replaced.{terms_at};
ghost use Rattle.sig_pool.specs.Terms.{AllBelow};
ghost use Rattle.type_hierarchy.specs.Normal.{normal};
ghost use Rattle.type_hierarchy.specs.Pooled.{put_in};
ghost use Rattle.type_hierarchy.specs.World.{hierarchy, type_at, Stays};
ghost use Rattle.type_order.specs.Keys.{reading_of};
ghost use Rattle.class_model.specs.Slots.{sig_by};
ghost use Rattle.class_members.specs.Facts.{offer_key, optional_key, IsFact};

use il_lists::{Items, NoMemory, Text};
use std::alloc::Global;
use type_order::types::World;
use type_order::{TypeKey, TypeKeys, key_of, keys_keep_their_types, type_key};
use type_terms::{MethodSig, SigType};

/// The fact that the type of `at` offers a method with that name and signature, whose types have the arguments put in, where
/// there are some; of an override, with the interface.
pub fn fact_of(
    alloc: Global,
    w: &mut World,
    at: &TypeKey,
    owner: Option<TypeKey>,
    name: &Text,
    sig: &MethodSig,
    args: Option<&TypeKeys>,
) -> Result<Items<u64>, NoMemory>
    requires owner { ForSome owner (λ k. k < length w.old.nodes) }
    requires args { ForSome (option_copied args) (λ ks. AllBelow (length w.old.nodes) ks) }
    ensures ok { IfOk result (IsFact w.new.nodes at.now (record { put = is_some (option_copied args.entry); owner = option_map (type_at w.old) owner; name = name.now; sig = sig_by (hierarchy w.old) (put_in (option_map (terms_at w.old.nodes) (option_copied args.entry))) sig.now })) }
    ensures stays { Stays w.old w.new }
{
    keys_keep_their_types();
    let ret = type_in(alloc, w, &sig.ret, args)?;
    let types = sig.params.as_slice();
    let params = types_in(alloc, w, types, args)?;
    let put = has_args(args);
    let bytes = name.as_bytes();
    let keys = params.as_slice();
    written(alloc, at, put, owner, bytes, sig, &ret, keys)
}

/// Whether arguments are given.
fn has_args(args: Option<&TypeKeys>) -> bool
    ensures { result ≡ is_some (option_copied args.entry) }
{
    match args {
        Some(_) => true,
        None => false,
    }
}

/// The key of a type of the image, normalised and with the arguments put in, where there are some.
fn type_in(
    alloc: Global,
    w: &mut World,
    t: &SigType,
    args: Option<&TypeKeys>,
) -> Result<TypeKey, NoMemory>
    requires { ForSome (option_copied args) (λ ks. AllBelow (length w.old.nodes) ks) }
    ensures ok { IfOk result (λ k. Has w.new.nodes k (put_in (option_map (terms_at w.old.nodes) (option_copied args.entry)) (normal (reading_of (hierarchy w.old)) t.now))) }
    ensures stays { Stays w.old w.new }
{
    match args {
        Some(args) => key_of(w, t, args, &Items::new(alloc)),
        None => type_key(w, t),
    }
}

/// The keys of such types, in their order.
fn types_in(
    alloc: Global,
    w: &mut World,
    types: &[SigType],
    args: Option<&TypeKeys>,
) -> Result<TypeKeys, NoMemory>
    requires { ForSome (option_copied args) (λ ks. AllBelow (length w.old.nodes) ks) }
    ensures ok { IfOk result (λ ks. HasAll w.new.nodes ks (map (λ t. put_in (option_map (terms_at w.old.nodes) (option_copied args.entry)) (normal (reading_of (hierarchy w.old)) t)) types.now)) }
    ensures stays { Stays w.old w.new }
{
    keys_keep_their_types();
    let mut keys = Items::with_capacity(alloc, types.len())?;
    for t in types {
        let key = type_in(alloc, w, t, args)?;
        keys.push(key)?;
    }
    Ok(keys)
}

/// The fact of an offer, from ids of its types.
pub fn written(
    alloc: Global,
    at: &TypeKey,
    put: bool,
    owner: Option<TypeKey>,
    name: &[u8],
    sig: &MethodSig,
    ret: &TypeKey,
    params: &[TypeKey],
) -> Result<Items<u64>, NoMemory>
    ensures { IfOk result (λ fact. fact ≡ at.now ∷ offer_key (record { put = put; owner = None; name = name.now; sig = sig.now }) owner ret.now params.now) }
{
    let mut fact = Items::with_capacity(alloc, name.len())?;
    fact.extend(&[at.id().place() as u64, flag(put)])?;
    write_optional_id(&mut fact, owner)?;
    write_text(&mut fact, name)?;
    fact.extend(&[
        flag(sig.has_this),
        flag(sig.explicit_this),
        flag(sig.vararg),
        sig.generic as u64,
    ])?;
    write_optional(&mut fact, sig.sentinel)?;
    fact.push(ret.id().place() as u64)?;
    write_ids(&mut fact, params)?;
    Ok(fact)
}

fn flag(value: bool) -> u64
    ensures { result ≡ flag value }
{
    if value { 1 } else { 0 }
}

fn write_optional_id(fact: &mut Items<u64>, id: Option<TypeKey>) -> Result<(), NoMemory>
    ensures { OnOk result (fact.new ≡ fact.old ++ optional_key id) }
{
    match id {
        None => fact.extend(&[0, 0]),
        Some(key) => fact.extend(&[1, key.id().place() as u64]),
    }
}

fn write_optional(fact: &mut Items<u64>, number: Option<u32>) -> Result<(), NoMemory>
    ensures { OnOk result (fact.new ≡ fact.old ++ optional_key number) }
{
    match number {
        None => fact.extend(&[0, 0]),
        Some(number) => fact.extend(&[1, number as u64]),
    }
}

fn write_text(fact: &mut Items<u64>, text: &[u8]) -> Result<(), NoMemory>
    ensures { OnOk result (fact.new ≡ fact.old ++ list_key text.now) }
{
    fact.push(text.len() as u64)?;
    for byte in text {
        fact.push(*byte as u64)?;
    }
    Ok(())
}

fn write_ids(fact: &mut Items<u64>, keys: &[TypeKey]) -> Result<(), NoMemory>
    ensures { OnOk result (fact.new ≡ fact.old ++ keys.now) }
{
    for key in keys {
        fact.push(key.id().place() as u64)?;
    }
    Ok(())
}
