//! What the methods of types offer.
ghost use Rattle.std.specs.Prelude.{◌≡◌, ◌<◌, [], length, IfOk, OnOk};
ghost use Rattle.std.specs.List.{flat_map};
ghost use Rattle.sig_pool.specs.Pool.{Has};
ghost use Rattle.sig_pool.specs.Replaced.{replaced, terms_at};
ghost use Rattle.sig_pool.specs.Terms.{AllBelow};
ghost use Rattle.type_hierarchy.specs.Indexed.{KnowsTypes};
ghost use Rattle.type_hierarchy.specs.World.{hierarchy, type_at, Stays};
ghost use Rattle.type_hierarchy.specs.Normal.{normal_owner};
ghost use Rattle.type_order.specs.Keys.{reading_of};
ghost use Rattle.class_model.specs.Slots.{is_provider};
ghost use Rattle.class_members.specs.Facts.{Adds};
ghost use Rattle.class_members.specs.Offers.{offers_by, offers_in, override_offers, overrides_by, overrides_in, own_offers};

use crate::facts::Facts;
use crate::keys::fact_of;
use assembly_tree::{Assembly, Method};
use class_faces::declaration;
use il_lists::{Copies, Items, NoMemory};
use std::alloc::Global;
use type_order::types::World;
use type_order::{TypeKey, TypeKeys, arguments_of, key_of, keys_keep_their_types};
use type_terms::{MethodRef, Owner, SigType};

/// Adds what the methods of the type of `at` offer.
pub fn add_offers(
    alloc: Global,
    a: &Assembly,
    w: &mut World,
    facts: &mut Facts,
    at: &TypeKey,
) -> Result<(), NoMemory>
    requires at { at.now < length w.old.nodes }
    requires knows { KnowsTypes a.now w.old.tables }
    ensures ok { OnOk result (Adds w.new.nodes at.now (offers_in a.now (hierarchy w.old) (type_at w.old at.now)) facts.old facts.new) }
    ensures stays { Stays w.old w.new }
{
    let args = arguments_of(w, at)?;
    let declared = declaration(alloc, a, w, at)?;
    match declared {
        Some(of) => add_methods(alloc, w, facts, at, of.methods.as_slice(), &args),
        None => Ok(()),
    }
}

/// Adds, as offers of the type of `at`, the overrides of the methods of the type of `face`.
pub fn add_overrides(
    alloc: Global,
    a: &Assembly,
    w: &mut World,
    facts: &mut Facts,
    at: &TypeKey,
    face: &TypeKey,
) -> Result<(), NoMemory>
    requires face { face.now < length w.old.nodes }
    requires knows { KnowsTypes a.now w.old.tables }
    ensures ok { OnOk result (Adds w.new.nodes at.now (overrides_in a.now (hierarchy w.old) (type_at w.old face.now)) facts.old facts.new) }
    ensures stays { Stays w.old w.new }
{
    let args = arguments_of(w, face)?;
    let declared = declaration(alloc, a, w, face)?;
    match declared {
        Some(of) => add_all_overrides(alloc, w, facts, at, of.methods.as_slice(), &args),
        None => Ok(()),
    }
}

/// Adds what methods offer, whose declaring type has these arguments.
fn add_methods(
    alloc: Global,
    w: &mut World,
    facts: &mut Facts,
    at: &TypeKey,
    methods: &[Method],
    args: &TypeKeys,
) -> Result<(), NoMemory>
    requires { AllBelow (length w.old.nodes) args.now }
    ensures ok { OnOk result (Adds w.new.nodes at.now (flat_map (offers_by (hierarchy w.old) (terms_at w.old.nodes args.now)) methods.now) facts.old facts.new) }
    ensures stays { Stays w.old w.new }
{
    keys_keep_their_types();
    for method in methods {
        add_method(alloc, w, facts, at, method, args)?;
    }
    Ok(())
}

/// Adds the overrides of methods.
fn add_all_overrides(
    alloc: Global,
    w: &mut World,
    facts: &mut Facts,
    at: &TypeKey,
    methods: &[Method],
    args: &TypeKeys,
) -> Result<(), NoMemory>
    requires { AllBelow (length w.old.nodes) args.now }
    ensures ok { OnOk result (Adds w.new.nodes at.now (flat_map (overrides_by (hierarchy w.old) (terms_at w.old.nodes args.now)) methods.now) facts.old facts.new) }
    ensures stays { Stays w.old w.new }
{
    keys_keep_their_types();
    for method in methods {
        add_each(alloc, w, facts, at, method.overrides.as_slice(), args)?;
    }
    Ok(())
}

/// Adds what a method offers.
fn add_method(
    alloc: Global,
    w: &mut World,
    facts: &mut Facts,
    at: &TypeKey,
    method: &Method,
    args: &TypeKeys,
) -> Result<(), NoMemory>
    requires { AllBelow (length w.old.nodes) args.now }
    ensures ok { OnOk result (Adds w.new.nodes at.now (offers_by (hierarchy w.old) (terms_at w.old.nodes args.now) method.now) facts.old facts.new) }
    ensures stays { Stays w.old w.new }
{
    keys_keep_their_types();
    add_own(alloc, w, facts, at, method, args)?;
    add_each(alloc, w, facts, at, method.overrides.as_slice(), args)
}

/// Adds the method itself, where it may fill a slot.
fn add_own(
    alloc: Global,
    w: &mut World,
    facts: &mut Facts,
    at: &TypeKey,
    method: &Method,
    args: &TypeKeys,
) -> Result<(), NoMemory>
    requires { AllBelow (length w.old.nodes) args.now }
    ensures ok { OnOk result (Adds w.new.nodes at.now (own_offers (hierarchy w.old) (terms_at w.old.nodes args.now) method.now) facts.old facts.new) }
    ensures stays { Stays w.old w.new }
{
    if is_provider(method) {
        let fact = fact_of(alloc, w, at, None, &method.name, &method.sig, Some(args))?;
        facts.add(alloc, fact.as_slice())
    } else {
        Ok(())
    }
}

/// Whether a method may fill a slot: whether it is public, virtual and not static (ECMA-335 II.23.1.10).
fn is_provider(method: &Method) -> bool
    ensures { result ≡ is_provider method.now }
{
    let flags = method.flags;
    flags & 7 == 6 && flags & 0x40 == 0x40 && flags & 0x10 != 0x10
}

/// Adds the overrides of a method.
fn add_each(
    alloc: Global,
    w: &mut World,
    facts: &mut Facts,
    at: &TypeKey,
    overrides: &[MethodRef],
    args: &TypeKeys,
) -> Result<(), NoMemory>
    requires { AllBelow (length w.old.nodes) args.now }
    ensures ok { OnOk result (Adds w.new.nodes at.now (flat_map (override_offers (hierarchy w.old) (terms_at w.old.nodes args.now)) overrides.now) facts.old facts.new) }
    ensures stays { Stays w.old w.new }
{
    keys_keep_their_types();
    for reference in overrides {
        add_override(alloc, w, facts, at, reference, args)?;
    }
    Ok(())
}

/// Adds an override, before and after arguments are put in.
fn add_override(
    alloc: Global,
    w: &mut World,
    facts: &mut Facts,
    at: &TypeKey,
    reference: &MethodRef,
    args: &TypeKeys,
) -> Result<(), NoMemory>
    requires { AllBelow (length w.old.nodes) args.now }
    ensures ok { OnOk result (Adds w.new.nodes at.now (override_offers (hierarchy w.old) (terms_at w.old.nodes args.now) reference.now) facts.old facts.new) }
    ensures stays { Stays w.old w.new }
{
    keys_keep_their_types();
    let owner = overridden(alloc, w, &reference.owner, args)?;
    let name = &reference.name;
    let sig = &reference.sig;
    let plain = fact_of(alloc, w, at, Some(owner), name, sig, None)?;
    let applied = fact_of(alloc, w, at, Some(owner), name, sig, Some(args))?;
    facts.add(alloc, plain.as_slice())?;
    facts.add(alloc, applied.as_slice())
}

/// The interface whose method is overridden.
fn overridden(
    alloc: Global,
    w: &mut World,
    owner: &Owner,
    args: &TypeKeys,
) -> Result<TypeKey, NoMemory>
    requires { AllBelow (length w.old.nodes) args.now }
    ensures ok { IfOk result (λ k. Has w.new.nodes k (replaced (terms_at w.old.nodes args.now) [] (normal_owner (reading_of (hierarchy w.old)) owner.now))) }
    ensures stays { Stays w.old w.new }
{
    let none = Items::new(alloc);
    match owner {
        Owner::Spec(of) => key_of(w, of, args, &none),
        Owner::Name(name) => {
            let name = name.copy(alloc)?;
            let of = SigType::Class(name);
            key_of(w, &of, args, &none)
        }
    }
}
