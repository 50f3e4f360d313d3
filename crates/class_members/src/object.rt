//! What the core's Object offers where it isn't declared.
ghost use Rattle.std.specs.Prelude.{◌≡◌, ◌<◌, ◌∷◌, [], length, true, None, OnOk};
ghost use Rattle.sig_pool.specs.Replaced.{terms_at};
ghost use Rattle.sig_pool.specs.Terms.{AllBelow};
ghost use Rattle.type_terms.specs.declared.term.SigType.TheVariants as type;
ghost use Rattle.type_hierarchy.specs.World.{Stays};
ghost use Rattle.class_model.specs.Filled.{instance_sig};
ghost use Rattle.class_members.specs.Facts.{Adds};
ghost use Rattle.class_members.specs.Offers.{object_offers};

use crate::facts::Facts;
use crate::keys::written;
use il_lists::{Items, NoMemory};
use std::alloc::Global;
use type_order::types::World;
use type_order::{TypeKey, TypeKeys, keys_keep_their_types, primitive_key};
use type_terms::{MethodSig, Prim, SigType};

/// Adds, as offers of the type of `at`, the public virtual methods of Object (ECMA-335 I.8.9.9).
pub fn add_object_offers(
    alloc: Global,
    w: &mut World,
    facts: &mut Facts,
    at: &TypeKey,
) -> Result<(), NoMemory>
    ensures ok { OnOk result (Adds w.new.nodes at.now object_offers facts.old facts.new) }
    ensures stays { Stays w.old w.new }
{
    keys_keep_their_types();
    let object = primitive_key(w, Prim::Object)?;
    let one = Items::one(alloc, object)?;
    let none = Items::new(alloc);
    add_member(alloc, w, facts, at, "ToString".as_bytes(), Prim::Str, &none)?;
    add_member(alloc, w, facts, at, "Equals".as_bytes(), Prim::Bool, &one)?;
    add_member(
        alloc,
        w,
        facts,
        at,
        "GetHashCode".as_bytes(),
        Prim::I4,
        &none,
    )
}

/// Adds an instance method with that name, result and parameters as an offer of the type of `at`.
fn add_member(
    alloc: Global,
    w: &mut World,
    facts: &mut Facts,
    at: &TypeKey,
    name: &[u8],
    ret: Prim,
    params: &TypeKeys,
) -> Result<(), NoMemory>
    requires { AllBelow (length w.old.nodes) params.now }
    ensures ok { OnOk result (Adds w.new.nodes at.now (record { put = true; owner = None; name = name.now; sig = instance_sig (type.Prim ret) (terms_at w.old.nodes params.now) } ∷ []) facts.old facts.new) }
    ensures stays { Stays w.old w.new }
{
    let of = primitive_key(w, ret)?;
    let sig = MethodSig {
        has_this: true,
        explicit_this: false,
        vararg: false,
        generic: 0,
        ret: SigType::Prim(ret),
        params: Items::new(alloc),
        sentinel: None,
    };
    let fact = written(alloc, at, true, None, name, &sig, &of, params.as_slice())?;
    facts.add(alloc, fact.as_slice())
}
