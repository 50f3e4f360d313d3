ghost use Rattle.std.specs.Prelude.{◌≡◌, ◌↔◌};
ghost use Rattle.std.specs.declared.cmp.Ordering.TheVariants.{Equal};
ghost use Rattle.std.specs.Cmp.Lexicographic.{slice_cmp};
ghost use Rattle.type_terms.specs.Order.{scope_order, id_order, name_order, prim_place, type_place, term_fields, term_order, owner_order};

use crate::{Owner, Prim, Scope, SigType, TypeId, TypeName};
use std::cmp::Ordering;

/// Compares two types: by variant in the order of declaration, and then by their fields from left to
/// right, texts by bytes, and lists item by item with a proper prefix before the longer list. `Equal`
/// comes exactly for equal types. Takes no memory.
#[tactic(auto, using(crate::proofs::OrderLaws::equal_terms))]
pub fn compare_terms(a: &SigType, b: &SigType) -> Ordering
    ensures order { result ≡ term_order a.now b.now }
    ensures equal { (result ≡ Equal) ↔ (a.now ≡ b.now) }
{
    compare_types(a, b)
}

/// Compares two owners: a name stands before a type, and names and types go by their own order.
/// `Equal` comes exactly for equal owners. Takes no memory.
#[tactic(auto, using(crate::proofs::OrderLaws::equal_owners))]
pub fn compare_owners(a: &Owner, b: &Owner) -> Ordering
    ensures order { result ≡ owner_order a.now b.now }
    ensures equal { (result ≡ Equal) ↔ (a.now ≡ b.now) }
{
    compare_named(a, b)
}

#[cycle(compare)]
fn compare_types(a: &SigType, b: &SigType) -> Ordering
    ensures { result ≡ term_order a.now b.now }
{
    let places = place_of(a).cmp(&place_of(b));
    if places != Ordering::Equal {
        return places;
    }
    compare_fields(a, b)
}

#[cycle(compare)]
fn compare_named(a: &Owner, b: &Owner) -> Ordering
    ensures { result ≡ owner_order a.now b.now }
{
    match a {
        Owner::Name(name) => match b {
            Owner::Name(other) => compare_names(name, other),
            Owner::Spec(_) => Ordering::Less,
        },
        Owner::Spec(of) => match b {
            Owner::Name(_) => Ordering::Greater,
            Owner::Spec(other) => compare_types(of, other),
        },
    }
}

/// Compares the fields of two types of one variant.
#[cycle(compare)]
fn compare_fields(a: &SigType, b: &SigType) -> Ordering
    ensures { type_place a.now ≡ type_place b.now → result ≡ term_fields a.now b.now }
{
    match (a, b) {
        (SigType::Prim(x), SigType::Prim(y)) => place_of_prim(*x).cmp(&place_of_prim(*y)),
        (SigType::Class(x), SigType::Class(y)) | (SigType::Value(x), SigType::Value(y)) => {
            compare_names(x, y)
        }
        (
            SigType::Inst { value, name, args },
            SigType::Inst {
                value: other_value,
                name: other_name,
                args: other_args,
            },
        ) => {
            match value
                .cmp(other_value)
                .then(compare_names(name.get(), other_name.get()))
            {
                Ordering::Equal => compare_all(args.get().as_slice(), other_args.get().as_slice()),
                head => head,
            }
        }
        (SigType::Var(x), SigType::Var(y)) | (SigType::MVar(x), SigType::MVar(y)) => x.cmp(y),
        (SigType::SzArray(x), SigType::SzArray(y))
        | (SigType::ByRef(x), SigType::ByRef(y))
        | (SigType::Pointer(x), SigType::Pointer(y))
        | (SigType::Pinned(x), SigType::Pinned(y)) => compare_types(x.get(), y.get()),
        (
            SigType::Array {
                of,
                rank,
                sizes,
                lower,
            },
            SigType::Array {
                of: other_of,
                rank: other_rank,
                sizes: other_sizes,
                lower: other_lower,
            },
        ) => compare_types(of.get(), other_of.get())
            .then(rank.cmp(other_rank))
            .then(sizes.get().as_slice().cmp(other_sizes.get().as_slice()))
            .then(lower.get().as_slice().cmp(other_lower.get().as_slice())),
        (
            SigType::Mod { required, by, of },
            SigType::Mod {
                required: other_required,
                by: other_by,
                of: other_of,
            },
        ) => {
            match required
                .cmp(other_required)
                .then(compare_named(by.get(), other_by.get()))
            {
                Ordering::Equal => compare_types(of.get(), other_of.get()),
                head => head,
            }
        }
        _ => Ordering::Equal,
    }
}

/// Compares two lists of types, item by item.
#[cycle(compare)]
fn compare_all(a: &[SigType], b: &[SigType]) -> Ordering
    ensures { result ≡ slice_cmp term_order a.now b.now }
{
    let mut others = b;
    for x in a {
        let Some((y, rest)) = others.split_first() else {
            return Ordering::Greater;
        };
        let order = compare_types(x, y);
        if order != Ordering::Equal {
            return order;
        }
        others = rest;
    }
    if others.is_empty() {
        Ordering::Equal
    } else {
        Ordering::Less
    }
}

/// Compares two names: those of this assembly first, then by the number of the assembly, and then by
/// the path.
fn compare_names(a: &TypeName, b: &TypeName) -> Ordering
    ensures { result ≡ name_order a.now b.now }
{
    let scopes = compare_scopes(a.scope, b.scope);
    if scopes != Ordering::Equal {
        return scopes;
    }
    compare_paths(a.path.as_slice(), b.path.as_slice())
}

fn compare_scopes(a: Scope, b: Scope) -> Ordering
    ensures { result ≡ scope_order a b }
{
    match (a, b) {
        (Scope::Here, Scope::Here) => Ordering::Equal,
        (Scope::Here, Scope::Extern(_)) => Ordering::Less,
        (Scope::Extern(_), Scope::Here) => Ordering::Greater,
        (Scope::Extern(x), Scope::Extern(y)) => x.cmp(&y),
    }
}

fn compare_paths(a: &[TypeId], b: &[TypeId]) -> Ordering
    ensures { result ≡ slice_cmp id_order a.now b.now }
{
    let mut others = b;
    for x in a {
        let Some((y, rest)) = others.split_first() else {
            return Ordering::Greater;
        };
        let order = compare_ids(x, y);
        if order != Ordering::Equal {
            return order;
        }
        others = rest;
    }
    if others.is_empty() {
        Ordering::Equal
    } else {
        Ordering::Less
    }
}

fn compare_ids(a: &TypeId, b: &TypeId) -> Ordering
    ensures { result ≡ id_order a.now b.now }
{
    a.space
        .as_bytes()
        .cmp(b.space.as_bytes())
        .then(a.name.as_bytes().cmp(b.name.as_bytes()))
}

/// The place of the type's variant.
fn place_of(t: &SigType) -> u8
    ensures { result ≡ type_place t.now }
{
    match t {
        SigType::Prim(_) => 0,
        SigType::Class(_) => 1,
        SigType::Value(_) => 2,
        SigType::Inst { .. } => 3,
        SigType::Var(_) => 4,
        SigType::MVar(_) => 5,
        SigType::SzArray(_) => 6,
        SigType::Array { .. } => 7,
        SigType::ByRef(_) => 8,
        SigType::Pointer(_) => 9,
        SigType::Mod { .. } => 10,
        SigType::Pinned(_) => 11,
    }
}

/// The place of a primitive type among the others.
pub(crate) fn place_of_prim(prim: Prim) -> u8
    ensures { result ≡ prim_place prim }
{
    prim as u8
}
