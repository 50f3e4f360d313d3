//! The method at a place.
ghost use Rattle.std.specs.Prelude.{◌≡◌, ◌<◌, ◌∷◌, ◌^◌, [], None, Some, length, IfOk, IsTrue, ◌↔◌};
ghost use Rattle.std.specs.Option.{option_copied};
ghost use Rattle.assembly_tree.specs.declared.typedef.TypeDef.{TypeDef as TheTypeDef};
ghost use Rattle.assembly_tree.specs.declared.typedef.TypeDef.TheViews.{out-TypeDef};
ghost use Rattle.body_verifier.specs.Checking.{LeadsToBody};
ghost use Rattle.body_verifier.specs.Finding.{method_in, typedef_at, typedef_by};
ghost use Rattle.type_order.specs.Fields.{the_module};
ghost use Rattle.code_flow.specs.Methods.{inwards, method_at, type_by_place, Nested};

use assembly_tree::{Assembly, Method, MethodPath, TypeDef};
use il_lists::{Copies, NoMemory, Text};
use std::alloc::Global;
use type_terms::{Path, TypeId};

/// The type that places lead to, inwards from a type. Takes no memory.
fn inner_type<'a>(outer: &'a TypeDef, places: &[u32]) -> Option<&'a TypeDef>
    ensures { option_copied result ≡ typedef_by places.now outer.now }
{
    let mut inner = outer;
    let mut rest = places;
    while let [k, more @ ..] = rest {
        match inner.nested.get(*k as usize) {
            Some(next) => inner = next,
            None => return None,
        }
        rest = more;
    }
    Some(inner)
}

/// The type that places lead to. Takes no memory.
fn typedef_at<'a>(a: &'a Assembly, places: &[u32]) -> Option<&'a TypeDef>
    ensures { option_copied result ≡ typedef_at a.now places.now }
{
    match places {
        [] => None,
        [first, rest @ ..] => match a.types.get(*first as usize) {
            Some(outer) => inner_type(outer, rest),
            None => None,
        },
    }
}

/// The method at a place. Takes no memory.
pub(crate) fn method_by<'a>(a: &'a Assembly, at: &MethodPath) -> Option<&'a Method>
    ensures { option_copied result ≡ method_in (method_at a.now at.now) }
{
    let k = at.method as usize;
    if at.types.is_empty() {
        return a.methods.get(k);
    }
    match typedef_at(a, at.types.as_slice()) {
        Some(of) => of.methods.get(k),
        None => None,
    }
}

/// The number of generic parameters of the type that places lead to, and 0 where they lead to none. Takes no memory.
pub(crate) fn parameters_by(a: &Assembly, places: &[u32]) -> u32
    requires { (t : TheTypeDef) → typedef_at a.now places.now ≡ Some t → length (out-TypeDef t).generics < 2 ^ 32 }
    ensures some { (t : TheTypeDef) → typedef_at a.now places.now ≡ Some t → result ≡ length (out-TypeDef t).generics }
    ensures none { typedef_at a.now places.now ≡ None → result ≡ 0 }
{
    match typedef_at(a, places) {
        Some(of) => of.generics.len() as u32,
        None => 0,
    }
}

/// The path of the type that places lead to, inwards from a type.
fn inner_path(alloc: Global, outer: &TypeDef, places: &[u32]) -> Result<Path, NoMemory>
    ensures { (t : Nested) → inwards places.now (record { path = (out-TypeDef outer.now).id ∷ []; typedef = outer.now }) ≡ Some t → IfOk result (λ p. p ≡ t.path) }
{
    let mut path = Path::new(alloc, outer.id.copy(alloc)?)?;
    let mut inner = outer;
    let mut rest = places;
    while let [k, more @ ..] = rest {
        match inner.nested.get(*k as usize) {
            Some(next) => {
                path.push(next.id.copy(alloc)?)?;
                inner = next;
            }
            None => return Ok(path),
        }
        rest = more;
    }
    Ok(path)
}

/// The path of `<Module>`, which holds the members that stand outside types (ECMA-335 II.10.8).
fn module_path(alloc: Global) -> Result<Path, NoMemory>
    ensures { IfOk result (λ p. p ≡ the_module) }
{
    let space = Text::new(alloc, "")?;
    let name = Text::new(alloc, "<Module>")?;
    Path::new(alloc, TypeId { space, name })
}

fn path_from(alloc: Global, a: &Assembly, first: u32, rest: &[u32]) -> Result<Path, NoMemory>
    ensures { (t : Nested) → type_by_place a.now (first ∷ rest.now) ≡ Some t → IfOk result (λ p. p ≡ t.path) }
{
    match a.types.get(first as usize) {
        Some(outer) => inner_path(alloc, outer, rest),
        None => module_path(alloc),
    }
}

/// The path of the type that places lead to, which is `<Module>` where there are none.
pub(crate) fn path_by(alloc: Global, a: &Assembly, places: &[u32]) -> Result<Path, NoMemory>
    ensures inner { (t : Nested) → type_by_place a.now places.now ≡ Some t → IfOk result (λ p. p ≡ t.path) }
    ensures outer { places.now ≡ [] → IfOk result (λ p. p ≡ the_module) }
{
    match places {
        [] => module_path(alloc),
        [first, rest @ ..] => path_from(alloc, a, *first, rest),
    }
}

/// Whether a place is that of a method with a body. Takes no memory.
pub fn has_body(a: &Assembly, at: &MethodPath) -> bool
    ensures { IsTrue result ↔ LeadsToBody a.now at.now }
{
    match method_by(a, at) {
        Some(method) => method.body.is_some(),
        None => false,
    }
}
