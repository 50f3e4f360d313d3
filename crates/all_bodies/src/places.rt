//! The places of the methods with a body.
ghost use Rattle.std.specs.Prelude.{◌≡◌, ◌++◌, ◌∷◌, ◌<◌, ◌≤◌, ◌^◌, [], IfOk, OnOk, length};
ghost use Rattle.std.specs.List.{sum_by};
ghost use Rattle.assembly_tree.specs.Weight.{typedef_weight, weight_of};
ghost use Rattle.code_flow.specs.Methods.{all_methods, places_in, with_body};
ghost use Rattle.all_bodies.specs.Places.{places_from};

use assembly_tree::{Assembly, Method, MethodPath, TypeDef};
use il_lists::{Items, NoMemory, Numbers};
use std::alloc::Global;

/// The places of the methods with a body, in the order in which they are checked.
pub(crate) fn all_places(alloc: Global, a: &Assembly) -> Result<Items<MethodPath>, NoMemory>
    requires { weight_of a.now ≤ 2 ^ 26 }
    ensures { IfOk result (λ paths. paths ≡ all_methods a.now) }
{
    let mut into = Items::new(alloc);
    let methods = a.methods.as_slice();
    let types = a.types.as_slice();
    add_methods(alloc, &[], methods, &mut into)?;
    add_types(alloc, &[], types, &mut into)?;
    Ok(into)
}

/// Adds the methods of each of the types that stand side by side, and then those of the types that it nests. `outer` leads
/// to what nests these types, and is empty where they stand at the top.
fn add_types(
    alloc: Global,
    outer: &[u32],
    types: &[TypeDef],
    into: &mut Items<MethodPath>,
) -> Result<(), NoMemory>
    requires { sum_by typedef_weight types.now ≤ 2 ^ 26 }
    ensures { OnOk result (into.new ≡ into.old ++ places_from outer.now 0 types.now) }
{
    for (k, of) in types.iter().enumerate() {
        let places = place_in(alloc, outer, k as u32)?;
        let place = places.as_slice();
        let methods = of.methods.as_slice();
        let nested = of.nested.as_slice();
        add_methods(alloc, place, methods, into)?;
        add_types(alloc, place, nested, into)?;
    }
    Ok(())
}

/// The places that lead to the type with the number `k` in what these places lead to.
fn place_in(alloc: Global, outer: &[u32], k: u32) -> Result<Numbers, NoMemory>
    ensures { IfOk result (λ places. places ≡ outer.now ++ k ∷ []) }
{
    let mut places = Items::from_slice(alloc, outer)?;
    places.push(k)?;
    Ok(places)
}

/// Adds each method with a body of the type that these places lead to.
fn add_methods(
    alloc: Global,
    places: &[u32],
    methods: &[Method],
    into: &mut Items<MethodPath>,
) -> Result<(), NoMemory>
    requires { length methods.now < 2 ^ 32 }
    ensures { OnOk result (into.new ≡ into.old ++ places_in places.now methods.now) }
{
    for (k, method) in methods.iter().enumerate() {
        add_method(alloc, places, k as u32, method, into)?;
    }
    Ok(())
}

/// Adds a method, if it has a body.
fn add_method(
    alloc: Global,
    places: &[u32],
    k: u32,
    method: &Method,
    into: &mut Items<MethodPath>,
) -> Result<(), NoMemory>
    ensures { OnOk result (into.new ≡ into.old ++ with_body places.now (k, method.now)) }
{
    if method.body.is_none() {
        return Ok(());
    }
    let types = Items::from_slice(alloc, places)?;
    into.push(MethodPath { types, method: k })
}
