//! The types that the assemblies of a world declare, each with its name in it.
ghost use Rattle.std.specs.Prelude.{◌≡◌, ◌∷◌, ◌++◌, [], ℕ, List, IfOk, IsTrue, OnOk, Some, not, slice_get};
ghost use Rattle.std.specs.List.{Contains, flat_map, list_any};
ghost use Rattle.type_terms.specs.declared.name.TypeId.{TypeId};
ghost use Rattle.assembly_tree.specs.declared.typedef.TypeDef.{TypeDef};
ghost use Rattle.assembly_tree.specs.declared.typedef.TypeDef.TheViews.{out-TypeDef};
ghost use Rattle.assembly_tree.specs.WellFormed.{are_classes};
ghost use Rattle.type_hierarchy.specs.Ancestors.{typedef_paths};
ghost use Rattle.type_hierarchy.specs.Gathered.{with_name};
ghost use Rattle.type_tables.specs.Indexing.{AreIndexed, IsIndexed};
ghost use Rattle.type_tables.specs.Members.{IsScopes, assembly_of};
ghost use Rattle.type_hierarchy.specs.Scopes.{sources};
ghost use Rattle.type_hierarchy.specs.Names.{full_name, same_scope};
ghost use Rattle.type_tables.specs.Placed.{placed, IsGrown};
ghost use Rattle.type_tables.specs.Places.{ArePlaces, row};
ghost use Rattle.type_hierarchy.specs.declared.meanings.Meanings.{Meanings};

use crate::members::{Assemblies, assembly_of};
use crate::scopes::Scopes;
use assembly_tree::{Assembly, TypeDef};
use il_lists::{Copies, Items, NoMemory};
use std::alloc::Global;
use type_hierarchy::meanings::Meanings;
use type_hierarchy::names::Names;
use type_terms::{Path, Scope, TypeId, TypeName};

/// The declared types in order.
#[derive(Drop)]
pub struct Places<'a> {
    /// The name of each.
    pub names: Names,
    /// The place of its assembly among those that count.
    pub members: Items<usize>,
    pub types: Items<&'a TypeDef>,
    /// The place of each among the types that its outer type nests, or that stand at the top.
    pub indexes: Items<usize>,
}

/// The types that assemblies declare, those of the image first, each before those that it nests. Where two assemblies
/// have one scope, the types of the first count.
pub fn read_places<'a>(
    alloc: Global,
    image: &'a Assembly,
    references: &'a Assemblies,
    scopes: &Scopes,
) -> Result<Places<'a>, NoMemory>
    requires scopes { IsScopes (sources image.now references.now) scopes.now }
    requires formed { (n : ℕ) → IsTrue (are_classes (assembly_of (sources image.now references.now) n)) }
    ensures places { IfOk result (λ p. ArePlaces (sources image.now references.now) (row p)) }
    ensures indexes { IfOk result (λ p. AreIndexed image.now.types p) }
{
    let mut into = Places {
        names: Names::new(alloc),
        members: Items::new(alloc),
        types: Items::new(alloc),
        indexes: Items::new(alloc),
    };
    for (k, number) in scopes.numbers.as_slice().iter().enumerate() {
        let own = scopes.meanings.at(k).own;
        if is_first(&scopes.meanings.as_slice()[..k], own) {
            let of = assembly_of(image, references, *number);
            add_types(alloc, own, k, &[], of.types.as_slice(), &mut into)?;
        }
    }
    Ok(into)
}

/// Whether none of these assemblies has that scope.
fn is_first(before: &[Meanings], own: Scope) -> bool
    ensures { result ≡ not (list_any (λ (m : Meanings). same_scope m.own own) before.now) }
{
    for other in before {
        if other.own == own {
            return false;
        }
    }
    true
}

/// Adds each type, and then those that it nests, unless its name is there; `outer` is the path of the type that nests them.
pub fn add_types<'a>(
    alloc: Global,
    scope: Scope,
    member: usize,
    outer: &[TypeId],
    types: &'a [TypeDef],
    into: &mut Places<'a>,
) -> Result<(), NoMemory>
    ensures names { OnOk result (into.new.names ≡ placed scope outer.now into.old.names (flat_map typedef_paths types.now)) }
    ensures types { OnOk result (IsGrown scope outer.now member types.now (row into.old) (row into.new)) }
    ensures indexes { OnOk result (IsIndexed scope outer.now types.now into.old into.new) }
{
    for (index, of) in types.iter().enumerate() {
        let path = path_in(alloc, outer, &of.id)?;
        add_type(alloc, scope, member, index, &path, of, into)?;
        add_types(
            alloc,
            scope,
            member,
            path.as_slice(),
            of.nested.as_slice(),
            into,
        )?;
    }
    Ok(())
}

/// Adds a type, which has that place among those side by side, unless its name is there.
fn add_type<'a>(
    alloc: Global,
    scope: Scope,
    member: usize,
    index: usize,
    path: &Path,
    of: &'a TypeDef,
    into: &mut Places<'a>,
) -> Result<(), NoMemory>
    ensures names { OnOk result (into.new.names ≡ with_name into.old.names (full_name scope path.now)) }
    ensures types { OnOk result ((outer : List TypeId) (types : List TypeDef) → Contains types of.now → path.now ≡ outer ++ (out-TypeDef of.now).id ∷ [] → IsGrown scope outer member types (row into.old) (row into.new)) }
    ensures indexes { OnOk result ((outer : List TypeId) (types : List TypeDef) → slice_get types index ≡ Some of.now → path.now ≡ outer ++ (out-TypeDef of.now).id ∷ [] → IsIndexed scope outer types into.old into.new) }
{
    if into.names.has(scope, path.as_slice()) {
        return Ok(());
    }
    let path = path.copy(alloc)?;
    into.names.push(TypeName { scope, path })?;
    into.members.push(member)?;
    into.types.push(of)?;
    into.indexes.push(index)?;
    Ok(())
}

/// The path of the type `id` that the type of the path `outer` nests, or that is at the top where that is empty.
fn path_in(alloc: Global, outer: &[TypeId], id: &TypeId) -> Result<Path, NoMemory>
    ensures { IfOk result (λ p. p ≡ outer.now ++ id.now ∷ []) }
{
    match outer {
        [] => {
            let id = id.copy(alloc)?;
            Path::new(alloc, id)
        }
        [first, more @ ..] => {
            let mut path = path_of(alloc, first, more)?;
            let id = id.copy(alloc)?;
            path.push(id)?;
            Ok(path)
        }
    }
}

/// The path of these ids.
fn path_of(alloc: Global, first: &TypeId, more: &[TypeId]) -> Result<Path, NoMemory>
    ensures { IfOk result (λ p. p ≡ first.now ∷ more.now) }
{
    let first = first.copy(alloc)?;
    let mut path = Path::new(alloc, first)?;
    extend(alloc, &mut path, more)?;
    Ok(path)
}

/// Adds copies of the ids at the end of a path.
fn extend(alloc: Global, path: &mut Path, more: &[TypeId]) -> Result<(), NoMemory>
    ensures { OnOk result (path.new ≡ path.old ++ more.now) }
{
    for id in more {
        let id = id.copy(alloc)?;
        path.push(id)?;
    }
    Ok(())
}
