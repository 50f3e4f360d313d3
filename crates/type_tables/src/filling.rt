//! The tables of a world, from its assemblies.
ghost use Rattle.std.specs.Prelude.{◌≡◌, ◌<◌, ◌&&◌, ◌||◌, ℕ, length, slice_get, IfOk, OnOk, Some};
ghost use Rattle.type_terms.specs.declared.name.TypeName.{TypeName};
ghost use Rattle.assembly_tree.specs.declared.typedef.TypeDef.TheViews.{out-TypeDef};
ghost use Rattle.type_tables.specs.Building.{AreEntries, AreTables, AreValues};
ghost use Rattle.type_hierarchy.specs.Declarations.{base_is_in, declaration_of};
ghost use Rattle.type_hierarchy.specs.Gathered.{scope_by, with_name};
ghost use Rattle.type_tables.specs.Members.{IsScopes};
ghost use Rattle.type_hierarchy.specs.Scopes.{sources, Sources};
ghost use Rattle.type_hierarchy.specs.Names.{the_enum, the_value_type};
ghost use Rattle.type_tables.specs.Placed.{IsAligned};
ghost use Rattle.type_tables.specs.Places.{ArePlaces, row};
ghost use Rattle.type_hierarchy.specs.Reading.{value_by};
ghost use Rattle.type_hierarchy.specs.Tables.{declaration};

use crate::declaring::{base_is, declared};
use crate::marked::marked_names;
use crate::members::Assemblies;
use crate::places::Places;
use crate::scopes::Scopes;
use assembly_tree::{Assembly, TypeDef};
use il_lists::{Copies, Items, NoMemory};
use std::alloc::Global;
use type_hierarchy::core_types::is_class_of;
use type_hierarchy::meanings::Meanings;
use type_hierarchy::names::Names;
use type_hierarchy::tables::{Declared, Tables};
use type_hierarchy::values::Values;
use type_terms::{Scope, TypeName};

/// Which names are value types: those with `valuetype` before them in an assembly, and those that are declared with the
/// core's ValueType or Enum as base.
pub fn value_types(
    alloc: Global,
    image: &Assembly,
    references: &Assemblies,
    scopes: &Scopes,
    places: &Places<'_>,
) -> Result<Values, NoMemory>
    requires scopes { IsScopes (sources image.now references.now) scopes.now }
    requires places { ArePlaces (sources image.now references.now) (row places.now) }
    requires within { (k at : ℕ) → slice_get places.now.members k ≡ Some at → at < length scopes.now.meanings }
    ensures { IfOk result (λ v. AreValues (sources image.now references.now) v) }
{
    let core = scopes.core;
    let mut names = marked_names(alloc, image, references, scopes)?;
    for (k, of) in places.types.as_slice().iter().enumerate() {
        let means = scopes.meanings.at(*places.members.at(k));
        if has_value_base(core, means, of) {
            add_copy(alloc, places.names.at(k), &mut names)?;
        }
    }
    Ok(Values { core, names })
}

/// Whether the base of a type is the core's ValueType or Enum.
fn has_value_base(core: Scope, means: &Meanings, of: &TypeDef) -> bool
    ensures { result ≡ (base_is_in core (scope_by means.now) the_value_type (out-TypeDef of.now).extends || base_is_in core (scope_by means.now) the_enum (out-TypeDef of.now).extends) }
{
    base_is(core, means, &of.extends, "ValueType") || base_is(core, means, &of.extends, "Enum")
}

/// Adds a name unless it is there.
fn add_copy(alloc: Global, name: &TypeName, into: &mut Names) -> Result<(), NoMemory>
    ensures { OnOk result (into.new ≡ with_name into.old name.now) }
{
    if into.has(name.scope, name.path.as_slice()) {
        return Ok(());
    }
    let name = name.copy(alloc)?;
    into.push(name)
}

/// The tables: for each declared type what its declaration says.
pub fn fill(
    alloc: Global,
    values: Values,
    scopes: &Scopes,
    places: Places<'_>,
) -> Result<Tables, NoMemory>
    requires some { 0 < length scopes.now.meanings }
    requires aligned { IsAligned (row places) }
    requires within { (k at : ℕ) → slice_get places.members k ≡ Some at → at < length scopes.now.meanings }
    ensures tables { IfOk result (λ t. (s : Sources) → IsScopes s scopes.now → ArePlaces s (row places.entry) → AreValues s values → AreTables s t) }
    ensures names { IfOk result (λ t. t.names ≡ places.entry.names) }
    ensures indexes { IfOk result (λ t. t.indexes ≡ places.entry.indexes) }
{
    let entries = all_entries(alloc, &values, scopes, &places)?;
    let means = scopes.meanings.at(0).copy(alloc)?;
    let Places { names, indexes, .. } = places;
    Ok(Tables {
        values,
        means,
        names,
        entries,
        indexes,
    })
}

/// What the declaration of each of the types says.
fn all_entries(
    alloc: Global,
    values: &Values,
    scopes: &Scopes,
    places: &Places<'_>,
) -> Result<Items<Declared>, NoMemory>
    requires aligned { IsAligned (row places.now) }
    requires within { (k at : ℕ) → slice_get places.now.members k ≡ Some at → at < length scopes.now.meanings }
    ensures count { IfOk result (λ es. length es ≡ length places.now.types) }
    ensures each { IfOk result (λ es. (s : Sources) → IsScopes s scopes.now → ArePlaces s (row places.now) → AreValues s values.now → AreEntries s places.now.names es) }
{
    let mut entries = Items::with_capacity(alloc, places.types.len())?;
    for k in 0..places.types.len() {
        let entry = entry(alloc, values, scopes, places, k)?;
        entries.push(entry)?;
    }
    Ok(entries)
}

/// What the declaration of the type at place `k` says.
fn entry(
    alloc: Global,
    values: &Values,
    scopes: &Scopes,
    places: &Places<'_>,
    k: usize,
) -> Result<Declared, NoMemory>
    requires low { k < length places.now.types }
    requires aligned { IsAligned (row places.now) }
    requires within { (k at : ℕ) → slice_get places.now.members k ≡ Some at → at < length scopes.now.meanings }
    ensures { IfOk result (λ d. (s : Sources) → IsScopes s scopes.now → ArePlaces s (row places.now) → AreValues s values.now → (name : TypeName) → slice_get places.now.names k ≡ Some name → declaration_of s name ≡ Some (declaration d)) }
{
    let of = *places.types.at(k);
    let name = places.names.at(k);
    let path = name.path.as_slice();
    let means = scopes.meanings.at(*places.members.at(k));
    let is_object = is_class_of(values.core, name.scope, path, "Object");
    let is_enum = is_enum(values, means, name, of);
    declared(alloc, values, means, of, is_object, is_enum)
}

/// Whether a type with that name is an enum: a value type with the core's Enum as its base.
fn is_enum(values: &Values, means: &Meanings, name: &TypeName, of: &TypeDef) -> bool
    ensures { result ≡ (value_by values.now name.now && base_is_in values.now.core (scope_by means.now) the_enum (out-TypeDef of.now).extends) }
{
    values.has(name.scope, name.path.as_slice()) && base_is(values.core, means, &of.extends, "Enum")
}
