//! The types of the image by their names, and the fields of those that owners mean.
ghost use Rattle.std.specs.Prelude.{◌≡◌, ◌<◌, ◌++◌, ◌∷◌, [], IfOk, List, Some, drop, length, slice_get, take};
ghost use Rattle.std.specs.Option.{option_copied};
ghost use Rattle.type_terms.specs.declared.name.Scope.TheVariants.{Here};
ghost use Rattle.type_terms.specs.declared.name.TypeId.{TypeId};
ghost use Rattle.assembly_tree.specs.DataSize.{declared, named, type_at};
ghost use Rattle.assembly_tree.specs.declared.assembly.Assembly.{Assembly};
ghost use Rattle.type_order.specs.Fields.{fields_by_scope, fields_meant, fields_of, the_module};
ghost use Rattle.type_order.specs.Keys.{reading_of};
ghost use Rattle.type_hierarchy.specs.Ancestors.{name_in};
ghost use Rattle.type_hierarchy.specs.Gathered.{scope_by};
ghost use Rattle.type_hierarchy.specs.Indexed.{KnowsTypes, types_at};
ghost use Rattle.type_hierarchy.specs.Names.{class_of, same_path};
ghost use Rattle.type_hierarchy.specs.Normal.{normal};
ghost use Rattle.type_hierarchy.specs.Tables.{hierarchy_in};
ghost use Rattle.type_hierarchy.specs.World.{hierarchy};

use crate::types::World;
use assembly_tree::{Assembly, Field, TypeDef};
use il_lists::NoMemory;
use std::alloc::Global;
use type_hierarchy::core_types::class_name;
use type_hierarchy::tables::Tables;
use type_terms::{Owner, Prim, Scope, SigType, TypeId, TypeName};

/// The type that a name of the image has, as it is written: None where the scope isn't the image itself or the image `a` of
/// the world declares no such type (ECMA-335 II.10).
///
/// It takes no memory, and the time of a look-up by hash for each name in the path.
pub fn type_named<'a>(w: &World, a: &'a Assembly, name: &TypeName) -> Option<&'a TypeDef>
    requires { KnowsTypes a.now w.now.tables }
    ensures { option_copied result ≡ declared a.now name.now }
{
    match name.scope {
        Scope::Here => type_of(&w.tables, a, name.path.as_slice()),
        Scope::Extern(_) => None,
    }
}

/// The fields of the type that an owner means, where the image `a` of the world declares it, and none elsewhere (ECMA-335
/// II.10, II.16). The image's own name in brackets means the image, modifiers fall away, and a primitive type is its class
/// in the core. `<Module>` has the fields that stand outside types (II.10.8).
///
/// It takes the time of a look-up by hash for each name in the path. NoMemory where there is no memory, which only a
/// primitive type takes.
pub fn fields_meant<'a>(w: &World, a: &'a Assembly, owner: &Owner) -> Result<&'a [Field], NoMemory>
    requires { KnowsTypes a.now w.now.tables }
    ensures { IfOk result (λ fields. fields.now ≡ fields_meant a.now (hierarchy w.now) owner.now) }
{
    fields_of_owner(w.alloc, &w.tables, a, owner)
}

/// The fields of the type that an owner means.
fn fields_of_owner<'a>(
    alloc: Global,
    tables: &Tables,
    a: &'a Assembly,
    owner: &Owner,
) -> Result<&'a [Field], NoMemory>
    requires { KnowsTypes a.now tables.now }
    ensures { IfOk result (λ fields. fields.now ≡ fields_meant a.now (hierarchy_in tables.now) owner.now) }
{
    match owner {
        Owner::Name(name) => Ok(fields_named(tables, a, name)),
        Owner::Spec(of) => fields_of_type(alloc, tables, a, of),
    }
}

/// The fields of the type that a type means.
fn fields_of_type<'a>(
    alloc: Global,
    tables: &Tables,
    a: &'a Assembly,
    of: &SigType,
) -> Result<&'a [Field], NoMemory>
    requires { KnowsTypes a.now tables.now }
    ensures { IfOk result (λ fields. fields.now ≡ fields_of a.now (name_in (hierarchy_in tables.now) (normal (reading_of (hierarchy_in tables.now)) of.now))) }
{
    match of {
        SigType::Class(name) => Ok(fields_named(tables, a, name)),
        SigType::Value(name) => Ok(fields_named(tables, a, name)),
        SigType::Inst { name, .. } => Ok(fields_named(tables, a, name.get())),
        SigType::Prim(prim) => fields_of_primitive(alloc, tables, a, *prim),
        SigType::Mod { of, .. } => fields_of_type(alloc, tables, a, of.get()),
        SigType::Pinned(of) => fields_of_type(alloc, tables, a, of.get()),
        SigType::Var(_) => Ok(&[]),
        SigType::MVar(_) => Ok(&[]),
        SigType::SzArray(_) => Ok(&[]),
        SigType::Array { .. } => Ok(&[]),
        SigType::ByRef(_) => Ok(&[]),
        SigType::Pointer(_) => Ok(&[]),
    }
}

/// The fields of the class of a primitive type, where the image is the core.
fn fields_of_primitive<'a>(
    alloc: Global,
    tables: &Tables,
    a: &'a Assembly,
    prim: Prim,
) -> Result<&'a [Field], NoMemory>
    requires { KnowsTypes a.now tables.now }
    ensures { IfOk result (λ fields. fields.now ≡ fields_by_scope a.now tables.now.values.core (class_of prim)) }
{
    match tables.values.core {
        Scope::Extern(_) => Ok(&[]),
        Scope::Here => {
            let name = class_name(alloc, Scope::Here, prim)?;
            Ok(fields_here(tables, a, name.path.as_slice()))
        }
    }
}

/// The fields of the type that a name means.
fn fields_named<'a>(tables: &Tables, a: &'a Assembly, name: &TypeName) -> &'a [Field]
    requires { KnowsTypes a.now tables.now }
    ensures { result.now ≡ fields_by_scope a.now (scope_by tables.now.means name.now.scope) name.now.path }
{
    match tables.means.of(name.scope) {
        Scope::Here => fields_here(tables, a, name.path.as_slice()),
        Scope::Extern(_) => &[],
    }
}

/// The fields of the type of a path.
fn fields_here<'a>(tables: &Tables, a: &'a Assembly, path: &[TypeId]) -> &'a [Field]
    requires { KnowsTypes a.now tables.now }
    ensures { result.now ≡ fields_by_scope a.now Here path.now }
{
    if is_the_module(path) {
        return a.fields.as_slice();
    }
    match type_of(tables, a, path) {
        Some(of) => of.fields.as_slice(),
        None => &[],
    }
}

/// Whether a path is that of `<Module>`.
fn is_the_module(path: &[TypeId]) -> bool
    ensures { result ≡ same_path path.now the_module }
{
    match path {
        [id] => id.name.as_bytes() == "<Module>".as_bytes() && id.space.as_bytes() == "".as_bytes(),
        _ => false,
    }
}

/// The type that a path leads to.
fn type_of<'a>(tables: &Tables, a: &'a Assembly, path: &[TypeId]) -> Option<&'a TypeDef>
    requires { KnowsTypes a.now tables.now }
    ensures { option_copied result ≡ type_at a.now.types path.now }
{
    if path.is_empty() {
        return None;
    }
    type_below(tables, a.types.as_slice(), path, 0)
}

/// The type that the path leads to whose first `depth` names lead to what nests these types.
fn type_below<'a>(
    tables: &Tables,
    types: &'a [TypeDef],
    path: &[TypeId],
    depth: usize,
) -> Option<&'a TypeDef>
    requires within { depth < length path.now }
    requires paired { length tables.now.indexes ≡ length tables.now.names }
    ensures { (a : Assembly) → KnowsTypes a tables.now → types.now ≡ types_at a.types (take depth path.now) → option_copied result ≡ type_at types.now (drop depth path.now) }
{
    match type_here(tables, types, &path[..depth + 1]) {
        None => None,
        Some(of) => {
            if depth + 1 == path.len() {
                Some(of)
            } else {
                type_below(tables, of.nested.as_slice(), path, depth + 1)
            }
        }
    }
}

/// The type that a path leads to, of the types that stand side by side there.
fn type_here<'a>(tables: &Tables, types: &'a [TypeDef], path: &[TypeId]) -> Option<&'a TypeDef>
    requires { length tables.now.indexes ≡ length tables.now.names }
    ensures { (a : Assembly) (outer : List TypeId) (id : TypeId) → KnowsTypes a tables.now → types.now ≡ types_at a.types outer → path.now ≡ outer ++ id ∷ [] → option_copied result ≡ named id types.now }
{
    match tables.names.find(Scope::Here, path) {
        None => None,
        Some(place) => type_by_place(types, *tables.indexes.at(place)),
    }
}

/// The type at a place of these.
fn type_by_place(types: &[TypeDef], place: usize) -> Option<&TypeDef>
    ensures { option_copied result ≡ slice_get types.now place }
{
    types.get(place)
}
