//! The core's own types that the rules speak of.
ghost use Rattle.std.specs.Prelude.{◌≡◌, length, IfOk, unwrap_or};
ghost use Rattle.std.specs.Option.{option_copied};
ghost use Rattle.sig_pool.specs.Pool.{Extends, Has};
ghost use Rattle.type_hierarchy.specs.Above.{path_of, path_above, name_above};
ghost use Rattle.type_hierarchy.specs.Declarations.{is_class_of};
ghost use Rattle.type_hierarchy.specs.Names.{full_name, system, same_path, class_of};
ghost use Rattle.type_hierarchy.specs.Hierarchy.{object, named_by, named, core_name, chain_above, chained_in, as_parent, chain_parent, parent_by};
ghost use Rattle.type_hierarchy.specs.Tables.{hierarchy_in, declaration_in};

use crate::tables::{Declared, Tables};
use il_lists::{NoMemory, Text};
use sig_pool::{SigId, SigPool};
use std::alloc::Global;
use type_terms::{Path, Prim, Scope, SigType, TypeId, TypeName};

/// The name of the top-level type `name` of the space `System` in that scope.
pub fn system_name(alloc: Global, scope: Scope, name: &str) -> Result<TypeName, NoMemory>
    ensures { IfOk result (λ n. n ≡ full_name scope (system name.now)) }
{
    let space = Text::new(alloc, "System")?;
    let name = Text::new(alloc, name)?;
    let path = Path::new(alloc, TypeId { space, name })?;
    Ok(TypeName { scope, path })
}

/// The id of the type `t`.
pub fn intern(pool: &mut SigPool, t: SigType) -> Result<SigId, NoMemory>
    ensures ok { IfOk result (λ id. Has pool.new id t) }
    ensures extends { Extends pool.old pool.new }
{
    pool.intern(&t)
}

/// The id of Object.
pub fn object_id(pool: &mut SigPool) -> Result<SigId, NoMemory>
    ensures ok { IfOk result (λ id. Has pool.new id object) }
    ensures extends { Extends pool.old pool.new }
{
    intern(pool, SigType::Prim(Prim::Object))
}

/// The type of a name, by whether it is a value type.
pub fn named(is_value: bool, name: TypeName) -> SigType
    ensures { result ≡ named_by is_value name }
{
    if is_value {
        SigType::Value(name)
    } else {
        SigType::Class(name)
    }
}

/// The id of the core's class `name` of the space `System`.
#[tactic(auto, unfolding(crate::specs::Tables::hierarchy_in))]
pub fn core_type(
    alloc: Global,
    tables: &Tables,
    pool: &mut SigPool,
    name: &str,
) -> Result<SigId, NoMemory>
    requires { length tables.now.names ≡ length tables.now.entries }
    ensures ok { IfOk result (λ id. Has pool.new id (named (hierarchy_in tables.now) (core_name (hierarchy_in tables.now) (system name.now)))) }
    ensures extends { Extends pool.old pool.new }
{
    let name = system_name(alloc, tables.values.core, name)?;
    let is_value = tables.values.has(name.scope, name.path.as_slice());
    intern(pool, named(is_value, name))
}

/// The class above one in its core chain.
#[derive(Clone, Copy)]
pub enum Above {
    Object,
    ValueType,
    Delegate,
}

/// Whether a path is that of the top-level class `name` of the space `System`.
pub fn is_system(path: &[TypeId], name: &str) -> bool
    ensures { result ≡ same_path path.now (system name.now) }
{
    match path {
        [id] => id.name.as_bytes() == name.as_bytes() && id.space.as_bytes() == "System".as_bytes(),
        _ => false,
    }
}

/// Whether the name of `path` in `scope` is that of the core's top-level class `name` of the space `System`.
pub fn is_class_of(core: Scope, scope: Scope, path: &[TypeId], name: &str) -> bool
    ensures { result ≡ is_class_of core (system name.now) (full_name scope path.now) }
{
    scope == core && is_system(path, name)
}

/// The class above that of a path in its core chain.
fn chain_above(path: &[TypeId]) -> Option<Above>
    ensures { path_above result ≡ chain_above path.now }
{
    if is_system(path, "Enum") {
        Some(Above::ValueType)
    } else if is_system(path, "ValueType") {
        Some(Above::Object)
    } else if is_system(path, "MulticastDelegate") {
        Some(Above::Delegate)
    } else if is_system(path, "Delegate") {
        Some(Above::Object)
    } else if is_system(path, "String") {
        Some(Above::Object)
    } else if is_system(path, "Array") {
        Some(Above::Object)
    } else if is_system(path, "Exception") {
        Some(Above::Object)
    } else {
        None
    }
}

/// The class above that of a name in its core chain, where the core has that scope.
pub fn chained(core: Scope, scope: Scope, path: &[TypeId]) -> Option<Above>
    ensures { name_above core result ≡ chained_in core (full_name scope path.now) }
{
    if scope == core {
        chain_above(path)
    } else {
        None
    }
}

/// The id of a class that stands above others.
#[tactic(auto, unfolding(crate::specs::Tables::hierarchy_in))]
fn above_id(
    alloc: Global,
    tables: &Tables,
    pool: &mut SigPool,
    above: Above,
) -> Result<SigId, NoMemory>
    requires { length tables.now.names ≡ length tables.now.entries }
    ensures ok { IfOk result (λ id. Has pool.new id (as_parent (hierarchy_in tables.now) (full_name tables.now.values.core (path_of above)))) }
    ensures extends { Extends pool.old pool.new }
{
    match above {
        Above::ValueType => core_type(alloc, tables, pool, "ValueType"),
        Above::Delegate => core_type(alloc, tables, pool, "Delegate"),
        Above::Object => object_id(pool),
    }
}

/// The id of the class above another, or else of Object.
fn chain_parent(
    alloc: Global,
    tables: &Tables,
    pool: &mut SigPool,
    next: Option<Above>,
) -> Result<SigId, NoMemory>
    requires { length tables.now.names ≡ length tables.now.entries }
    ensures ok { IfOk result (λ id. Has pool.new id (chain_parent (hierarchy_in tables.now) (name_above tables.now.values.core next))) }
    ensures extends { Extends pool.old pool.new }
{
    match next {
        Some(above) => above_id(alloc, tables, pool, above),
        None => object_id(pool),
    }
}

/// The id of a declared type's base, or else of Object.
pub fn base_id(pool: &mut SigPool, declared: &Declared) -> Result<SigId, NoMemory>
    ensures ok { IfOk result (λ id. Has pool.new id (unwrap_or declared.now.base object)) }
    ensures extends { Extends pool.old pool.new }
{
    match &declared.base {
        Some(base) => pool.intern(base),
        None => object_id(pool),
    }
}

/// The id of the parent of a name's type, from the class above it in its core chain and its declaration.
pub fn parent_by(
    alloc: Global,
    tables: &Tables,
    pool: &mut SigPool,
    next: Option<Above>,
    declared: Option<&Declared>,
) -> Result<SigId, NoMemory>
    requires { length tables.now.names ≡ length tables.now.entries }
    ensures ok { IfOk result (λ id. Has pool.new id (parent_by (hierarchy_in tables.now) (name_above tables.now.values.core next) (declaration_in (option_copied declared.entry)))) }
    ensures extends { Extends pool.old pool.new }
{
    match declared {
        Some(declared) => base_id(pool, declared),
        None => chain_parent(alloc, tables, pool, next),
    }
}

/// The name of a primitive type's class in the core.
pub fn class_name(alloc: Global, core: Scope, prim: Prim) -> Result<TypeName, NoMemory>
    ensures { IfOk result (λ n. n ≡ full_name core (class_of prim)) }
{
    system_name(alloc, core, class_word(prim))
}

/// What a primitive type's class is called.
pub fn class_word(prim: Prim) -> &'static str
    ensures { system result.now ≡ class_of prim }
{
    match prim {
        Prim::Void => "Void",
        Prim::Bool => "Boolean",
        Prim::Char => "Char",
        Prim::I1 => "SByte",
        Prim::U1 => "Byte",
        Prim::I2 => "Int16",
        Prim::U2 => "UInt16",
        Prim::I4 => "Int32",
        Prim::U4 => "UInt32",
        Prim::I8 => "Int64",
        Prim::U8 => "UInt64",
        Prim::R4 => "Single",
        Prim::R8 => "Double",
        Prim::Str => "String",
        Prim::Object => "Object",
        Prim::TypedRef => "TypedReference",
        Prim::NInt => "IntPtr",
        Prim::NUint => "UIntPtr",
    }
}
