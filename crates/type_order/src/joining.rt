//! The least type that two stack types are below.
ghost use Rattle.std.specs.Prelude.{◌≡◌, ◌↔◌, ◌<◌, length, IsTrue, IfOk};
ghost use Rattle.std.specs.Option.{option_map};
ghost use Rattle.sig_pool.specs.Pool.{Extends};
ghost use Rattle.sig_pool.specs.Terms.{term_of};
ghost use Rattle.type_hierarchy.specs.Hierarchy.{parent};
ghost use Rattle.type_hierarchy.specs.Meaning.{meant, IsWithin, MeansOption};
ghost use Rattle.type_hierarchy.specs.Pooled.{HasOption};
ghost use Rattle.type_order.specs.Joining.{is_null, as_object, beside_null, JoinsAs};
ghost use Rattle.type_hierarchy.specs.Stack.{ref};
ghost use Rattle.type_order.specs.Starts.{start, stack_parent};
ghost use Rattle.type_hierarchy.specs.Tables.{hierarchy_in};
ghost use Rattle.type_order.specs.Found.{Knows};

use crate::common::common_id;
use crate::found::{Found, found_parent};
use il_lists::NoMemory;
use sig_pool::{SigId, SigPool};
use std::alloc::Global;
use type_hierarchy::stack_type::{StackType, TypeKey};
use type_hierarchy::tables::Tables;

/// Whether two stack types are equal. Takes no memory.
pub fn is_equal(pool: &SigPool, s: &StackType, t: &StackType) -> bool
    requires s { IsWithin (length pool.now) s.now }
    requires t { IsWithin (length pool.now) t.now }
    ensures { IsTrue result ↔ (meant pool.now s.now ≡ meant pool.now t.now) }
{
    match s {
        StackType::I4 => matches!(t, StackType::I4),
        StackType::I8 => matches!(t, StackType::I8),
        StackType::N => matches!(t, StackType::N),
        StackType::F => matches!(t, StackType::F),
        StackType::Null => matches!(t, StackType::Null),
        StackType::Bad => matches!(t, StackType::Bad),
        StackType::Ref(a) => match t {
            StackType::Ref(b) => pool.same(a.id(), b.id()),
            _ => false,
        },
        StackType::Boxed(a) => match t {
            StackType::Boxed(b) => pool.same(a.id(), b.id()),
            _ => false,
        },
        StackType::Val(a) => match t {
            StackType::Val(b) => pool.same(a.id(), b.id()),
            _ => false,
        },
        StackType::Ptr(a) => match t {
            StackType::Ptr(b) => pool.same(a.id(), b.id()),
            _ => false,
        },
    }
}

/// Whether a stack type is that of null.
pub fn is_null(t: &StackType) -> bool
    ensures { result ≡ is_null t.now }
{
    matches!(t, StackType::Null)
}

/// A reference or boxed value.
fn as_object(t: &StackType) -> Option<StackType>
    ensures { result ≡ as_object t.now }
{
    match t {
        StackType::Ref(_) => Some(*t),
        StackType::Boxed(_) => Some(*t),
        StackType::I4 => None,
        StackType::I8 => None,
        StackType::N => None,
        StackType::F => None,
        StackType::Null => None,
        StackType::Val(_) => None,
        StackType::Ptr(_) => None,
        StackType::Bad => None,
    }
}

/// The other of two types of which one is null, where it is a reference or boxed value.
fn beside_null(s: &StackType, t: &StackType) -> Option<StackType>
    ensures { result ≡ beside_null s.now t.now }
{
    if is_null(s) {
        as_object(t)
    } else if is_null(t) {
        as_object(s)
    } else {
        None
    }
}

/// The id of the first of the reference types above a stack type.
fn start_id(
    alloc: Global,
    tables: &Tables,
    pool: &mut SigPool,
    found: &mut Found,
    s: &StackType,
) -> Result<Option<SigId>, NoMemory>
    requires tables { length tables.now.names ≡ length tables.now.entries }
    requires s { IsWithin (length pool.old) s.now }
    requires known { Knows (hierarchy_in tables.now) pool.old found.old }
    ensures ok { IfOk result (λ r. HasOption pool.new r (start (hierarchy_in tables.now) (meant pool.old s.now))) }
    ensures extends { Extends pool.old pool.new }
    ensures known { Knows (hierarchy_in tables.now) pool.new found.new }
{
    match s {
        StackType::Ref(key) => Ok(Some(key.id())),
        StackType::Boxed(key) => found_parent(alloc, tables, pool, found, key.id()),
        StackType::I4 => Ok(None),
        StackType::I8 => Ok(None),
        StackType::N => Ok(None),
        StackType::F => Ok(None),
        StackType::Null => Ok(None),
        StackType::Val(_) => Ok(None),
        StackType::Ptr(_) => Ok(None),
        StackType::Bad => Ok(None),
    }
}

/// The least type that both are below.
pub fn join_of(
    alloc: Global,
    tables: &Tables,
    pool: &mut SigPool,
    found: &mut Found,
    s: &StackType,
    t: &StackType,
) -> Result<StackType, NoMemory>
    requires tables { length tables.now.names ≡ length tables.now.entries }
    requires s { IsWithin (length pool.old) s.now }
    requires t { IsWithin (length pool.old) t.now }
    requires known { Knows (hierarchy_in tables.now) pool.old found.old }
    ensures ok { IfOk result (λ j. JoinsAs (hierarchy_in tables.now) pool.old s.now t.now pool.new j) }
    ensures extends { Extends pool.old pool.new }
    ensures known { Knows (hierarchy_in tables.now) pool.new found.new }
{
    if is_equal(pool, s, t) {
        return Ok(*s);
    }
    if let Some(other) = beside_null(s, t) {
        return Ok(other);
    }
    match start_id(alloc, tables, pool, found, s)? {
        Some(left) => match start_id(alloc, tables, pool, found, t)? {
            Some(right) => {
                let nearest = common_id(alloc, tables, pool, found, left, right)?;
                Ok(StackType::Ref(TypeKey::new(nearest)))
            }
            None => Ok(StackType::Bad),
        },
        None => Ok(StackType::Bad),
    }
}

/// A reference to the parent of the type of a reference or boxed value.
pub fn parent_of(
    alloc: Global,
    tables: &Tables,
    pool: &mut SigPool,
    found: &mut Found,
    t: &StackType,
) -> Result<Option<StackType>, NoMemory>
    requires tables { length tables.now.names ≡ length tables.now.entries }
    requires t { IsWithin (length pool.old) t.now }
    requires known { Knows (hierarchy_in tables.now) pool.old found.old }
    ensures ok { IfOk result (λ r. MeansOption pool.new r (stack_parent (hierarchy_in tables.now) (meant pool.old t.now))) }
    ensures extends { Extends pool.old pool.new }
    ensures known { Knows (hierarchy_in tables.now) pool.new found.new }
{
    match t {
        StackType::Ref(key) => reference_parent(alloc, tables, pool, found, *key),
        StackType::Boxed(key) => reference_parent(alloc, tables, pool, found, *key),
        StackType::I4 => Ok(None),
        StackType::I8 => Ok(None),
        StackType::N => Ok(None),
        StackType::F => Ok(None),
        StackType::Null => Ok(None),
        StackType::Val(_) => Ok(None),
        StackType::Ptr(_) => Ok(None),
        StackType::Bad => Ok(None),
    }
}

/// A reference to the parent of a type.
fn reference_parent(
    alloc: Global,
    tables: &Tables,
    pool: &mut SigPool,
    found: &mut Found,
    key: TypeKey,
) -> Result<Option<StackType>, NoMemory>
    requires tables { length tables.now.names ≡ length tables.now.entries }
    requires key { key < length pool.old }
    requires known { Knows (hierarchy_in tables.now) pool.old found.old }
    ensures ok { IfOk result (λ r. MeansOption pool.new r (option_map ref (parent (hierarchy_in tables.now) (term_of pool.old key)))) }
    ensures extends { Extends pool.old pool.new }
    ensures known { Knows (hierarchy_in tables.now) pool.new found.new }
{
    match found_parent(alloc, tables, pool, found, key.id())? {
        Some(parent) => Ok(Some(StackType::Ref(TypeKey::new(parent)))),
        None => Ok(None),
    }
}
