//! A class as its own body names it, which is kept from one method of it to the next.
ghost use Rattle.std.specs.Prelude.{◌≡◌, IfOk, IfSome, Some};
ghost use Rattle.sig_pool.specs.Pool.{Extends};
ghost use Rattle.type_hierarchy.specs.Tables.{hierarchy_in};
ghost use Rattle.type_hierarchy.specs.World.{hierarchy, Stays};
ghost use Rattle.type_order.specs.Found.{AreKeysOf, AreOwnKeys, IsOwn, IsOwnOf, Knows};
ghost use Rattle.type_order.specs.OwnTypes.{variables, own_class};
ghost use Rattle.type_order.specs.declared.found.Own.{Own as TheOwn};

use crate::found::{Found, Own};
use crate::types::World;
use crate::written::normal_id;
use il_lists::{Boxed, Copies, Items, NoMemory};
use sig_pool::SigPool;
use std::alloc::Global;
use type_hierarchy::names::is_path;
use type_hierarchy::stack_type::TypeKey;
use type_hierarchy::tables::Tables;
use type_terms::{Path, Scope, SigType, TypeName, Types};

/// The keys of a class and of a managed pointer to it.
#[derive(Clone, Copy, Drop)]
pub struct OwnKeys {
    pub class: TypeKey,
    pub pointer: TypeKey,
}

/// The keys of the class of that path with its own generic parameters as arguments, as many as are said, and of a managed
/// pointer to it, both normalised (ECMA-335 II.9.4, II.15.4.1.3).
///
/// Those that were asked for last are kept, so that the methods of a class don't make them anew. NoMemory where there is no
/// memory.
pub fn own_keys(w: &mut World, path: &Path, parameters: u32) -> Result<OwnKeys, NoMemory>
    ensures ok { IfOk result (λ k. AreOwnKeys (hierarchy w.old) w.new.nodes path.now parameters k) }
    ensures stays { Stays w.old w.new }
{
    kept_keys(
        w.alloc,
        &w.tables,
        &mut w.pool,
        &mut w.found,
        path,
        parameters,
    )
}

/// The keys of a class and of a pointer to it, which are kept.
fn kept_keys(
    alloc: Global,
    tables: &Tables,
    pool: &mut SigPool,
    found: &mut Found,
    path: &Path,
    parameters: u32,
) -> Result<OwnKeys, NoMemory>
    requires known { Knows (hierarchy_in tables.now) pool.old found.old }
    ensures ok { IfOk result (λ k. AreOwnKeys (hierarchy_in tables.now) pool.new path.now parameters k) }
    ensures extends { Extends pool.old pool.new }
    ensures known { Knows (hierarchy_in tables.now) pool.new found.new }
{
    if let Some(keys) = known_keys(found, path, parameters) {
        return Ok(keys);
    }
    let own = made_own(alloc, tables, pool, path, parameters)?;
    let keys = keys_of(&own);
    found.own = Some(own);
    Ok(keys)
}

/// The keys that are kept.
fn keys_of(own: &Own) -> OwnKeys
    ensures { AreKeysOf own.now result }
{
    OwnKeys {
        class: TypeKey::new(own.class),
        pointer: TypeKey::new(own.pointer),
    }
}

/// The keys that are kept, where they are those of that class.
fn known_keys(found: &Found, path: &Path, parameters: u32) -> Option<OwnKeys>
    ensures { IfSome result (λ k. (own : TheOwn) × (found.now.own ≡ Some own) × IsOwnOf own path.now parameters × AreKeysOf own k) }
{
    match &found.own {
        Some(own) => {
            if own.parameters == parameters && is_path(own.path.as_slice(), path.as_slice()) {
                Some(keys_of(own))
            } else {
                None
            }
        }
        None => None,
    }
}

/// The ids of a class and of a pointer to it.
fn made_own(
    alloc: Global,
    tables: &Tables,
    pool: &mut SigPool,
    path: &Path,
    parameters: u32,
) -> Result<Own, NoMemory>
    ensures ok { IfOk result (λ o. IsOwn (hierarchy_in tables.now) pool.new o × IsOwnOf o path.now parameters) }
    ensures extends { Extends pool.old pool.new }
{
    let kept = path.copy(alloc)?;
    let own = own_class(alloc, path, parameters)?;
    let class = normal_id(alloc, tables, pool, &own)?;
    let of = Boxed::new(alloc, own)?;
    let pointer = normal_id(alloc, tables, pool, &SigType::ByRef(of))?;
    Ok(Own {
        path: kept,
        parameters,
        class,
        pointer,
    })
}

/// The generic parameters of a class that has `count` of them, as types.
fn own_parameters(alloc: Global, count: u32) -> Result<Types, NoMemory>
    ensures { IfOk result (λ ts. ts ≡ variables 0 count) }
{
    let mut parameters = Items::new(alloc);
    for k in 0..count {
        parameters.push(SigType::Var(k))?;
    }
    Ok(parameters)
}

/// The class of that path with its own generic parameters as arguments (ECMA-335 II.9.4).
fn own_class(alloc: Global, path: &Path, parameters: u32) -> Result<SigType, NoMemory>
    ensures { IfOk result (λ t. t ≡ own_class path.now parameters) }
{
    let path = path.copy(alloc)?;
    let name = TypeName {
        scope: Scope::Here,
        path,
    };
    if parameters == 0 {
        return Ok(SigType::Class(name));
    }
    let args = own_parameters(alloc, parameters)?;
    let name = Boxed::new(alloc, name)?;
    let args = Boxed::new(alloc, args)?;
    Ok(SigType::Inst {
        value: false,
        name,
        args,
    })
}
