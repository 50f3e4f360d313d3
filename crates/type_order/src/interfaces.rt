//! The interfaces that the declaration of a type lists.
ghost use Rattle.std.specs.Prelude.{◌≡◌, ◌<◌, [], length, map, None, Some, IfOk};
ghost use Rattle.std.specs.Option.{option_copied, option_map, ForSome};
ghost use Rattle.sig_pool.specs.Pool.{Extends, Has, HasAll};
ghost use Rattle.sig_pool.specs.Terms.{AllBelow, term_of};
ghost use Rattle.sig_pool.specs.Replaced.{terms_at};
ghost use Rattle.type_hierarchy.specs.Hierarchy.{interfaces, declared_interfaces};
ghost use Rattle.type_hierarchy.specs.Pooled.{put_in};
ghost use Rattle.type_hierarchy.specs.Tables.{hierarchy_in, declaration_in};

use il_lists::{Items, NoMemory};
use sig_pool::{Node, SigId, SigIds, SigPool};
use std::alloc::Global;
use type_hierarchy::core_types::class_name;
use type_hierarchy::tables::{Declared, Tables};
use type_terms::SigType;

/// The ids of the interfaces that the declaration of the type of `id` lists, in its order, with the type's
/// arguments put in.
pub fn interface_ids(
    alloc: Global,
    tables: &Tables,
    pool: &mut SigPool,
    id: SigId,
) -> Result<SigIds, NoMemory>
    requires tables { length tables.now.names ≡ length tables.now.entries }
    requires id { id < length pool.old }
    ensures ok { IfOk result (λ ids. HasAll pool.new ids (interfaces (hierarchy_in tables.now) (term_of pool.old id))) }
    ensures extends { Extends pool.old pool.new }
{
    match pool.node(id) {
        Node::Prim(prim) => {
            let name = class_name(alloc, tables.values.core, *prim)?;
            let known = tables.known(&name);
            plain(alloc, pool, known.declared)
        }
        Node::Class(name) => {
            let known = tables.known(name);
            plain(alloc, pool, known.declared)
        }
        Node::Value(name) => {
            let known = tables.known(name);
            plain(alloc, pool, known.declared)
        }
        Node::Inst { name, args, .. } => {
            let known = tables.known(name);
            let args = Items::from_slice(alloc, args.as_slice())?;
            instantiated(alloc, pool, known.declared, &args)
        }
        Node::SzArray(_) => Ok(Items::new(alloc)),
        Node::Array { .. } => Ok(Items::new(alloc)),
        Node::Var(_) => Ok(Items::new(alloc)),
        Node::MVar(_) => Ok(Items::new(alloc)),
        Node::ByRef(_) => Ok(Items::new(alloc)),
        Node::Pointer(_) => Ok(Items::new(alloc)),
        Node::Mod { .. } => Ok(Items::new(alloc)),
        Node::Pinned(_) => Ok(Items::new(alloc)),
    }
}

/// The interfaces of a declaration.
fn plain(alloc: Global, pool: &mut SigPool, declared: Option<&Declared>) -> Result<SigIds, NoMemory>
    ensures ok { IfOk result (λ ids. HasAll pool.new ids (map (put_in None) (declared_interfaces (declaration_in (option_copied declared.entry))))) }
    ensures extends { Extends pool.old pool.new }
{
    match declared {
        Some(declared) => put_in_all(alloc, pool, declared.interfaces.as_slice(), None),
        None => Ok(Items::new(alloc)),
    }
}

/// The interfaces of a declaration with arguments put in.
fn instantiated(
    alloc: Global,
    pool: &mut SigPool,
    declared: Option<&Declared>,
    args: &SigIds,
) -> Result<SigIds, NoMemory>
    requires args { AllBelow (length pool.old) args.now }
    ensures ok { IfOk result (λ ids. HasAll pool.new ids (map (put_in (Some (terms_at pool.old args.now))) (declared_interfaces (declaration_in (option_copied declared.entry))))) }
    ensures extends { Extends pool.old pool.new }
{
    match declared {
        Some(declared) => put_in_all(alloc, pool, declared.interfaces.as_slice(), Some(args)),
        None => Ok(Items::new(alloc)),
    }
}

/// The ids of the types, with arguments put in where there are any.
fn put_in_all(
    alloc: Global,
    pool: &mut SigPool,
    types: &[SigType],
    args: Option<&SigIds>,
) -> Result<SigIds, NoMemory>
    requires args { ForSome (option_copied args) (λ ks. AllBelow (length pool.old) ks) }
    ensures ok { IfOk result (λ ids. HasAll pool.new ids (map (put_in (option_map (terms_at pool.old) (option_copied args.entry))) types.now)) }
    ensures extends { Extends pool.old pool.new }
{
    let mut ids = Items::with_capacity(alloc, types.len())?;
    for t in types {
        let id = put_in(alloc, pool, t, args)?;
        ids.push(id)?;
    }
    Ok(ids)
}

/// The id of a type with arguments put in, where there are any.
fn put_in(
    alloc: Global,
    pool: &mut SigPool,
    t: &SigType,
    args: Option<&SigIds>,
) -> Result<SigId, NoMemory>
    requires args { ForSome (option_copied args) (λ ks. AllBelow (length pool.old) ks) }
    ensures ok { IfOk result (λ id. Has pool.new id (put_in (option_map (terms_at pool.old) (option_copied args.entry)) t.now)) }
    ensures extends { Extends pool.old pool.new }
{
    let id = pool.intern(t)?;
    match args {
        Some(args) => pool.substitute(id, args, &Items::new(alloc)),
        None => Ok(id),
    }
}
