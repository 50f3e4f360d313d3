//! The parent of a type.
ghost use Rattle.std.specs.Prelude.{◌≡◌, ◌<◌, length, Some, IfOk};
ghost use Rattle.std.specs.Option.{option_copied};
ghost use Rattle.sig_pool.specs.Pool.{Extends, Has};
ghost use Rattle.sig_pool.specs.Terms.{AllBelow, term_of};
ghost use Rattle.sig_pool.specs.Replaced.{terms_at};
ghost use Rattle.type_hierarchy.specs.Above.{name_above};
ghost use Rattle.type_hierarchy.specs.Pooled.{HasOption};
ghost use Rattle.type_hierarchy.specs.Hierarchy.{object, named, core_name, parent, primitive_parent, parent_by, instance_parent};
ghost use Rattle.type_hierarchy.specs.Names.{the_array};
ghost use Rattle.type_hierarchy.specs.Tables.{hierarchy_in, declaration_in};

use crate::core_types::{base_id, class_name, core_type, object_id, parent_by};
use crate::tables::{Declared, Known, Tables};
use il_lists::{Items, NoMemory};
use sig_pool::{Node, SigId, SigIds, SigPool};
use std::alloc::Global;
use type_terms::Prim;

/// The id of the parent of the type of `id`; None exactly where it has none.
pub fn parent_id(
    alloc: Global,
    tables: &Tables,
    pool: &mut SigPool,
    id: SigId,
) -> Result<Option<SigId>, NoMemory>
    requires tables { length tables.now.names ≡ length tables.now.entries }
    requires id { id < length pool.old }
    ensures ok { IfOk result (λ r. HasOption pool.new r (parent (hierarchy_in tables.now) (term_of pool.old id))) }
    ensures extends { Extends pool.old pool.new }
{
    match pool.node(id) {
        Node::Prim(prim) => {
            let prim = *prim;
            primitive_parent(alloc, tables, pool, prim)
        }
        Node::Class(name) => {
            let known = tables.known(name);
            name_parent(alloc, tables, pool, &known)
        }
        Node::Value(name) => {
            let known = tables.known(name);
            name_parent(alloc, tables, pool, &known)
        }
        Node::Inst { name, args, .. } => {
            let known = tables.known(name);
            let args = Items::from_slice(alloc, args.as_slice())?;
            instance_parent(alloc, pool, known.declared, &args)
        }
        Node::SzArray(_) => array_parent(alloc, tables, pool),
        Node::Array { .. } => array_parent(alloc, tables, pool),
        Node::Var(_) => object_parent(pool),
        Node::MVar(_) => object_parent(pool),
        Node::ByRef(_) => object_parent(pool),
        Node::Pointer(_) => object_parent(pool),
        Node::Mod { .. } => object_parent(pool),
        Node::Pinned(_) => object_parent(pool),
    }
}

fn object_parent(pool: &mut SigPool) -> Result<Option<SigId>, NoMemory>
    ensures ok { IfOk result (λ r. HasOption pool.new r (Some object)) }
    ensures extends { Extends pool.old pool.new }
{
    let parent = object_id(pool)?;
    Ok(Some(parent))
}

fn array_parent(
    alloc: Global,
    tables: &Tables,
    pool: &mut SigPool,
) -> Result<Option<SigId>, NoMemory>
    requires tables { length tables.now.names ≡ length tables.now.entries }
    ensures ok { IfOk result (λ r. HasOption pool.new r (Some (named (hierarchy_in tables.now) (core_name (hierarchy_in tables.now) the_array)))) }
    ensures extends { Extends pool.old pool.new }
{
    let parent = core_type(alloc, tables, pool, "Array")?;
    Ok(Some(parent))
}

/// The parent of the type of a name.
fn name_parent(
    alloc: Global,
    tables: &Tables,
    pool: &mut SigPool,
    known: &Known<'_>,
) -> Result<Option<SigId>, NoMemory>
    requires tables { length tables.now.names ≡ length tables.now.entries }
    ensures ok { IfOk result (λ r. HasOption pool.new r (Some (parent_by (hierarchy_in tables.now) (name_above tables.now.values.core known.now.above) (declaration_in (option_copied known.now.declared))))) }
    ensures extends { Extends pool.old pool.new }
{
    let parent = parent_by(alloc, tables, pool, known.above, known.declared)?;
    Ok(Some(parent))
}

/// The parent of a primitive type: that of its class.
fn primitive_parent(
    alloc: Global,
    tables: &Tables,
    pool: &mut SigPool,
    prim: Prim,
) -> Result<Option<SigId>, NoMemory>
    requires tables { length tables.now.names ≡ length tables.now.entries }
    ensures ok { IfOk result (λ r. HasOption pool.new r (primitive_parent (hierarchy_in tables.now) prim)) }
    ensures extends { Extends pool.old pool.new }
{
    if prim == Prim::Object {
        return Ok(None);
    }
    let name = class_name(alloc, tables.values.core, prim)?;
    let known = tables.known(&name);
    name_parent(alloc, tables, pool, &known)
}

/// The parent of an instantiation.
fn instance_parent(
    alloc: Global,
    pool: &mut SigPool,
    declared: Option<&Declared>,
    args: &SigIds,
) -> Result<Option<SigId>, NoMemory>
    requires args { AllBelow (length pool.old) args.now }
    ensures ok { IfOk result (λ r. HasOption pool.new r (Some (instance_parent (terms_at pool.old args.now) (declaration_in (option_copied declared.entry))))) }
    ensures extends { Extends pool.old pool.new }
{
    match declared {
        Some(declared) => {
            let base = base_id(pool, declared)?;
            let parent = pool.substitute(base, args, &Items::new(alloc))?;
            Ok(Some(parent))
        }
        None => object_parent(pool),
    }
}
