//! What is asked of types as signatures of the image have them.
ghost use Rattle.std.specs.Prelude.{◌≡◌, ◌<◌, length, IfOk};
ghost use Rattle.sig_pool.specs.Pool.{Extends, Has};
ghost use Rattle.sig_pool.specs.Replaced.{replaced, terms_at};
ghost use Rattle.sig_pool.specs.Terms.{AllBelow};
ghost use Rattle.type_order.specs.Keys.{reading_of};
ghost use Rattle.type_hierarchy.specs.Meaning.{Means};
ghost use Rattle.type_hierarchy.specs.Normal.{normal};
ghost use Rattle.type_hierarchy.specs.Stack.{stack_of};
ghost use Rattle.type_hierarchy.specs.Tables.{hierarchy_in};
ghost use Rattle.type_hierarchy.specs.World.{hierarchy, Stays};

use crate::stacks::stack_of_id;
use crate::types::World;
use il_lists::{Items, NoMemory};
use sig_pool::{SigId, SigIds, SigPool};
use std::alloc::Global;
use type_hierarchy::core_types::intern;
use type_hierarchy::normal::normalised;
use type_hierarchy::stack_type::{StackType, TypeKey, TypeKeys};
use type_hierarchy::tables::Tables;
use type_terms::SigType;

/// The id of a type of the image, normalised.
#[tactic(auto, unfolding(type_hierarchy::specs::Tables::hierarchy_in))]
pub(crate) fn normal_id(
    alloc: Global,
    tables: &Tables,
    pool: &mut SigPool,
    t: &SigType,
) -> Result<SigId, NoMemory>
    ensures ok { IfOk result (λ id. Has pool.new id (normal (reading_of (hierarchy_in tables.now)) t.now)) }
    ensures extends { Extends pool.old pool.new }
{
    let t = normalised(alloc, &tables.values, &tables.means, t)?;
    intern(pool, t)
}

/// The ids of the types of keys.
fn ids_at(alloc: Global, keys: &[TypeKey]) -> Result<SigIds, NoMemory>
    ensures { IfOk result (λ ids. ids ≡ keys.now) }
{
    let mut ids = Items::with_capacity(alloc, keys.len())?;
    for key in keys {
        ids.push(key.id())?;
    }
    Ok(ids)
}

/// The id of a type of the image, normalised and with the types of the keys put in.
fn replaced_id(
    alloc: Global,
    tables: &Tables,
    pool: &mut SigPool,
    t: &SigType,
    class_args: &TypeKeys,
    method_args: &TypeKeys,
) -> Result<SigId, NoMemory>
    requires class_args { AllBelow (length pool.old) class_args.now }
    requires method_args { AllBelow (length pool.old) method_args.now }
    ensures ok { IfOk result (λ id. Has pool.new id (replaced (terms_at pool.old class_args.now) (terms_at pool.old method_args.now) (normal (reading_of (hierarchy_in tables.now)) t.now))) }
    ensures extends { Extends pool.old pool.new }
{
    let class_ids = ids_at(alloc, class_args.as_slice())?;
    let method_ids = ids_at(alloc, method_args.as_slice())?;
    let id = normal_id(alloc, tables, pool, t)?;
    pool.substitute(id, &class_ids, &method_ids)
}

/// The key of a type of the image, normalised, in which each `!n` and `!!n` within the lists gives way to
/// the type there (ECMA-335 II.9.2, II.23.2.12).
///
/// The keys are ones that this world gave. The answer NoMemory, where there is no memory, leaves the world
/// as it was but for types that its pool may have got; every key keeps its type.
pub fn key_of(
    w: &mut World,
    t: &SigType,
    class_args: &TypeKeys,
    method_args: &TypeKeys,
) -> Result<TypeKey, NoMemory>
    requires class_args { AllBelow (length w.old.nodes) class_args.now }
    requires method_args { AllBelow (length w.old.nodes) method_args.now }
    ensures ok { IfOk result (λ k. Has w.new.nodes k (replaced (terms_at w.old.nodes class_args.now) (terms_at w.old.nodes method_args.now) (normal (reading_of (hierarchy w.old)) t.now))) }
    ensures stays { Stays w.old w.new }
{
    let id = replaced_id(w.alloc, &w.tables, &mut w.pool, t, class_args, method_args)?;
    Ok(TypeKey::new(id))
}

/// What a value of a type of the image is on the stack (ECMA-335 I.12.3.2.1), as `st_of` says of its key.
///
/// NoMemory where there is no memory.
pub fn stack_of(w: &mut World, t: &SigType) -> Result<StackType, NoMemory>
    ensures ok { IfOk result (λ s. Means w.new.nodes s (stack_of (hierarchy w.old) (normal (reading_of (hierarchy w.old)) t.now))) }
    ensures stays { Stays w.old w.new }
{
    written_stack(w.alloc, &w.tables, &mut w.pool, t)
}

/// What a value of a type of the image is on the stack.
fn written_stack(
    alloc: Global,
    tables: &Tables,
    pool: &mut SigPool,
    t: &SigType,
) -> Result<StackType, NoMemory>
    requires { length tables.now.names ≡ length tables.now.entries }
    ensures ok { IfOk result (λ s. Means pool.new s (stack_of (hierarchy_in tables.now) (normal (reading_of (hierarchy_in tables.now)) t.now))) }
    ensures extends { Extends pool.old pool.new }
{
    let id = normal_id(alloc, tables, pool, t)?;
    stack_of_id(tables, pool, id)
}
