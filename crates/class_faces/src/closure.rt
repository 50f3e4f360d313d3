//! All that lies above types: what parents and interfaces lead to.
ghost use Rattle.std.specs.Prelude.{◌≡◌, ◌<◌, [], length, slice_get, IfOk, OnOk};
ghost use Rattle.sig_pool.specs.Terms.{AllBelow};
ghost use Rattle.type_hierarchy.specs.Queues.{AddsAll, AddsSteps, UpFromSome, optional};
ghost use Rattle.type_hierarchy.specs.World.{hierarchy, type_at, Stays};
ghost use Rattle.class_faces.specs.Ids.{AreIds};
ghost use Rattle.class_faces.specs.Unions.{IsUnion};

use crate::queue::Queue;
use il_lists::NoMemory;
use std::alloc::Global;
use type_order::types::World;
use type_order::{TypeKey, TypeKeys, interfaces_of, keys_keep_their_types, parent_key};

/// The keys of the types of `from` and of all that lies above them.
pub fn closure(alloc: Global, w: &mut World, from: &[TypeKey]) -> Result<TypeKeys, NoMemory>
    requires { AllBelow (length w.old.nodes) from.now }
    ensures ok { IfOk result (AreIds w.new.nodes (UpFromSome (hierarchy w.old) w.old.nodes from.now)) }
    ensures stays { Stays w.old w.new }
{
    keys_keep_their_types();
    let mut queue = Queue::new(alloc);
    queue.add_all(from)?;
    'steps: for done in 0..usize::MAX {
        let Some(at) = queue.get(done) else {
            return Ok(queue.into_keys());
        };
        add_steps(w, &mut queue, &at)?;
    }
    // No memory holds so many keys.
    Err(NoMemory)
}

/// Adds the parent and the interfaces of the key's type.
fn add_steps(w: &mut World, queue: &mut Queue, at: &TypeKey) -> Result<(), NoMemory>
    requires { at.now < length w.old.nodes }
    ensures ok { OnOk result (AddsSteps (hierarchy w.old) w.new.nodes (type_at w.old at.now) queue.old queue.new) }
    ensures stays { Stays w.old w.new }
{
    keys_keep_their_types();
    let interfaces = interfaces_of(w, at)?;
    let parent = parent_key(w, at)?;
    queue.add_optional(parent)?;
    queue.add_all(interfaces.as_slice())
}

/// The keys of both lists, each once.
pub fn union(alloc: Global, first: &[TypeKey], second: &[TypeKey]) -> Result<TypeKeys, NoMemory>
    ensures { IfOk result (IsUnion first.now second.now) }
{
    let mut queue = Queue::new(alloc);
    queue.add_all(first)?;
    queue.add_all(second)?;
    Ok(queue.into_keys())
}
