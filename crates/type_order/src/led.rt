//! What the interfaces of a type lead to, which is found once for each type.
ghost use Rattle.std.specs.Prelude.{◌≡◌, ◌↔◌, ◌<◌, length, IsTrue, IfOk, OnOk};
ghost use Rattle.sig_pool.specs.Pool.{Extends};
ghost use Rattle.sig_pool.specs.Terms.{AllBelow, term_of};
ghost use Rattle.type_hierarchy.specs.Queues.{AddsSteps, HasType};
ghost use Rattle.type_hierarchy.specs.Tables.{hierarchy_in};
ghost use Rattle.type_order.specs.Found.{AreAbove, AreLed, IsLedTo, Knows};

use crate::found::{Found, found_parent, known_led, note_led};
use crate::interfaces::interface_ids;
use crate::queue::Queue;
use il_lists::NoMemory;
use sig_pool::{SigId, SigPool};
use std::alloc::Global;
use type_hierarchy::tables::Tables;

/// Whether the interfaces of the type of `a` itself lead to the type of `b`: whether it is one of them, or above one.
pub fn is_led(
    alloc: Global,
    tables: &Tables,
    pool: &mut SigPool,
    found: &mut Found,
    a: SigId,
    b: SigId,
) -> Result<bool, NoMemory>
    requires tables { length tables.now.names ≡ length tables.now.entries }
    requires a { a < length pool.old }
    requires b { b < length pool.old }
    requires known { Knows (hierarchy_in tables.now) pool.old found.old }
    ensures ok { IfOk result (λ r. IsTrue r ↔ IsLedTo (hierarchy_in tables.now) (term_of pool.old a) (term_of pool.old b)) }
    ensures extends { Extends pool.old pool.new }
    ensures known { Knows (hierarchy_in tables.now) pool.new found.new }
{
    if let Some(led) = known_led(found, a) {
        return Ok(holds_type(pool, led, b));
    }
    let led = all_led(alloc, tables, pool, found, a)?;
    let holds = holds_type(pool, &led, b);
    note_led(found, a, led)?;
    Ok(holds)
}

/// Whether an id in the queue is of the type of `b`. Takes no memory.
fn holds_type(pool: &SigPool, queue: &Queue, b: SigId) -> bool
    requires queue { AllBelow (length pool.now) queue.now }
    requires b { b < length pool.now }
    ensures { IsTrue result ↔ HasType pool.now queue.now (term_of pool.now b) }
{
    // No type of a pool stands twice, as its length says.
    let _length = pool.len();
    queue.holds(b)
}

/// The ids of all types that the interfaces of the type of an id lead to.
fn all_led(
    alloc: Global,
    tables: &Tables,
    pool: &mut SigPool,
    found: &mut Found,
    id: SigId,
) -> Result<Queue, NoMemory>
    requires tables { length tables.now.names ≡ length tables.now.entries }
    requires id { id < length pool.old }
    requires known { Knows (hierarchy_in tables.now) pool.old found.old }
    ensures ok { IfOk result (λ ids. AreLed (hierarchy_in tables.now) pool.new id ids) }
    ensures extends { Extends pool.old pool.new }
    ensures known { Knows (hierarchy_in tables.now) pool.new found.new }
{
    let interfaces = interface_ids(alloc, tables, pool, id)?;
    let mut queue = Queue::new(alloc);
    queue.add_all(interfaces.as_slice())?;
    add_above(alloc, tables, pool, found, &mut queue)?;
    Ok(queue)
}

/// Adds all that lies above the types of the ids in the queue.
fn add_above(
    alloc: Global,
    tables: &Tables,
    pool: &mut SigPool,
    found: &mut Found,
    queue: &mut Queue,
) -> Result<(), NoMemory>
    requires tables { length tables.now.names ≡ length tables.now.entries }
    requires queue { AllBelow (length pool.old) queue.old }
    requires known { Knows (hierarchy_in tables.now) pool.old found.old }
    ensures ok { OnOk result (AreAbove (hierarchy_in tables.now) pool.old pool.new queue.old queue.new) }
    ensures extends { Extends pool.old pool.new }
    ensures known { Knows (hierarchy_in tables.now) pool.new found.new }
{
    'search: for done in 0..usize::MAX {
        let Some(at) = queue.get(done) else {
            return Ok(());
        };
        add_steps(alloc, tables, pool, found, queue, at)?;
    }
    // No memory holds so many ids.
    Err(NoMemory)
}

/// Adds the parent and the interfaces of the type of `id`.
fn add_steps(
    alloc: Global,
    tables: &Tables,
    pool: &mut SigPool,
    found: &mut Found,
    queue: &mut Queue,
    id: SigId,
) -> Result<(), NoMemory>
    requires tables { length tables.now.names ≡ length tables.now.entries }
    requires id { id < length pool.old }
    requires known { Knows (hierarchy_in tables.now) pool.old found.old }
    ensures ok { OnOk result (AddsSteps (hierarchy_in tables.now) pool.new (term_of pool.old id) queue.old queue.new) }
    ensures extends { Extends pool.old pool.new }
    ensures known { Knows (hierarchy_in tables.now) pool.new found.new }
{
    let interfaces = interface_ids(alloc, tables, pool, id)?;
    let parent = found_parent(alloc, tables, pool, found, id)?;
    queue.add_optional(parent)?;
    queue.add_all(interfaces.as_slice())?;
    Ok(())
}
