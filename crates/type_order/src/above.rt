//! Whether a type lies above another: whether it can be reached by parents and interfaces.
ghost use Rattle.std.specs.Prelude.{◌≡◌, ◌↔◌, ◌<◌, length, IsTrue, IfOk};
ghost use Rattle.sig_pool.specs.Pool.{Extends};
ghost use Rattle.sig_pool.specs.Terms.{term_of};
ghost use Rattle.type_hierarchy.specs.Hierarchy.{Up};
ghost use Rattle.type_hierarchy.specs.Tables.{hierarchy_in};
ghost use Rattle.type_order.specs.Found.{IsLedByChain, Knows};

use crate::found::{Found, found_parent};
use crate::led::is_led;
use crate::standing::{is_ancestor, standing_of};
use il_lists::NoMemory;
use sig_pool::{SigId, SigPool};
use std::alloc::Global;
use type_hierarchy::tables::Tables;

/// Whether the type of `b` is above that of `a`.
pub fn is_above(
    alloc: Global,
    tables: &Tables,
    pool: &mut SigPool,
    found: &mut Found,
    a: SigId,
    b: SigId,
) -> Result<bool, NoMemory>
    requires tables { length tables.now.names ≡ length tables.now.entries }
    requires a { a < length pool.old }
    requires b { b < length pool.old }
    requires known { Knows (hierarchy_in tables.now) pool.old found.old }
    ensures ok { IfOk result (λ r. IsTrue r ↔ Up (hierarchy_in tables.now) (term_of pool.old a) (term_of pool.old b)) }
    ensures extends { Extends pool.old pool.new }
    ensures known { Knows (hierarchy_in tables.now) pool.new found.new }
{
    let met = is_ancestor(alloc, tables, pool, found, a, b)?;
    if met {
        return Ok(true);
    }
    is_led_by_chain(alloc, tables, pool, found, a, b)
}

/// Whether the interfaces of the type of `a`, or of one of its ancestors, lead to that of `b`.
fn is_led_by_chain(
    alloc: Global,
    tables: &Tables,
    pool: &mut SigPool,
    found: &mut Found,
    a: SigId,
    b: SigId,
) -> Result<bool, NoMemory>
    requires tables { length tables.now.names ≡ length tables.now.entries }
    requires a { a < length pool.old }
    requires b { b < length pool.old }
    requires known { Knows (hierarchy_in tables.now) pool.old found.old }
    ensures ok { IfOk result (λ r. IsTrue r ↔ IsLedByChain (hierarchy_in tables.now) (term_of pool.old a) (term_of pool.old b)) }
    ensures extends { Extends pool.old pool.new }
    ensures known { Knows (hierarchy_in tables.now) pool.new found.new }
{
    let mut at = a;
    'climb: for _ in 0..u64::MAX {
        let led = is_led(alloc, tables, pool, found, at, b)?;
        if led {
            return Ok(true);
        }
        match found_parent(alloc, tables, pool, found, at)? {
            Some(parent) => at = parent,
            None => return Ok(false),
        }
    }
    // No memory holds so many ids.
    Err(NoMemory)
}
