//! The types that have the names of calls.
ghost use Rattle.std.specs.Prelude.{◌≡◌, [], length};

use crate::found::Found;
use sig_pool::SigPool;
use std::alloc::Global;
use std::marker::Model;
use type_hierarchy::tables::Tables;

/// What an image and its references say of types, with the pool that keeps the types (ECMA-335 I.8.7).
/// Contracts see the nodes of the pool and the tables.
#[derive(Drop)]
pub struct World {
    pub(crate) alloc: Global,
    pub(crate) tables: Tables,
    pub(crate) pool: SigPool,
    pub(crate) found: Found,
}

impl Model for World {
    ghost use Rattle.std.specs.Coded.{codes};
    ghost use Rattle.type_terms.specs.contracts.term.SigType as sig_type;
    ghost use Rattle.type_hierarchy.specs.World.{Content};
    ghost use Rattle.type_order.specs.Found.{IsReady};

    ghost Value = { Content };

    ghost coded = { Prim.hlevel (codes, sig_type.the_row.coded) };

    ghost view = { λ w. record { nodes = w.pool; tables = w.tables } };

    ghost invariant = { λ w. IsReady w.pool w.tables w.found };
}

impl World {
    /// The world of these tables, with an empty pool.
    pub fn over(alloc: Global, tables: Tables) -> World
        requires { length tables.names ≡ length tables.entries }
        ensures nodes { result.nodes ≡ [] }
        ensures tables { result.tables ≡ tables }
    {
        World {
            alloc,
            tables,
            pool: SigPool::new(alloc),
            found: Found::new(alloc),
        }
    }

    /// Lends the pool of the world's types. Takes no memory.
    pub fn pool(&self) -> &SigPool
        ensures { result.now ≡ self.now.nodes }
    {
        &self.pool
    }
}
