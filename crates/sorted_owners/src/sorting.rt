//! Owners in their order and each once, as the interfaces that a class implements stand (ECMA-335 II.10.1.3, II.22.23).

ghost use Rattle.std.specs.Prelude.{◌≡◌, IfOk, Some, refl};
ghost use Rattle.std.specs.Cmp.{on_equiv, on_per, on_po, on_total};
ghost use Rattle.std.specs.Ordering.{eq_by_cmp};
ghost use Rattle.type_terms.specs.Order.{owner_order};
ghost use Rattle.sorted_owners.specs.Ranks.{by_order, owner_of, owners_of};
ghost use Rattle.sorted_owners.specs.OwnerLaws.{owners_equal, owners_partly, owners_per};
ghost use Rattle.sorted_owners.specs.OwnerOrder.{owners_total};
ghost use Rattle.sorted_owners.specs.Rising.{rising};

use il_lists::{Items, NoMemory};
use std::alloc::Global;
use std::cmp::Ordering;
use std::collections::BTreeSet;
use type_terms::{Owner, Owners, compare_owners};

// An owner among others, which goes by the order of owners.
#[derive(Drop)]
struct Ranked {
    owner: Owner,
}

impl PartialEq for Ranked {
    ghost eq = { λ a b. eq_by_cmp owner_order (owner_of a) (owner_of b) };

    ghost laws = { on_per owner_of owners_per };

    fn eq(&self, other: &Ranked) -> bool {
        compare_owners(&self.owner, &other.owner) == Ordering::Equal
    }
}

impl Eq for Ranked {
    ghost laws = { on_equiv owner_of owners_equal };
}

impl PartialOrd for Ranked {
    ghost partial_cmp = { λ a b. Some (by_order a b) };

    ghost laws = { on_po owner_of owners_partly };

    fn partial_cmp(&self, other: &Ranked) -> Option<Ordering> {
        Some(self.cmp(other))
    }
}

impl Ord for Ranked {
    ghost cmp = { by_order };

    ghost total = { on_total owner_of owners_total };

    ghost matches_partial_cmp = { λ a b. refl };

    ghost matches_eq = { λ a b. refl };

    fn cmp(&self, other: &Ranked) -> Ordering {
        compare_owners(&self.owner, &other.owner)
    }
}

/// The same owners, strictly rising.
pub fn rising(alloc: Global, owners: Owners) -> Result<Owners, NoMemory>
    ensures { IfOk result (λ sorted. sorted ≡ rising owners) }
{
    if owners.len() < 2 {
        return Ok(owners);
    }
    let mut left = owners;
    let mut ranked = BTreeSet::new(alloc);
    while let Some(owner) = left.pop() {
        if ranked.insert(Ranked { owner }).is_err() {
            return Err(NoMemory);
        }
    }
    in_order(alloc, ranked)
}

// The owners of a set, in order.
fn in_order(alloc: Global, ranked: BTreeSet<Ranked>) -> Result<Owners, NoMemory>
    ensures { IfOk result (λ owners. owners ≡ owners_of ranked.keys) }
{
    let mut owners = Items::new(alloc);
    for Ranked { owner } in ranked {
        owners.push(owner)?;
    }
    Ok(owners)
}
