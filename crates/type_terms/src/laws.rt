ghost use Rattle.std.specs.Cmp.{IsTotalOrder};
ghost use Rattle.type_terms.specs.Order.{term_order, owner_order};

/// The orders of `compare_terms` and `compare_owners` are total: each is antisymmetric and transitive, and
/// what ties stands alike to all others. It does nothing when it is called.
#[tactic(auto, using(crate::proofs::OrderLaws::terms_total, crate::proofs::OrderLaws::owners_total))]
pub fn orders_are_total()
    ensures terms { IsTotalOrder term_order }
    ensures owners { IsTotalOrder owner_order }
{}
