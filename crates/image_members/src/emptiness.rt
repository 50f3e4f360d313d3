//! Whether rows own anything at all.
ghost use Rattle.std.specs.Prelude.{◌≡◌, List, [], false};
ghost use Rattle.std.specs.List.{AllByRecursion};
ghost use Rattle.image_members.specs.Emptiness.{any_has_item};
ghost use Rattle.image_members.specs.Places.{lent};

use il_base::Items;

/// Whether any of these lists has an item.
pub fn have_items<T>(lists: &[&Items<T>]) -> bool
    ensures any { result ≡ any_has_item lists.now }
    ensures none { result ≡ false → AllByRecursion (λ (list : List T). list ≡ []) (lent lists.now) }
{
    lists.iter().any(|list| list.len() > 0)
}
