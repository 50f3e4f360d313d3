ghost use Rattle.std.specs.Prelude.{◌≡◌, [], reverse, OnOk, IfOk};

use il_lists::{Items, NoMemory};
use std::alloc::Global;

/// Takes all items out of the list: they come back with the last one first, so that `pop` gives them in their order.
pub fn turned<T: Drop>(alloc: Global, list: &mut Items<T>) -> Result<Items<T>, NoMemory>
    ensures empty { OnOk result (list.new ≡ []) }
    ensures turned { IfOk result (λ r. r ≡ reverse list.old) }
{
    let mut turned = Items::with_capacity(alloc, list.len())?;
    while let Some(item) = list.pop() {
        turned.push(item)?;
    }
    Ok(turned)
}
