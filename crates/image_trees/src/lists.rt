ghost use Rattle.std.specs.Prelude.{◌≡◌, ◌<◌, ◌++◌, ◌∷◌, [], IfOk, OnOk, length, reverse, slice_index_or, slice_set};
ghost use Rattle.image_trees.specs.Lists.{AreEmpty};

use il_base::{Items, NoMemory};
use std::alloc::Global;
use std::mem::replace;

/// So many empty lists.
pub(crate) fn empty_lists<T: Drop>(alloc: Global, count: usize) -> Result<Vec<Items<T>>, NoMemory>
    ensures { IfOk result (λ lists. AreEmpty count lists.items) }
{
    let mut lists = Vec::with_capacity(alloc, count)?;
    for made in 0..count {
        lists.push(Items::new(alloc))?;
    }
    Ok(lists)
}

/// Takes a list out, and leaves an empty one.
pub(crate) fn take_list<T: Drop>(alloc: Global, lists: &mut Vec<Items<T>>, at: usize) -> Items<T>
    requires { at < length lists.old.items }
    ensures list { result ≡ slice_index_or lists.old.items at [] }
    ensures lists { lists.new.items ≡ slice_set lists.old.items at [] }
{
    replace(&mut lists[at], Items::new(alloc))
}

/// The same items, the last first.
pub(crate) fn turned<T: Drop>(alloc: Global, list: Items<T>) -> Result<Items<T>, NoMemory>
    ensures { IfOk result (λ turned. turned ≡ reverse list) }
{
    let mut left = list;
    let mut turned = Items::with_capacity(alloc, left.len())?;
    while let Some(item) = left.pop() {
        turned.push(item)?;
    }
    Ok(turned)
}

/// Puts an item behind a list.
pub(crate) fn put<T: Drop>(lists: &mut Vec<Items<T>>, at: usize, item: T) -> Result<(), NoMemory>
    requires { at < length lists.old.items }
    ensures { OnOk result (lists.new.items ≡ slice_set lists.old.items at (slice_index_or lists.old.items at [] ++ item ∷ [])) }
{
    lists[at].push(item)
}
