ghost use Rattle.std.specs.Prelude.{◌≡◌, [], ◌∷◌, ◌++◌, ◌<◌, ◌-◌, ◌↔◌, length, take, slice_get, slice_index_or, slice_set, IsTrue, IfOk, OnOk, OnErr, MatchOption, Some, vec_len, vec_capacity};
ghost use Rattle.std.specs.Option.{option_copied};

use crate::{Copies, NoMemory};
use std::alloc::Global;
use std::marker::Model;
use std::mem::replace;

/// A list that contracts see as the list of its items.
#[derive(Debug, Drop)]
pub struct Items<T> {
    items: Vec<T>,
}

impl<T> Model for Items<T> {
    ghost use Rattle.std.specs.Prelude.{List};
    ghost use Rattle.std.specs.Coded.{coded_list};

    ghost Value = { List T };

    ghost coded = { coded_list T.code };

    ghost view = { λ it. it.items.items };
}

impl<T> Items<T> {
    /// The empty list. Takes no memory.
    pub fn new(alloc: Global) -> Items<T>
        ensures { result ≡ [] }
    {
        Items {
            items: Vec::new(alloc),
        }
    }

    /// The empty list with room for `capacity` items.
    pub fn with_capacity(alloc: Global, capacity: usize) -> Result<Items<T>, NoMemory>
        ensures { IfOk result (λ it. it ≡ []) }
    {
        let items = Vec::with_capacity(alloc, capacity)?;
        Ok(Items { items })
    }

    /// Lends the items.
    pub fn as_slice(&self) -> &[T]
        ensures { result.now ≡ self.now }
    {
        self.items.as_slice()
    }

    /// The number of items.
    pub fn len(&self) -> usize
        ensures { result ≡ length self.now }
    {
        self.items.len()
    }

    /// Whether there are no items.
    pub fn is_empty(&self) -> bool
        ensures { IsTrue result ↔ (self.now ≡ []) }
    {
        self.items.is_empty()
    }

    /// The item at place `k`, counted from 0.
    pub fn at(&self, k: usize) -> &T
        requires { k < length self.now }
        ensures { slice_get self.now k ≡ Some result.now }
    {
        &self.items[k]
    }

    /// The item at place `k`, or None where there is none.
    pub fn get(&self, k: usize) -> Option<&T>
        ensures { option_copied result ≡ slice_get self.now k }
    {
        self.items.get(k)
    }

    /// Takes the last item off, where there is one.
    pub fn pop(&mut self) -> Option<T>
        ensures { MatchOption result ((self.old ≡ []) × (self.new ≡ [])) (λ last. self.old ≡ self.new ++ last ∷ []) }
    {
        self.items.pop()
    }
}

// Makes room for one more item, apart so that a push without it is short: an item that `Vec::push` may hand
// back is moved several times.
#[cold]
#[inline(never)]
fn grow_by_one<T>(items: &mut Vec<T>) -> Result<(), NoMemory>
    ensures items { items.new.items ≡ items.old.items }
    ensures room { OnOk result (vec_len items.new < vec_capacity items.new) }
{
    if items.is_empty() {
        items.reserve_exact(1)?;
    } else {
        items.reserve(1)?;
    }
    Ok(())
}

// The items with room for one more, and whether there was memory for it. They are handed over and back, so that the
// place of a list that is only pushed to isn't lent, and it may stay in registers.
#[cold]
#[inline(never)]
fn roomier<T>(items: Vec<T>) -> (Vec<T>, bool)
    ensures items { result.0.items ≡ items.items }
    ensures room { IsTrue result.1 → vec_len result.0 < vec_capacity result.0 }
{
    let mut grown = items;
    let has_room = grown.reserve(1).is_ok();
    (grown, has_room)
}

impl<T: Drop> Items<T> {
    /// The list of `item` alone.
    pub fn one(alloc: Global, item: T) -> Result<Items<T>, NoMemory>
        ensures { IfOk result (λ it. it ≡ item ∷ []) }
    {
        let mut list = Items::new(alloc);
        list.push(item)?;
        Ok(list)
    }

    /// The list of `first` and `second`.
    pub fn pair(alloc: Global, first: T, second: T) -> Result<Items<T>, NoMemory>
        ensures { IfOk result (λ it. it ≡ first ∷ second ∷ []) }
    {
        let mut list = Items::with_capacity(alloc, 2)?;
        list.push(first)?;
        list.push(second)?;
        Ok(list)
    }

    /// Adds an item at the end. A first item gets room for itself alone, since many lists of a tree
    /// have one item.
    #[inline(always)]
    pub fn push(&mut self, item: T) -> Result<(), NoMemory>
        ensures ok { OnOk result (self.new ≡ self.old ++ item ∷ []) }
        ensures err { OnErr result (self.new ≡ self.old) }
    {
        if self.items.len() == self.items.capacity() {
            grow_by_one(&mut self.items)?;
        }
        self.items.push_reserved(item);
        Ok(())
    }

    /// Adds an item at the end, as `push` does, where many are added and room seldom runs out: between the
    /// pushes of a loop the list stays in registers.
    #[inline(always)]
    pub fn push_long(&mut self, item: T) -> Result<(), NoMemory>
        ensures ok { OnOk result (self.new ≡ self.old ++ item ∷ []) }
        ensures err { OnErr result (self.new ≡ self.old) }
    {
        if self.items.len() == self.items.capacity() {
            let none = Vec::new(*self.items.allocator());
            let (items, has_room) = roomier(replace(&mut self.items, none));
            self.items = items;
            if !has_room {
                return Err(NoMemory);
            }
        }
        self.items.push_reserved(item);
        Ok(())
    }

    /// Moves the items of `more` to the end.
    pub fn append(&mut self, more: Items<T>) -> Result<(), NoMemory>
        ensures ok { OnOk result (self.new ≡ self.old ++ more) }
        ensures err { OnErr result (self.new ≡ self.old) }
    {
        let Items { mut items } = more;
        self.items.append(&mut items)?;
        Ok(())
    }

    /// Replaces the item at place `k`.
    pub fn set(&mut self, k: usize, item: T)
        requires { k < length self.old }
        ensures { self.new ≡ slice_set self.old k item }
    {
        self.items[k] = item;
    }

    /// Keeps the first `count` items.
    pub fn truncate(&mut self, count: usize)
        ensures { self.new ≡ take count self.old }
    {
        self.items.truncate(count);
    }

    /// Makes room for `more` further items.
    pub fn reserve(&mut self, more: usize) -> Result<(), NoMemory>
        ensures { self.new ≡ self.old }
    {
        self.items.reserve(more)?;
        Ok(())
    }
}

impl<T: Copy> Items<T> {
    /// A list of copies of `items`.
    pub fn from_slice(alloc: Global, items: &[T]) -> Result<Items<T>, NoMemory>
        ensures { IfOk result (λ it. it ≡ items.now) }
    {
        let items = Vec::from_slice(alloc, items)?;
        Ok(Items { items })
    }

    /// Adds copies of `more` at the end.
    pub fn extend(&mut self, more: &[T]) -> Result<(), NoMemory>
        ensures ok { OnOk result (self.new ≡ self.old ++ more.now) }
        ensures err { OnErr result (self.new ≡ self.old) }
    {
        self.items.extend_from_slice(more)?;
        Ok(())
    }
}

impl<T: Copies> Copies for Items<T> {
    fn copy(&self, alloc: Global) -> Result<Items<T>, NoMemory> {
        let mut copies = Items::with_capacity(alloc, self.len())?;
        for item in self.as_slice() {
            let copied = item.copy(alloc)?;
            copies.push(copied)?;
        }
        Ok(copies)
    }
}
