//! Stacks that share what lies below: each value is held once, over what was below it when it was pushed.
ghost use Rattle.std.specs.Prelude.{◌≡◌, ◌-◌, [], ◌∷◌, ◌++◌, length, reverse, take, drop, IfOk, IfSome, OnOk, OnErr};
ghost use Rattle.stack_states.specs.Chains.{topmost_values, values_of};

use il_lists::NoMemory;
use std::alloc::Global;
use std::marker::Model;
use std::rc::Rc;
use type_order::StackType;

/// A value, and what lies below it.
#[derive(Drop)]
struct Cell {
    value: StackType,
    below: Link,
}

type Link = Option<Rc<Cell>>;

/// The types of the values on the evaluation stack (ECMA-335 III.1.1). What was pushed first stands first.
///
/// Stacks share what lies below: a push takes memory for one value, and taking values off takes none.
pub struct Stack {
    depth: usize,
    top: Link,
}

impl Model for Stack {
    ghost use Rattle.std.specs.Prelude.{◌≡◌, List, length, reverse};
    ghost use Rattle.type_hierarchy.specs.declared.stack_type.StackType.{StackType};
    ghost use Rattle.stack_states.specs.Chains.{values_of};

    ghost Value = { List StackType };

    ghost view = { λ s. reverse (values_of s.top) };

    ghost invariant = { λ s. s.depth ≡ length (values_of s.top) };
}

impl Drop for Stack {
    // A loop, since a stack may be a million values deep. It ends where another stack shares what is left.
    fn drop(self) {
        let Stack { depth: _, top } = self;
        let mut next = top;
        while let Some(cell) = next {
            next = match Rc::into_inner(cell) {
                Some(cell) => cell.below,
                None => None,
            };
        }
    }
}

/// What lies below the topmost value.
fn next(link: &Link) -> &Link
    ensures { values_of result.now ≡ drop 1 (values_of link.now) }
{
    match link {
        Some(cell) => &cell.below,
        None => link,
    }
}

/// What lies below the `count` topmost values.
fn below(link: &Link, count: usize) -> &Link
    ensures { values_of result.now ≡ drop count (values_of link.now) }
{
    let mut rest = link;
    for _ in 0..count {
        rest = next(rest);
    }
    rest
}

/// The same values, over the same cells.
fn shared(link: &Link) -> Result<Link, NoMemory>
    ensures { IfOk result (λ r. values_of r ≡ values_of link.now) }
{
    match link {
        Some(cell) => Ok(Some(cell.clone()?)),
        None => Ok(None),
    }
}

fn add_topmost(values: &mut Vec<StackType>, link: &Link) -> Result<(), NoMemory>
    ensures { OnOk result (values.new.items ≡ values.old.items ++ take 1 (values_of link.now)) }
{
    if let Some(cell) = link {
        values.push(cell.value)?;
    }
    Ok(())
}

/// The `count` topmost values, the topmost first.
fn topmost(alloc: Global, link: &Link, count: usize) -> Result<Vec<StackType>, NoMemory>
    ensures { IfOk result (λ v. v.items ≡ take count (values_of link.now)) }
{
    let mut values = Vec::with_capacity(alloc, count)?;
    let mut rest = link;
    for _ in 0..count {
        add_topmost(&mut values, rest)?;
        rest = next(rest);
    }
    Ok(values)
}

/// The topmost values of a stack. What was pushed first stands first. One or two take no memory.
#[derive(Drop)]
pub enum Uppermost {
    One(StackType),
    Two([StackType; 2]),
    More(Vec<StackType>),
}

impl Uppermost {
    /// The values. Takes no memory.
    pub fn as_slice(&self) -> &[StackType]
        ensures { result.now ≡ topmost_values self.now }
    {
        match self {
            Uppermost::One(value) => std::slice::from_ref(value),
            Uppermost::Two(values) => values,
            Uppermost::More(values) => values.as_slice(),
        }
    }
}

/// The topmost value, where there is one.
fn first(link: &Link) -> Option<StackType>
    ensures { IfSome result (λ v. take 1 (values_of link.now) ≡ v ∷ []) }
{
    match link {
        Some(cell) => Some(cell.value),
        None => None,
    }
}

/// The `count` topmost values, where these are one or two.
fn few(link: &Link, count: usize) -> Option<Uppermost>
    ensures { IfSome result (λ t. topmost_values t ≡ reverse (take count (values_of link.now))) }
{
    let Some(top) = first(link) else {
        return None;
    };
    if count == 1 {
        return Some(Uppermost::One(top));
    }
    let Some(under) = first(next(link)) else {
        return None;
    };
    if count == 2 {
        return Some(Uppermost::Two([under, top]));
    }
    None
}

impl Stack {
    /// The empty stack. Takes no memory.
    pub fn new() -> Stack
        ensures { result ≡ [] }
    {
        Stack {
            depth: 0,
            top: None,
        }
    }

    /// The number of values. Takes no memory.
    pub fn len(&self) -> usize
        ensures { result ≡ length self.now }
    {
        self.depth
    }

    /// Pushes a value. NoMemory where there is no memory for it, or for that many values.
    pub fn push(&mut self, alloc: Global, value: StackType) -> Result<(), NoMemory>
        ensures ok { OnOk result (self.new ≡ self.old ++ value ∷ []) }
        ensures err { OnErr result (self.new ≡ self.old) }
    {
        let Some(depth) = self.depth.checked_add(1) else {
            return Err(NoMemory);
        };
        let below = self.top.take();
        match Rc::new(alloc, Cell { value, below }) {
            Ok(cell) => {
                self.top = Some(cell);
                self.depth = depth;
                Ok(())
            }
            Err(failed) => {
                self.top = failed.value.below;
                Err(NoMemory)
            }
        }
    }

    /// Pushes values, the first one first.
    pub fn push_each(&mut self, alloc: Global, values: &[StackType]) -> Result<(), NoMemory>
        ensures { OnOk result (self.new ≡ self.old ++ values.now) }
    {
        for value in values {
            self.push(alloc, *value)?;
        }
        Ok(())
    }

    /// A stack with the same values. It shares them.
    pub fn share(&self) -> Result<Stack, NoMemory>
        ensures { IfOk result (λ s. s ≡ self.now) }
    {
        let top = shared(&self.top)?;
        Ok(Stack {
            depth: self.depth,
            top,
        })
    }

    /// The stack below the `count` topmost values; the empty one where there are fewer. It shares its values.
    pub fn under(&self, count: usize) -> Result<Stack, NoMemory>
        ensures { IfOk result (λ s. s ≡ take (length self.now - count) self.now) }
    {
        if self.depth <= count {
            return Ok(Stack::new());
        }
        let top = shared(below(&self.top, count))?;
        Ok(Stack {
            depth: self.depth - count,
            top,
        })
    }

    /// All the values; one or two take no memory.
    pub fn values(&self, alloc: Global) -> Result<Uppermost, NoMemory>
        ensures { IfOk result (λ v. topmost_values v ≡ self.now) }
    {
        self.topmost(alloc, self.depth)
    }

    /// The `count` topmost values, or all where there are fewer. What was pushed first stands first.
    fn listed(&self, alloc: Global, count: usize) -> Result<Vec<StackType>, NoMemory>
        ensures { IfOk result (λ v. v.items ≡ drop (length self.now - count) self.now) }
    {
        let mut values = topmost(alloc, &self.top, count)?;
        values.reverse();
        Ok(values)
    }

    /// The same; one or two take no memory.
    pub fn topmost(&self, alloc: Global, count: usize) -> Result<Uppermost, NoMemory>
        ensures { IfOk result (λ t. topmost_values t ≡ drop (length self.now - count) self.now) }
    {
        if let Some(few) = few(&self.top, count) {
            return Ok(few);
        }
        let values = self.listed(alloc, count)?;
        Ok(Uppermost::More(values))
    }
}
