//! Whether types and stacks of the code mean the same.
ghost use Rattle.std.specs.Prelude.{◌≡◌, ◌<◌, ◌≤◌, ◌↔◌, length, take, IsTrue};
ghost use Rattle.type_hierarchy.specs.Meaning.{meant, IsWithin};
ghost use Rattle.stack_rows.specs.RowMeanings.{stack_meant, IsStackWithin};

use sig_pool::SigPool;
use type_order::{StackType, id_of};

/// Whether two stack types of a pool are one. Takes no memory.
pub fn same_type(pool: &SigPool, s: &StackType, t: &StackType) -> bool
    requires s { IsWithin (length pool.now) s.now }
    requires t { IsWithin (length pool.now) t.now }
    ensures { IsTrue result ↔ (meant pool.now s.now ≡ meant pool.now t.now) }
{
    match s {
        StackType::I4 => matches!(t, StackType::I4),
        StackType::I8 => matches!(t, StackType::I8),
        StackType::N => matches!(t, StackType::N),
        StackType::F => matches!(t, StackType::F),
        StackType::Null => matches!(t, StackType::Null),
        StackType::Bad => matches!(t, StackType::Bad),
        StackType::Ref(a) => match t {
            StackType::Ref(b) => pool.same(id_of(a), id_of(b)),
            _ => false,
        },
        StackType::Boxed(a) => match t {
            StackType::Boxed(b) => pool.same(id_of(a), id_of(b)),
            _ => false,
        },
        StackType::Val(a) => match t {
            StackType::Val(b) => pool.same(id_of(a), id_of(b)),
            _ => false,
        },
        StackType::Ptr(a) => match t {
            StackType::Ptr(b) => pool.same(id_of(a), id_of(b)),
            _ => false,
        },
    }
}

/// How many values of two stacks of one depth mean the same, from the first pushed on. Takes no memory.
pub fn same_count(pool: &SigPool, s: &[StackType], t: &[StackType]) -> usize
    requires s { IsStackWithin (length pool.now) s.now }
    requires t { IsStackWithin (length pool.now) t.now }
    requires depth { length s.now ≡ length t.now }
    ensures most { result ≤ length s.now }
    ensures same { stack_meant pool.now (take result s.now) ≡ stack_meant pool.now (take result t.now) }
    ensures differ { result < length s.now → stack_meant pool.now s.now ≡ stack_meant pool.now t.now → ⊥ }
{
    for k in 0..s.len() {
        if !same_type(pool, &s[k], &t[k]) {
            return k;
        }
    }
    s.len()
}

/// Whether two stacks of one depth mean the same. Takes no memory.
pub fn same_stack(pool: &SigPool, s: &[StackType], t: &[StackType]) -> bool
    requires s { IsStackWithin (length pool.now) s.now }
    requires t { IsStackWithin (length pool.now) t.now }
    requires depth { length s.now ≡ length t.now }
    ensures { IsTrue result ↔ (stack_meant pool.now s.now ≡ stack_meant pool.now t.now) }
{
    same_count(pool, s, t) == s.len()
}
