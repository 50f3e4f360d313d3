//! Two operands together (ECMA-335 III.1.5). Nothing here takes memory.
ghost use Rattle.std.specs.Prelude.{◌≡◌, ◌&&◌, not, ℕ, List, IfSome};
ghost use Rattle.std.specs.Option.{option_map};
ghost use Rattle.sig_pool.specs.declared.node.Node.{Node};
ghost use Rattle.type_hierarchy.specs.Meaning.{meant, IsWithin};
ghost use Rattle.type_hierarchy.specs.Stack.{i4, native};
ghost use Rattle.code_flow.specs.Demands.{arithmetic, go_together, outcome};
ghost use Rattle.stack_rows.specs.RowMeanings.{comparable_test, pairing_meant};

use stack_rows::kinds::{is_integer, is_number, is_object, is_pointer};
use stack_rows::row::Pairing;
use type_order::StackType;

/// Whether it may be one of a pair.
pub fn is_comparable(t: &StackType) -> bool
    ensures { (ns : List Node) → result ≡ comparable_test (meant ns t.now) }
{
    is_number(t) || is_object(t) || is_pointer(t)
}

/// The type of a numeric operation on two numbers; None where they don't go together.
pub fn arithmetic(s: &StackType, t: &StackType) -> Option<StackType>
    ensures is { (ns : List Node) → option_map (meant ns) result ≡ arithmetic (meant ns s.now) (meant ns t.now) }
    ensures within { (n : ℕ) → IfSome result (IsWithin n) }
{
    match s {
        StackType::I4 => with_int32(t),
        StackType::I8 => match t {
            StackType::I8 => Some(StackType::I8),
            _ => None,
        },
        StackType::N => with_native(t),
        StackType::F => match t {
            StackType::F => Some(StackType::F),
            _ => None,
        },
        StackType::Null => None,
        StackType::Bad => None,
        StackType::Ref(_) => None,
        StackType::Boxed(_) => None,
        StackType::Val(_) => None,
        StackType::Ptr(_) => None,
    }
}

fn with_int32(t: &StackType) -> Option<StackType>
    ensures is { (ns : List Node) → option_map (meant ns) result ≡ arithmetic i4 (meant ns t.now) }
    ensures within { (n : ℕ) → IfSome result (IsWithin n) }
{
    match t {
        StackType::I4 => Some(StackType::I4),
        StackType::N => Some(StackType::N),
        _ => None,
    }
}

fn with_native(t: &StackType) -> Option<StackType>
    ensures is { (ns : List Node) → option_map (meant ns) result ≡ arithmetic native (meant ns t.now) }
    ensures within { (n : ℕ) → IfSome result (IsWithin n) }
{
    match t {
        StackType::I4 => Some(StackType::N),
        StackType::N => Some(StackType::N),
        _ => None,
    }
}

/// Whether two operands go together.
pub fn go_together(pairing: Pairing, s: &StackType, t: &StackType) -> bool
    ensures { (ns : List Node) → result ≡ go_together (pairing_meant pairing) (meant ns s.now) (meant ns t.now) }
{
    let numeric = arithmetic(s, t).is_some();
    match pairing {
        Pairing::Numeric => numeric,
        Pairing::Integral => is_integer(s) && numeric,
        Pairing::Equality => {
            numeric || is_object(s) && is_object(t) || is_pointer(s) && is_pointer(t)
        }
        Pairing::Ordering => numeric || is_pointer(s) && is_pointer(t),
    }
}

/// Whether two operands, each fit to be one of a pair, don't go together.
pub fn clash(pairing: Pairing, s: &StackType, t: &StackType) -> bool
    ensures { (ns : List Node) → result ≡ (comparable_test (meant ns s.now) && comparable_test (meant ns t.now) && not (go_together (pairing_meant pairing) (meant ns s.now) (meant ns t.now))) }
{
    is_comparable(s) && is_comparable(t) && !go_together(pairing, s, t)
}

/// What a numeric operation leaves.
pub fn outcome(pairing: Pairing, s: &StackType, t: &StackType) -> StackType
    ensures is { (ns : List Node) → meant ns result ≡ outcome (pairing_meant pairing) (meant ns s.now) (meant ns t.now) }
    ensures within { (n : ℕ) → IsWithin n result }
{
    if !go_together(pairing, s, t) {
        return StackType::Bad;
    }
    match arithmetic(s, t) {
        Some(outcome) => outcome,
        None => StackType::Bad,
    }
}
