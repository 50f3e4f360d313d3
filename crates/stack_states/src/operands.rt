//! The operands of an instruction on a stack.
ghost use Rattle.std.specs.Prelude.{◌≡◌, ℕ, get_or, List};
ghost use Rattle.sig_pool.specs.declared.node.Node.{Node};
ghost use Rattle.type_hierarchy.specs.Meaning.{meant, IsWithin};
ghost use Rattle.type_hierarchy.specs.Stack.{bad};
ghost use Rattle.code_flow.specs.Effects.{operands_of};
ghost use Rattle.stack_rows.specs.RowMeanings.{stack_meant, IsStackWithin};

use type_order::StackType;

/// The operand at place `k` of the `count` that an instruction takes, the one that was pushed first at place 0, from a
/// stack's values or the topmost of them. Those that are missing count as Bad. Takes no memory.
pub fn operand(stack: &[StackType], count: usize, k: usize) -> StackType
    ensures is { (ns : List Node) → meant ns result ≡ get_or (operands_of count (stack_meant ns stack.now)) k bad }
    ensures within { (n : ℕ) → IsStackWithin n stack.now → IsWithin n result }
{
    if count <= k {
        return StackType::Bad;
    }
    let back = count - k;
    let depth = stack.len();
    if depth < back {
        return StackType::Bad;
    }
    stack[depth - back]
}
