//! Bodies of methods in a source that breaks no rule: a law each, as the contract of a function.

ghost use Rattle.laws_formed_sources.specs.bodies.Laws.{BodiesAreFormed, BodiesHaveForm, BodiesNameWell, InstructionsFit, MethodsHaveBodies, NodesAreGood, ShortBranchesReach};

use il_lexer::{the_longest_spelling_is_taken, tokens_are_spellings};
use source_nodes::derived::derivations_have_bodies;

/// In a source that breaks no rule each production breaks none, with what stands below it, and at most 65,535 generic
/// parameters of a class and of a method stand around it (ECMA-335 II.10.1.7).
pub fn nodes_are_good()
    ensures { NodesAreGood }
{
    derivations_have_bodies();
}

/// The body of a method is well formed in the assembly that the source denotes (ECMA-335 II.15.4, II.25.4).
pub fn bodies_are_formed()
    ensures { BodiesAreFormed }
{
    the_longest_spelling_is_taken();
    tokens_are_spellings();
    derivations_have_bodies();
}

/// It has code, its counts are in range, operands fit their opcodes, targets are instructions, and clauses are forward and
/// inside (ECMA-335 II.19, II.25.4, III.1.7).
pub fn bodies_have_form()
    ensures { BodiesHaveForm }
{
    the_longest_spelling_is_taken();
    tokens_are_spellings();
    derivations_have_bodies();
}

/// Each short branch reaches its target (ECMA-335 III.1.7.2, III.3.15).
pub fn short_branches_reach()
    ensures { ShortBranchesReach }
{
    the_longest_spelling_is_taken();
    tokens_are_spellings();
    derivations_have_bodies();
}

/// Its locals' types, what its instructions refer to and what its clauses catch are well formed (ECMA-335 II.15.4.1.3,
/// II.19, III.4).
pub fn bodies_name_well()
    ensures { BodiesNameWell }
{
    the_longest_spelling_is_taken();
    tokens_are_spellings();
    derivations_have_bodies();
}

/// So each method has no body, or a well-formed one (ECMA-335 II.15.4).
pub fn methods_have_bodies()
    ensures { MethodsHaveBodies }
{
    the_longest_spelling_is_taken();
    tokens_are_spellings();
    derivations_have_bodies();
}

/// And of its instructions alone: operands fit their opcodes, targets are instructions, and short branches reach (ECMA-335
/// III.1.7).
pub fn instructions_fit()
    ensures { InstructionsFit }
{
    methods_have_bodies();
}
