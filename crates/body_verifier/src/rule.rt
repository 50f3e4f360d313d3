ghost use Rattle.std.specs.Prelude.{◌≡◌, ◌≤◌};
ghost use Rattle.body_verifier.specs.Texts.{rule_text_of};

/// What is said of an instruction that breaks the rule with this number, from 1 to 20. Takes no memory.
#[tactic(auto, unfolding(crate::specs::Texts::rule_texts))]
pub fn rule_text(rule: u8) -> &'static str
    requires low { 1 ≤ rule }
    requires high { rule ≤ 20 }
    ensures { result.now ≡ rule_text_of rule }
{
    match rule {
        1 => "too few operands",
        2 => "stacks of different depth meet",
        3 => "the stack is deeper than .maxstack",
        4 => "an operand isn't of the kind demanded",
        5 => "an operand isn't assignable to what is demanded",
        6 => "the code runs past its end",
        7 => "the operator doesn't take these operands together",
        8 => "no such local",
        9 => "no such argument",
        10 => "the member doesn't fit the instruction",
        11 => "ret with a wrong stack or inside a protected block or handler",
        12 => "a branch enters or leaves a block",
        13 => "the code falls into or out of a block",
        14 => "a protected block is entered with a stack that isn't empty",
        15 => "leave, rethrow, endfinally or endfilter out of its place",
        16 => "the clauses don't nest",
        17 => "a prefix doesn't fit what follows",
        18 => "the instruction or signature is never verified",
        19 => "a pointer to a by-reference type",
        _ => "locals without init",
    }
}
