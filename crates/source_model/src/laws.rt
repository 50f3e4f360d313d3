//! What follows of the definitions: a law each, as the contract of a function.

ghost use Rattle.source_model.specs.Laws.{FirstIsLeast, ForestOpens, ForestsJoin, HasMeaning, OneForest, OneMeaning};

use il_lexer::lexes_in_one_way;
use ilasm_grammar::one_derivation;

/// The nodes of a derivation are a forest in preorder, and one forest alone. So whoever walks them walks what the
/// definitions speak of.
pub fn derivations_are_forests()
    ensures { OneForest }
{}

/// What the nodes of a forest say of it: at a branch, what stands below it and after it; at a leaf, what stands after it.
pub fn forests_open()
    ensures { ForestOpens }
{}

/// What is looked for in two forests, one after the other, is what is found in each. So whoever walks the nodes may go from a
/// branch to what stands below it, with what stands after it behind.
pub fn forests_join()
    ensures { ForestsJoin }
{}

/// The first rule that is broken is the one at the least token, and of several there the first of the table; and rules can be
/// asked one by one, since the first of two lists is the first of their firsts.
pub fn the_first_is_least()
    ensures { FirstIsLeast }
{}

/// A source denotes one assembly at most and has one fault at most, and not both (II.5 to II.19, II.21).
pub fn one_meaning()
    ensures { OneMeaning }
{
    lexes_in_one_way();
    one_derivation();
}

/// A source that has tokens and a derivation denotes what it says, or has a fault.
pub fn sources_have_a_meaning()
    ensures { HasMeaning }
{}
