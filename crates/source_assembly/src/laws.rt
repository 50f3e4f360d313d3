//! What follows of the definitions: a law, as the contract of a function.
ghost use Rattle.source_assembly.specs.Laws.{OneReading};

use il_lexer::lexes_in_one_way;
use ilasm_grammar::one_fault;
use source_model::one_meaning;

/// A source is read in one way at most: as one assembly, or with one fault. So `assembly_of` answers the only assembly or the
/// only fault that there is.
pub fn one_reading()
    ensures { OneReading }
{
    lexes_in_one_way();
    one_fault();
    one_meaning();
}
