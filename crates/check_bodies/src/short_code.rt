//! Code in which each branch reaches its target by one signed byte: 12 instructions, of 10 bytes at most each (ECMA-335
//! III.1.7.2, III.3.15).

ghost use Rattle.std.specs.Prelude.{◌≡◌, ◌==◌};
ghost use Rattle.std.specs.List.{list_all};
ghost use Rattle.ilasm_grammar.specs.declared.productions.TheConstants.{INSTRUCTION_SWITCH};
ghost use Rattle.check_bodies.specs.ShortCode.{is_bounded, is_short_code};

use ilasm_grammar::productions;
use source_nodes::pieces::Piece;

// So many instructions of 10 bytes end before byte 127.
const MOST: usize = 12;

/// Whether these instructions are so few, and none of them is `switch`.
pub fn is_short_code(code: &[Piece]) -> bool
    ensures { result ≡ is_short_code code.now }
{
    if code.len() > MOST {
        return false;
    }
    are_bounded(code)
}

fn are_bounded(code: &[Piece]) -> bool
    ensures { result ≡ list_all (λ x. is_bounded x.production) code.now }
{
    code.iter().all(|piece| is_bounded(piece.production))
}

// Whether an instruction takes 10 bytes at most.
fn is_bounded(production: u16) -> bool
    ensures { result ≡ is_bounded production }
{
    !is_switch(production)
}

fn is_switch(production: u16) -> bool
    ensures { result ≡ (production == INSTRUCTION_SWITCH) }
{
    production == productions::INSTRUCTION_SWITCH
}
