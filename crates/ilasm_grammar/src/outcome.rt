ghost use Rattle.std.specs.Prelude.{◌≤◌, ◌^◌, IfOk, length};
ghost use Rattle.ilasm_grammar.specs.Parsing.{terminals_of_spans, IsParsed};

use crate::counts::count_nodes;
use crate::leftmost::{Outcome, derive};
use il_base::NoMemory;
use il_lexer::types::Span;
use std::alloc::Global;

/// The derivation of the tokens that have these spans, or the number of the token at fault.
pub(crate) fn parsed(alloc: Global, spans: &[Span]) -> Result<Outcome, NoMemory>
    requires { length spans.now ≤ 2 ^ 24 }
    ensures { IfOk result (IsParsed (terminals_of_spans spans.now)) }
{
    match derive(alloc, spans)? {
        Outcome::Whole(mut nodes) => {
            count_nodes(&mut nodes);
            Ok(Outcome::Whole(nodes))
        }
        Outcome::Stops(at) => Ok(Outcome::Stops(at)),
    }
}
