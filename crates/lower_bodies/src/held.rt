//! Which items a method has, and what stands in them (ECMA-335 II.15.4.1), so that nothing is looked for that isn't there.

ghost use Rattle.std.specs.Prelude.{◌≡◌, ◌∷◌, []};
ghost use Rattle.ilasm_grammar.specs.declared.productions.TheConstants.{OVERRIDDEN_METHOD, OVERRIDDEN_SPEC};
ghost use Rattle.lower_bodies.specs.HeldItems.{AddsTo, holding_nothing, line_forms, told_forms};
ghost use Rattle.source_model.specs.Forest.{is_among};

use crate::clauses::is_clause;
use ilasm_grammar::productions;

/// Whether a method has methods that it overrides, a line that makes it the entry point, a bound of its stack, a local, `init`, a
/// clause, and a line of `.param` or an attribute.
#[derive(Debug, Clone, Copy, PartialEq, Eq, Drop)]
pub struct Held {
    pub overrides: bool,
    pub entry: bool,
    pub bound: bool,
    pub local: bool,
    pub init: bool,
    pub clause: bool,
    pub lines: bool,
}

impl Held {
    /// Nothing of all that.
    pub fn nothing() -> Held
        ensures { result ≡ holding_nothing }
    {
        Held {
            overrides: false,
            entry: false,
            bound: false,
            local: false,
            init: false,
            clause: false,
            lines: false,
        }
    }

    /// The same with what a production is.
    pub fn with(self, production: u16) -> Held
        ensures { AddsTo self production result }
    {
        Held {
            overrides: self.overrides || is_override(production),
            entry: self.entry || production == productions::ITEM_ENTRYPOINT,
            bound: self.bound || production == productions::ITEM_MAXSTACK,
            local: self.local || production == productions::LOCAL,
            init: self.init || production == productions::INIT_OPT_SOME,
            clause: self.clause || is_clause(production),
            lines: self.lines || is_line(production),
        }
    }
}

fn is_override(production: u16) -> bool
    ensures { result ≡ is_among (OVERRIDDEN_METHOD ∷ OVERRIDDEN_SPEC ∷ []) production }
{
    matches!(
        production,
        productions::OVERRIDDEN_METHOD | productions::OVERRIDDEN_SPEC
    )
}

// Whether a production is a line of `.param` or an attribute.
fn is_line(production: u16) -> bool
    ensures { result ≡ is_among line_forms production }
{
    matches!(
        production,
        productions::PARAM_OF_BRACKET
            | productions::PARAM_OF_TYPE
            | productions::MEMBER_PARAM
            | productions::DECL_CUSTOM
            | productions::MEMBER_CUSTOM
            | productions::ITEM_CUSTOM
    )
}

/// Whether a production is one of those that are looked for. Most aren't.
pub fn is_told(production: u16) -> bool
    ensures { result ≡ is_among told_forms production }
{
    matches!(
        production,
        productions::OVERRIDDEN_METHOD
            | productions::OVERRIDDEN_SPEC
            | productions::ITEM_ENTRYPOINT
            | productions::ITEM_MAXSTACK
            | productions::LOCAL
            | productions::INIT_OPT_SOME
            | productions::CLAUSE_CATCH
            | productions::CLAUSE_FILTER
            | productions::CLAUSE_FINALLY
            | productions::CLAUSE_FAULT
            | productions::PARAM_OF_BRACKET
            | productions::PARAM_OF_TYPE
            | productions::MEMBER_PARAM
            | productions::DECL_CUSTOM
            | productions::MEMBER_CUSTOM
            | productions::ITEM_CUSTOM
    )
}
