//! The sizes in data that types state by themselves: the widths of primitive types (ECMA-335 II.16.3).

ghost use Rattle.std.specs.Prelude.{◌≡◌, ℕ, List, None, Option, false, if◌then◌else◌, ◌==◌};
ghost use Rattle.type_terms.specs.declared.name.Scope.{Scope};
ghost use Rattle.type_terms.specs.declared.name.TypeId.{TypeId};
ghost use Rattle.type_terms.specs.declared.term.SigType.{SigType};
ghost use Rattle.ilasm_grammar.specs.declared.productions.TheConstants.{TYPE_BASE_VALUETYPE};
ghost use Rattle.source_model.specs.Data.{size_by};
ghost use Rattle.source_model.specs.Forest.{Forest, preorder};
ghost use Rattle.source_model.specs.Nodes.{Around};
ghost use Rattle.source_model.specs.Source.{Source};
ghost use Rattle.source_model.specs.Types.{base_type, suffixed};
ghost use Rattle.source_syntax.specs.Suffixes.{is_suffix};
ghost use Rattle.source_nodes.specs.Walk.{IsForest};
ghost use Rattle.check_names.specs.StatedSizes.{base_width};

use crate::data_lengths::width_length;
use crate::number_rules::int_width;
use crate::type_depths::{is_modifier, is_suffix};
use ilasm_grammar::TreeNode;
use ilasm_grammar::productions::{
    TYPE_BASE_BOOL, TYPE_BASE_CHAR, TYPE_BASE_FLOAT32, TYPE_BASE_FLOAT64, TYPE_BASE_INT_TYPE,
};
use source_model::forests_join;
use source_nodes::walk::open;

/// Whether a type has the size of what its suffixes stand behind: where these are modifiers. Else it has none.
pub fn keeps_size(suffixes: &[TreeNode]) -> bool
    requires { IsForest suffixes.now }
    ensures { (s : Source) (a : Around) (f : Forest) → preorder f ≡ suffixes.now → (value : Scope → List TypeId → Option ℕ) (t : SigType) →
        size_by value (suffixed s a f t) ≡ (if result then size_by value t else None) }
{
    forests_join();
    let mut left = suffixes;
    while let Some(x) = open(left) {
        if is_suffix(x.node) {
            if !is_modifier(x.node) {
                return false;
            }
            left = x.after;
        } else {
            left = x.behind;
        }
    }
    true
}

/// The bytes of a base that is no value type, where it has a stated size.
pub fn primitive_size(production: u16, below: &[TreeNode]) -> Option<u8>
    requires { IsForest below.now }
    ensures { (s : Source) (a : Around) (f : Forest) (args : List SigType) (value : Scope → List TypeId → Option ℕ) → preorder f ≡ below.now →
        (production == TYPE_BASE_VALUETYPE) ≡ false → size_by value (base_type s a production f args) ≡ result }
{
    base_width(production, below)
}

// The bytes of a base of a width.
fn base_width(production: u16, below: &[TreeNode]) -> Option<u8>
    requires { IsForest below.now }
    ensures { (f : Forest) → preorder f ≡ below.now → result ≡ base_width production f }
{
    match production {
        TYPE_BASE_BOOL => Some(1),
        TYPE_BASE_CHAR => Some(2),
        TYPE_BASE_FLOAT32 => Some(4),
        TYPE_BASE_FLOAT64 => Some(8),
        TYPE_BASE_INT_TYPE => Some(width_length(int_width(below))),
        _ => None,
    }
}
