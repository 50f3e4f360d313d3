//! The numbers behind `.param` (ECMA-335 II.10.1.7, II.15.4.1.4).

ghost use Rattle.std.specs.Prelude.{◌≡◌};
ghost use Rattle.source_model.specs.Forest.{Forest, preorder};
ghost use Rattle.source_model.specs.Nodes.{Node, typar_names};
ghost use Rattle.source_model.specs.OutOfRange.{key_out_of_range, param_out_of_range};
ghost use Rattle.source_model.specs.Source.{Source};
ghost use Rattle.source_nodes.specs.Least.{least};
ghost use Rattle.source_nodes.specs.Readers.{Reads};
ghost use Rattle.source_nodes.specs.Walk.{IsForest};
ghost use Rattle.check_visitor.specs.Surroundings.{HasParameters, IsNode};

use check_visitor::asking::Surrounding;
use check_visitor::ranges::{Limit, beyond_in_each, outside};
use ilasm_grammar::{TreeNode, productions};
use source_nodes::reader::Reader;
use source_nodes::walk::leaf_at;
use source_syntax::declared::Declared;

/// The number behind `.param` that no parameter or generic parameter around it has.
pub fn param_number(
    reader: &Reader,
    place: &Surrounding,
    production: u16,
    below: &[TreeNode],
) -> Option<u32>
    requires { IsForest below.now }
    ensures { (s : Source) (n : Node) → Reads reader.now s → IsNode place.now production below.now n → HasParameters s place.now n.around →
        result ≡ least (param_out_of_range s n) }
{
    match production {
        productions::PARAM_OF_BRACKET => {
            outside(reader, leaf_at(below, 1), 0, place.parameters as i128)
        }
        productions::PARAM_OF_TYPE => typar_number(reader, place.method_typars, below),
        productions::MEMBER_PARAM => typar_number(reader, place.class_typars, below),
        _ => None,
    }
}

// The number of a generic parameter that isn't that of one of these.
fn typar_number(reader: &Reader, names: &Declared, below: &[TreeNode]) -> Option<u32>
    requires { IsForest below.now }
    ensures { (s : Source) (owner f : Forest) → Reads reader.now s → names.now ≡ typar_names s owner → preorder f ≡ below.now →
        result ≡ least (key_out_of_range s owner f) }
{
    beyond_in_each(
        reader,
        below,
        productions::TYPAR_KEY_BRACKET,
        Limit::OneOf(names.len()),
    )
}
