//! The places of fields in types with explicit layout (ECMA-335 II.10.7).

ghost use Rattle.std.specs.Prelude.{◌≡◌};
ghost use Rattle.source_flags.specs.InRange.{IsInRange};
ghost use Rattle.ilasm_grammar.specs.declared.productions.TheConstants.{FIELD};
ghost use Rattle.source_model.specs.Forest.{Forest, preorder};
ghost use Rattle.source_model.specs.Members.{field_offset};
ghost use Rattle.source_model.specs.Source.{Source};
ghost use Rattle.source_nodes.specs.Readers.{Reads};
ghost use Rattle.source_nodes.specs.Walk.{IsForest};

use ilasm_grammar::TreeNode;
use ilasm_grammar::productions::{BRACKETED_INT, BRACKETED_INT_OPT_SOME};
use source_flags::naturals::natural_32;
use source_nodes::reader::Reader;
use source_nodes::walk::{child, has, leaf_at, the};

/// The place of a field, where it is written, from what stands below the field's production.
pub fn field_offset(reader: &Reader, nodes: &[TreeNode]) -> Option<u32>
    requires { IsForest nodes.now }
    ensures { (s : Source) (f : Forest) → Reads reader.now s → preorder f ≡ nodes.now → IsInRange s FIELD f → result ≡ field_offset s f }
{
    let place = child(nodes, BRACKETED_INT_OPT_SOME);
    if has(place, BRACKETED_INT) {
        Some(natural_32(reader, leaf_at(the(place, BRACKETED_INT), 1)))
    } else {
        None
    }
}
