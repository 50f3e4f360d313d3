//! The data that fields are mapped to (ECMA-335 II.16.3).

ghost use Rattle.std.specs.Prelude.{◌≡◌, IfOk};
ghost use Rattle.lower_members.specs.LabelledData.{AreData};
ghost use Rattle.source_flags.specs.InRange.{AllInRange};
ghost use Rattle.source_model.specs.Data.{content, data_size};
ghost use Rattle.source_model.specs.Forest.{Forest, preorder};
ghost use Rattle.source_model.specs.Source.{Source};
ghost use Rattle.source_nodes.specs.Readers.{Reads};
ghost use Rattle.source_nodes.specs.Walk.{IsForest};
ghost use Rattle.type_terms.specs.declared.term.SigType.{SigType};

use crate::labelled_data::LabelledData;
use crate::runs::first_of;
use il_base::{Bytes, NoMemory};
use ilasm_grammar::TreeNode;
use ilasm_grammar::productions::AT_NAME;
use source_nodes::reader::Reader;
use source_nodes::walk::{has, leaf_at, the};
use std::alloc::Global;

/// The first bytes of the data that a field names, as many as a value of its type has, from what stands below its production.
pub fn content(
    alloc: Global,
    reader: &Reader,
    labelled: &LabelledData,
    size: Option<u32>,
    nodes: &[TreeNode],
) -> Result<Option<Bytes>, NoMemory>
    requires { IsForest nodes.now }
    ensures { (s : Source) (f : Forest) (of : SigType) → Reads reader.now s → AreData s labelled.now → preorder f ≡ nodes.now → AllInRange s f →
        size ≡ data_size s of → IfOk result (λ c. c ≡ content s of f) }
{
    if !has(nodes, AT_NAME) {
        return Ok(None);
    }
    let label = reader.name_text(alloc, leaf_at(the(nodes, AT_NAME), 1))?;
    let bytes = first_of(alloc, labelled.runs_named(label.as_bytes()), size)?;
    Ok(Some(bytes))
}
