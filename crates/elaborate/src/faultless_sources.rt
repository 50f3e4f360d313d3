//! The assembly that a source denotes which breaks no rule.

ghost use Rattle.std.specs.Prelude.{◌≡◌, ◌<◌, ◌^◌, IfOk, length, true};
ghost use Rattle.elaborate.specs.SourceMembers.{ReadsSome};
ghost use Rattle.elaborate.specs.Standing.{HaveNeither, stands_outside};
ghost use Rattle.elaborate.specs.WholeParts.{AllWhole};
ghost use Rattle.ilasm_grammar.specs.declared.productions.TheConstants.{ASSEMBLY_ASSEMBLY_ATTR_STAR, DATA, MEMBER_SIZE};
ghost use Rattle.lower_members.specs.LabelledData.{AreData};
ghost use Rattle.source_flags.specs.InRange.{AllInRange};
ghost use Rattle.source_model.specs.Classes.{assembly};
ghost use Rattle.source_model.specs.Forest.{has};
ghost use Rattle.source_model.specs.Source.{Source};
ghost use Rattle.source_nodes.specs.Readers.{Reads};
ghost use Rattle.source_nodes.specs.Walk.{IsForest};

use crate::assemblies::read_assembly;
use crate::known_sizes::read_sizes;
use crate::source_members::SourceMembers;
use crate::standing::standing_of;
use assembly_tree::Assembly;
use il_base::NoMemory;
use ilasm_grammar::productions::{DATA, MEMBER_SIZE};
use lower_members::labelled_data::{LabelledData, collect_data, no_data};
use source_nodes::reader::Reader;
use std::alloc::Global;

/// The assembly that a source denotes, whose productions are whole and which has the declaration of an assembly; `plain` where it
/// is known to have neither data nor sizes of classes.
pub fn read_faultless(alloc: Global, reader: &Reader, plain: bool) -> Result<Assembly, NoMemory>
    requires reads { ReadsSome reader.now }
    requires few_nodes { length reader.now.nodes.now < 2 ^ 32 }
    requires plain { plain ≡ true → HaveNeither DATA MEMBER_SIZE reader.now.nodes.now }
    ensures { (s : Source) → Reads reader.now s → AllWhole s s.tree → has ASSEMBLY_ASSEMBLY_ATTR_STAR s.tree ≡ true → IfOk result (λ a. a ≡ assembly s) }
{
    let stated = standing_of(reader.nodes, DATA, MEMBER_SIZE, plain);
    let labelled = read_data(alloc, reader, stated.first)?;
    let sizes = read_sizes(alloc, reader, stated.second)?;
    let members = SourceMembers {
        reader: *reader,
        labelled: &labelled,
        sizes: &sizes,
    };
    read_assembly(&members, alloc, reader)
}

// The data of a source that has a label, from whether the source has data.
fn read_data(alloc: Global, reader: &Reader, some: bool) -> Result<LabelledData, NoMemory>
    requires { IsForest reader.now.nodes.now }
    ensures { (s : Source) → Reads reader.now s → AllInRange s s.tree → some ≡ stands_outside DATA s.tree → IfOk result (λ d. AreData s d) }
{
    if some {
        let labelled = collect_data(alloc, reader)?;
        Ok(labelled)
    } else {
        Ok(no_data(alloc))
    }
}
