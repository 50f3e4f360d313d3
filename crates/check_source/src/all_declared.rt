//! What a source declares that several rules ask for, collected once.

ghost use Rattle.std.specs.Prelude.{IfOk};
ghost use Rattle.source_model.specs.Source.{Source};
ghost use Rattle.source_nodes.specs.Readers.{Reads};
ghost use Rattle.source_nodes.specs.Walk.{IsForest};
ghost use Rattle.check_source.specs.AllDeclared.{AreDeclarations};
ghost use Rattle.check_source.specs.Census.{IsCensusOf};

use crate::census::Census;
use crate::declared_names::collect_some;
use check_names::class_rules::{Classes, collect_classes};
use il_base::NoMemory;
use ilasm_grammar::productions::{ASSEMBLY_ASSEMBLY_ATTR_STAR, ASSEMBLY_EXTERN, DATA};
use source_nodes::reader::Reader;
use source_syntax::name_lists::{Named, Naming};
use std::alloc::Global;

/// The declarations of a source, by their names.
#[derive(Drop)]
pub struct Declarations {
    /// Data, by its labels.
    pub labels: Named,
    /// Other assemblies, by their aliases, or else by their names.
    pub externs: Named,
    /// This assembly, as often as it is declared.
    pub own: Named,
    /// Classes, by their paths.
    pub classes: Classes,
    /// How many nodes each production has.
    pub census: Census,
}

/// All that a source declares, whose nodes have this census.
pub fn collect_declarations(
    alloc: Global,
    reader: &Reader,
    census: Census,
) -> Result<Declarations, NoMemory>
    requires forest { IsForest reader.now.nodes.now }
    requires counted { IsCensusOf reader.now.nodes.now census }
    ensures { (s : Source) → Reads reader.now s → IfOk result (AreDeclarations s) }
{
    let data = census.count(DATA);
    let others = census.count(ASSEMBLY_EXTERN);
    let owns = census.count(ASSEMBLY_ASSEMBLY_ATTR_STAR);
    let labels = collect_some(alloc, reader, Naming::Label, DATA, data)?;
    let externs = collect_some(alloc, reader, Naming::Assembly, ASSEMBLY_EXTERN, others)?;
    let own = collect_some(
        alloc,
        reader,
        Naming::Own,
        ASSEMBLY_ASSEMBLY_ATTR_STAR,
        owns,
    )?;
    let classes = collect_classes(alloc, reader)?;
    Ok(Declarations {
        labels,
        externs,
        own,
        classes,
        census,
    })
}
