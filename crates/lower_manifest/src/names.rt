//! The names of an assembly and of its module (ECMA-335 II.6.2, II.6.4).

ghost use Rattle.std.specs.Prelude.{◌≡◌, IfOk, true};
ghost use Rattle.ilasm_grammar.specs.declared.productions.TheConstants.{ASSEMBLY_ASSEMBLY_ATTR_STAR};
ghost use Rattle.source_model.specs.Forest.{has};
ghost use Rattle.source_model.specs.Items.{declarations};
ghost use Rattle.source_model.specs.Manifests.{assembly_name, module_name};
ghost use Rattle.source_model.specs.Source.{Source};
ghost use Rattle.source_nodes.specs.Pieces.{ArePieces, AreParts};
ghost use Rattle.source_nodes.specs.Readers.{Reads};
ghost use Rattle.source_nodes.specs.Walk.{IsForest};

use crate::chosen::pieces_among;
use il_base::{NoMemory, Text};
use ilasm_grammar::productions::{ASSEMBLY_ASSEMBLY_ATTR_STAR, DECL_MODULE};
use source_flags::gathering::Kind;
use source_flags::lines::last_of;
use source_nodes::derived::derivations_have_bodies;
use source_nodes::pieces::Piece;
use source_nodes::reader::Reader;
use source_nodes::walk::{leaf_at, the};
use std::alloc::Global;

/// The name of the assembly, which is declared.
pub fn assembly_name(alloc: Global, reader: &Reader) -> Result<Text, NoMemory>
    requires { IsForest reader.now.nodes.now }
    ensures { (s : Source) → Reads reader.now s → has ASSEMBLY_ASSEMBLY_ATTR_STAR s.tree ≡ true → IfOk result (λ name. name ≡ assembly_name s) }
{
    derivations_have_bodies();
    let declaration = the(reader.nodes, ASSEMBLY_ASSEMBLY_ATTR_STAR);
    reader.name_text(alloc, leaf_at(declaration, 0))
}

/// The name of the module: that of the assembly and `.dll` where none is said among all declarations.
pub fn module_name(
    alloc: Global,
    reader: &Reader,
    declared: &[Piece],
    assembly: &Text,
) -> Result<Text, NoMemory>
    requires { AreParts reader.now.nodes.now declared.now }
    ensures { (s : Source) → Reads reader.now s → ArePieces reader.now.nodes.now declared.now (declarations s.tree) → assembly.now ≡ assembly_name s →
        IfOk result (λ name. name ≡ module_name s) }
{
    derivations_have_bodies();
    let lines = pieces_among(alloc, declared, Kind::One(DECL_MODULE))?;
    match last_of(reader.nodes, lines.as_slice()) {
        Some(line) => reader.name_text(alloc, leaf_at(line.below, 1)),
        None => {
            let mut name = Text::new(alloc, assembly.as_str())?;
            name.push_str(".dll")?;
            Ok(name)
        }
    }
}
