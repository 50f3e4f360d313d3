//! The assemblies that a source names (ECMA-335 II.6.3, II.22.5).

ghost use Rattle.std.specs.Prelude.{◌≡◌, ◌++◌, ◌∷◌, [], IfOk, map};
ghost use Rattle.lower_manifest.specs.Externs.{IsIdentityOf, extern_at};
ghost use Rattle.source_flags.specs.InRange.{AllInRange, IsInRange};
ghost use Rattle.ilasm_grammar.specs.declared.productions.TheConstants.{ASSEMBLY_EXTERN};
ghost use Rattle.source_model.specs.Forest.{Forest, parts, preorder};
ghost use Rattle.source_model.specs.Items.{declarations};
ghost use Rattle.source_model.specs.Manifests.{culture, extern_assemblies, extern_assembly};
ghost use Rattle.source_model.specs.Source.{Source};
ghost use Rattle.source_nodes.specs.Pieces.{ArePieces, AreParts};
ghost use Rattle.source_nodes.specs.Readers.{Reads};
ghost use Rattle.source_nodes.specs.Walk.{IsForest};

use crate::chosen::pieces_among;
use crate::keys::{flags_with_key, hash, key, version};
use crate::texts::text_in;
use assembly_tree::{ExternAssembly, Externs};
use il_base::{Bytes, Items, NoMemory, Text};
use ilasm_grammar::TreeNode;
use ilasm_grammar::productions::{ASSEMBLY_EXTERN, DECL_ASSEMBLY, TEXT};
use source_flags::gathering::{Kind, parts_of};
use source_flags::lines::last_line;
use source_nodes::derived::derivations_have_bodies;
use source_nodes::pieces::{Piece, nodes_of};
use source_nodes::reader::Reader;
use source_nodes::walk::{leaf_at, the};
use std::alloc::Global;

/// The assemblies that a source names in order, from all declarations of the source.
pub fn extern_assemblies(
    alloc: Global,
    reader: &Reader,
    declared: &[Piece],
) -> Result<Externs, NoMemory>
    requires { AreParts reader.now.nodes.now declared.now }
    ensures { (s : Source) → Reads reader.now s → ArePieces reader.now.nodes.now declared.now (declarations s.tree) → AllInRange s s.tree →
        IfOk result (λ all. all ≡ extern_assemblies s) }
{
    derivations_have_bodies();
    let found = pieces_among(alloc, declared, Kind::One(DECL_ASSEMBLY))?;
    let mut all = Items::new(alloc);
    for piece in found.as_slice() {
        push_externs(&mut all, alloc, reader, nodes_of(reader.nodes, *piece))?;
    }
    Ok(all)
}

// Adds the assemblies that a declaration names.
fn push_externs(
    all: &mut Externs,
    alloc: Global,
    reader: &Reader,
    nodes: &[TreeNode],
) -> Result<(), NoMemory>
    requires { IsForest nodes.now }
    ensures { (s : Source) (f : Forest) → Reads reader.now s → preorder f ≡ nodes.now → AllInRange s f →
        IfOk result (λ _. all.new ≡ all.old ++ map (extern_at s) (parts (ASSEMBLY_EXTERN ∷ []) f)) }
{
    let found = parts_of(alloc, nodes, Kind::One(ASSEMBLY_EXTERN))?;
    for piece in found.as_slice() {
        let one = extern_assembly(alloc, reader, nodes_of(nodes, *piece))?;
        all.push(one)?;
    }
    Ok(())
}

// What identifies an assembly beside its name and version.
#[derive(Drop)]
struct Identity {
    flags: u32,
    key: Bytes,
    culture: Text,
    hash: Bytes,
}

// One of them, from what stands below its production.
fn extern_assembly(
    alloc: Global,
    reader: &Reader,
    nodes: &[TreeNode],
) -> Result<ExternAssembly, NoMemory>
    requires { IsForest nodes.now }
    ensures { (s : Source) (f : Forest) → Reads reader.now s → preorder f ≡ nodes.now → IsInRange s ASSEMBLY_EXTERN f → AllInRange s f →
        IfOk result (λ one. one ≡ extern_assembly s f) }
{
    let name = reader.name_text(alloc, leaf_at(nodes, 1))?;
    let version = version(alloc, reader, nodes)?;
    let Identity {
        flags,
        key,
        culture,
        hash,
    } = read_identity(alloc, reader, nodes)?;
    Ok(ExternAssembly {
        name,
        version,
        flags,
        key,
        culture,
        hash,
    })
}

fn read_identity(alloc: Global, reader: &Reader, nodes: &[TreeNode]) -> Result<Identity, NoMemory>
    requires { IsForest nodes.now }
    ensures { (s : Source) (f : Forest) → Reads reader.now s → preorder f ≡ nodes.now → AllInRange s f → IfOk result (λ i. IsIdentityOf s f i) }
{
    let flags = flags_with_key(alloc, reader, nodes)?;
    let key = key(alloc, reader, nodes)?;
    let culture = culture(alloc, reader, nodes)?;
    let hash = hash(alloc, reader, nodes)?;
    Ok(Identity {
        flags,
        key,
        culture,
        hash,
    })
}

/// The culture of an assembly; empty where none is said.
pub fn culture(alloc: Global, reader: &Reader, nodes: &[TreeNode]) -> Result<Text, NoMemory>
    requires { IsForest nodes.now }
    ensures { (s : Source) (f : Forest) → Reads reader.now s → preorder f ≡ nodes.now → AllInRange s f → IfOk result (λ said. said ≡ culture s f) }
{
    let said = last_line(alloc, nodes, Kind::Cultures)?;
    match said {
        Some(line) => text_in(alloc, reader, the(line.below, TEXT)),
        None => Text::new(alloc, ""),
    }
}
