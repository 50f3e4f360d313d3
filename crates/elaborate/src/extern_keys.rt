//! The keys by which a source names other assemblies (ECMA-335 II.6.3).

ghost use Rattle.std.specs.Prelude.{◌≡◌, ◌++◌, ◌∷◌, [], IfOk, map};
ghost use Rattle.ilasm_grammar.specs.declared.productions.TheConstants.{ASSEMBLY_EXTERN};
ghost use Rattle.source_model.specs.Forest.{Forest, parts, preorder};
ghost use Rattle.source_model.specs.Items.{declarations};
ghost use Rattle.source_model.specs.Names.{extern_key, externs, key_token};
ghost use Rattle.source_model.specs.Source.{Source};
ghost use Rattle.source_nodes.specs.Derived.{HasBodies};
ghost use Rattle.source_nodes.specs.Pieces.{ArePieces, AreParts};
ghost use Rattle.source_nodes.specs.Readers.{Reads};
ghost use Rattle.source_nodes.specs.Walk.{IsForest};

use il_base::{Items, NoMemory};
use ilasm_grammar::TreeNode;
use ilasm_grammar::productions::{ALIAS, ASSEMBLY_EXTERN, DECL_ASSEMBLY};
use lower_manifest::chosen::pieces_among;
use source_flags::gathering::{Kind, parts_of};
use source_nodes::derived::derivations_have_bodies;
use source_nodes::pieces::{Piece, nodes_of};
use source_nodes::reader::Reader;
use source_nodes::walk::{has, leaf_at, the};
use source_syntax::declared::Declared;
use source_syntax::name_lists::texts;
use std::alloc::Global;

/// The keys by which a source names other assemblies in order, from all declarations of the source.
pub fn extern_keys(alloc: Global, reader: &Reader, declared: &[Piece]) -> Result<Declared, NoMemory>
    requires { AreParts reader.now.nodes.now declared.now }
    ensures { (s : Source) → Reads reader.now s → ArePieces reader.now.nodes.now declared.now (declarations s.tree) → HasBodies s s.tree →
        IfOk result (λ keys. keys ≡ map (extern_key s) (externs s)) }
{
    derivations_have_bodies();
    let found = pieces_among(alloc, declared, Kind::One(DECL_ASSEMBLY))?;
    let mut tokens = Items::new(alloc);
    for piece in found.as_slice() {
        push_keys(&mut tokens, alloc, nodes_of(reader.nodes, *piece))?;
    }
    texts(alloc, reader, tokens.as_slice())
}

// Adds the tokens of the keys of the assemblies that a declaration names.
fn push_keys(tokens: &mut Items<u32>, alloc: Global, nodes: &[TreeNode]) -> Result<(), NoMemory>
    requires { IsForest nodes.now }
    ensures { (f : Forest) → preorder f ≡ nodes.now → IfOk result (λ _. tokens.new ≡ tokens.old ++ map (λ p. key_token p.below) (parts (ASSEMBLY_EXTERN ∷ []) f)) }
{
    let found = parts_of(alloc, nodes, Kind::One(ASSEMBLY_EXTERN))?;
    for piece in found.as_slice() {
        tokens.push(key_token(nodes_of(nodes, *piece)))?;
    }
    Ok(())
}

// The token of the key by which an assembly is named.
fn key_token(nodes: &[TreeNode]) -> u32
    requires { IsForest nodes.now }
    ensures { (f : Forest) → preorder f ≡ nodes.now → result ≡ key_token f }
{
    if has(nodes, ALIAS) {
        leaf_at(the(nodes, ALIAS), 1)
    } else {
        leaf_at(nodes, 1)
    }
}
