//! What a class says before its members: its name, flags, base and interfaces, with its layout (ECMA-335 II.10.1, II.10.7).

ghost use Rattle.std.specs.Prelude.{◌≡◌, ◌∷◌, [], IfOk};
ghost use Rattle.elaborate.specs.Bases.{is_outside};
ghost use Rattle.elaborate.specs.ClassParts.{inner, IsHead};
ghost use Rattle.ilasm_grammar.specs.declared.productions.TheConstants.{CLASS, IMPLEMENTS_OPT_SOME};
ghost use Rattle.source_flags.specs.InRange.{AllInRange, IsInRange};
ghost use Rattle.source_model.specs.Classes.{core_scope, is_interface, rising};
ghost use Rattle.source_model.specs.Flags.{type_flags};
ghost use Rattle.source_model.specs.Forest.{Forest, child, preorder};
ghost use Rattle.source_model.specs.Items.{members};
ghost use Rattle.source_model.specs.Nodes.{Around};
ghost use Rattle.source_model.specs.Source.{Source};
ghost use Rattle.source_model.specs.Types.{owners_in};
ghost use Rattle.source_nodes.specs.Pieces.{ArePieces, AreParts};
ghost use Rattle.source_syntax.specs.Places.{IsAt};
ghost use Rattle.source_nodes.specs.Walk.{IsForest};

use crate::bases::{base, is_root};
use assembly_tree::Layout;
use il_base::{Items, NoMemory};
use ilasm_grammar::TreeNode;
use ilasm_grammar::productions::IMPLEMENTS_OPT_SOME;
use lower_members::layouts::layout;
use sorted_owners::rising;
use source_flags::declared_flags::type_flags;
use source_nodes::pieces::Piece;
use source_nodes::walk::{child, leaf_at};
use source_syntax::place::Place;
use std::alloc::Global;
use type_terms::{Owner, Owners, Scope, TypeId};

/// What a class says before its members.
#[derive(Drop)]
pub struct Head {
    pub id: TypeId,
    pub flags: u32,
    pub layout: Option<Layout>,
    pub extends: Option<Owner>,
    pub implements: Owners,
}

/// The head of a class, which stands outside of all classes or in some, from what stands below its production and its members.
pub fn read_head(
    alloc: Global,
    place: &Place,
    outside: bool,
    core: Option<Scope>,
    nodes: &[TreeNode],
    found: &[Piece],
) -> Result<Head, NoMemory>
    requires forest { IsForest nodes.now }
    requires parts { AreParts nodes.now found.now }
    ensures { (s : Source) (a : Around) (f : Forest) → IsAt place.now s (inner s a f) → outside ≡ is_outside a.path → core ≡ core_scope s → preorder f ≡ nodes.now →
        ArePieces nodes.now found.now (members f) → IsInRange s CLASS f → AllInRange s f → IfOk result (λ x. IsHead s (inner s a f) f x) }
{
    let reader = &place.reader;
    let id = reader.type_id(alloc, leaf_at(nodes, 1))?;
    let root = is_root(outside, &id);
    let flags = type_flags(reader, nodes);
    let extends = base(alloc, place, nodes, core, root, is_interface(flags))?;
    let implements = interfaces(alloc, place, nodes)?;
    Ok(Head {
        id,
        flags,
        layout: layout(reader, nodes, found),
        extends,
        implements,
    })
}

// Whether a class with these flags is an interface.
fn is_interface(flags: u32) -> bool
    ensures { (s : Source) (f : Forest) → flags ≡ type_flags s f → result ≡ is_interface s f }
{
    flags & 0x20 != 0
}

// The interfaces of a class, in their order.
fn interfaces(alloc: Global, place: &Place, nodes: &[TreeNode]) -> Result<Owners, NoMemory>
    requires { IsForest nodes.now }
    ensures { (s : Source) (a : Around) → IsAt place.now s a → (f : Forest) → preorder f ≡ nodes.now → AllInRange s f →
        IfOk result (λ owners. owners ≡ rising (owners_in s a (child (IMPLEMENTS_OPT_SOME ∷ []) f))) }
{
    let written = child(nodes, IMPLEMENTS_OPT_SOME);
    if written.is_empty() {
        return Ok(Items::new(alloc));
    }
    let owners = place.owners_in(alloc, written)?;
    rising(alloc, owners)
}
