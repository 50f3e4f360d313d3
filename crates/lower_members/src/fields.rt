//! Fields (ECMA-335 II.16, II.22.15).

ghost use Rattle.std.specs.Prelude.{◌≡◌, ◌<◌, ◌^◌, ◌∷◌, ◌++◌, [], IfOk, List, if◌then◌else◌, length, true};
ghost use Rattle.std.specs.List.{AllByRecursion};
ghost use Rattle.ilasm_grammar.specs.declared.productions.TheConstants.{FIELD};
ghost use Rattle.lower_members.specs.FieldContexts.{IsContext, is_field, run_at};
ghost use Rattle.param_lines.specs.Ranged.{IsRanged};
ghost use Rattle.source_flags.specs.InRange.{AllInRange, IsInRange};
ghost use Rattle.source_model.specs.Forest.{Forest, Part, preorder};
ghost use Rattle.source_model.specs.Manifests.{attributes};
ghost use Rattle.source_model.specs.Members.{field, field_from, fields};
ghost use Rattle.source_model.specs.Nodes.{Around};
ghost use Rattle.source_model.specs.Source.{Source};
ghost use Rattle.source_nodes.specs.Pieces.{ArePieces, AreParts, nodes_of, piece_of, written};
ghost use Rattle.source_nodes.specs.Walk.{IsForest};

use crate::class_sizes::ClassSizes;
use crate::constants::constant_of;
use crate::contents::content;
use crate::labelled_data::LabelledData;
use crate::next_pieces::next;
use crate::type_sizes::data_size;
use assembly_tree::{Attributes, Field, Fields};
use il_base::{Items, NoMemory};
use ilasm_grammar::TreeNode;
use ilasm_grammar::productions::{DECL_FIELD, FIELD, MEMBER_FIELD};
use lower_manifest::attributes::attributes;
use lower_manifest::field_places::field_offset;
use lower_manifest::runs::run_of;
use source_flags::declared_flags::field_flags;
use source_nodes::pieces::{Piece, nodes_of};
use source_nodes::walk::{leaf_at, the};
use source_syntax::place::Place;
use std::alloc::Global;

/// A place where fields stand, with the data and the class sizes of the source.
#[derive(Clone, Copy)]
pub struct FieldContext<'a> {
    pub place: Place<'a>,
    pub labelled: &'a LabelledData,
    pub sizes: &'a ClassSizes,
}

/// The fields among these members or declarations, in order, with the attributes that directly follow each.
pub fn fields(
    alloc: Global,
    context: &FieldContext,
    nodes: &[TreeNode],
    found: &[Piece],
) -> Result<Fields, NoMemory>
    requires parts { AreParts nodes.now found.now }
    requires few { length nodes.now < 2 ^ 32 }
    ensures { (s : Source) (a : Around) → IsContext context.now s a → (ps : List Part) → ArePieces nodes.now found.now ps → AllByRecursion (IsRanged s) ps →
        IfOk result (λ all. all ≡ fields s a ps) }
{
    let mut all = Items::new(alloc);
    let mut rest = found;
    while let Some((head, more)) = next(rest) {
        push_field(&mut all, alloc, context, nodes, head, more)?;
        rest = more;
    }
    Ok(all)
}

// Adds a member or a declaration, where it is a field.
fn push_field(
    all: &mut Fields,
    alloc: Global,
    context: &FieldContext,
    nodes: &[TreeNode],
    head: Piece,
    more: &[Piece],
) -> Result<(), NoMemory>
    requires head { IsForest (nodes_of nodes.now head) }
    requires parts { AreParts nodes.now more.now }
    requires few { length nodes.now < 2 ^ 32 }
    ensures { (s : Source) (a : Around) → IsContext context.now s a → (p : Part) (ps : List Part) → piece_of nodes.now head ≡ written p → ArePieces nodes.now more.now ps →
        IsRanged s p → AllByRecursion (IsRanged s) ps → IfOk result (λ _. all.new ≡ all.old ++ (if is_field p.production then field s a (run_at p ps) ∷ [] else [])) }
{
    if is_field(head.production) {
        let one = field(alloc, context, nodes, head, more)?;
        all.push(one)
    } else {
        Ok(())
    }
}

// Whether a member or a declaration is a field.
fn is_field(production: u16) -> bool
    ensures { result ≡ is_field production }
{
    production == DECL_FIELD || production == MEMBER_FIELD
}

// A field with the attributes that begin what follows it.
fn field(
    alloc: Global,
    context: &FieldContext,
    nodes: &[TreeNode],
    head: Piece,
    more: &[Piece],
) -> Result<Field, NoMemory>
    requires head { IsForest (nodes_of nodes.now head) }
    requires parts { AreParts nodes.now more.now }
    requires few { length nodes.now < 2 ^ 32 }
    ensures { (s : Source) (a : Around) → IsContext context.now s a → (p : Part) (ps : List Part) → piece_of nodes.now head ≡ written p → ArePieces nodes.now more.now ps →
        is_field p.production ≡ true → IsRanged s p → AllByRecursion (IsRanged s) ps → IfOk result (λ x. x ≡ field s a (run_at p ps)) }
{
    let customs = attributes(alloc, &context.place, nodes, run_of(more))?;
    field_from(alloc, context, the(nodes_of(nodes, head), FIELD), customs)
}

// A field, from what stands below its production and its attributes.
fn field_from(
    alloc: Global,
    context: &FieldContext,
    below: &[TreeNode],
    customs: Attributes,
) -> Result<Field, NoMemory>
    requires { IsForest below.now }
    ensures { (s : Source) (a : Around) → IsContext context.now s a → (f : Forest) (ps : List Part) → preorder f ≡ below.now → IsInRange s FIELD f → AllInRange s f →
        customs ≡ attributes s a ps → IfOk result (λ x. x ≡ field_from s a f ps) }
{
    let reader = &context.place.reader;
    let name = reader.name_text(alloc, leaf_at(below, 1))?;
    let of = context.place.top_type(alloc, below)?;
    let constant = constant_of(alloc, reader, below)?;
    let size = data_size(context.sizes, &of);
    let content = content(alloc, reader, context.labelled, size, below)?;
    Ok(Field {
        name,
        flags: field_flags(reader, below),
        of,
        constant,
        offset: field_offset(reader, below),
        content,
        attributes: customs,
    })
}
