//! The generic parameters, parameters, overrides and attributes of a method (ECMA-335 II.10.3.2, II.15.4.1, II.21).

ghost use Rattle.std.specs.Prelude.{◌≡◌, ◌<◌, ◌^◌, ◌∷◌, [], IfOk, length, map};
ghost use Rattle.lower_bodies.specs.HeldItems.{IsHeld, line_forms};
ghost use Rattle.ilasm_grammar.specs.declared.productions.TheConstants.{OVERRIDDEN_METHOD, OVERRIDDEN_SPEC};
ghost use Rattle.lower_methods.specs.MethodParts.{AreRows};
ghost use Rattle.source_flags.specs.InRange.{AllInRange};
ghost use Rattle.source_model.specs.Forest.{Forest, parts, preorder};
ghost use Rattle.source_model.specs.Items.{items_and_ends, own_customs};
ghost use Rattle.source_model.specs.Manifests.{attributes};
ghost use Rattle.source_model.specs.Members.{overridden};
ghost use Rattle.source_model.specs.Nodes.{Around};
ghost use Rattle.source_model.specs.Source.{Source};
ghost use Rattle.source_nodes.specs.Pieces.{ArePieces, AreParts};
ghost use Rattle.source_syntax.specs.Places.{IsAt};
ghost use Rattle.source_nodes.specs.Walk.{IsForest};

use assembly_tree::{Attributes, Generics, Params};
use il_base::{Items, NoMemory};
use ilasm_grammar::TreeNode;
use lower_bodies::held::Held;
use lower_manifest::attributes::attributes;
use lower_manifest::overrides::overrides;
use lower_manifest::runs::own_customs;
use lower_members::generics::generics;
use lower_members::item_walks::items_and_ends;
use lower_members::params::{params, params_without_lines};
use source_nodes::pieces::Piece;
use source_syntax::place::Place;
use std::alloc::Global;
use type_terms::MethodRefs;

/// What belongs to a method beside its head and its body.
#[derive(Drop)]
pub struct Rows {
    pub generics: Generics,
    pub params: Params,
    pub overrides: MethodRefs,
    pub attributes: Attributes,
}

/// What belongs to the method that a place is in, from what stands below its production and what the method holds.
pub fn read_rows(
    alloc: Global,
    place: &Place,
    nodes: &[TreeNode],
    held: Held,
) -> Result<Rows, NoMemory>
    requires forest { IsForest nodes.now }
    requires few { length nodes.now < 2 ^ 32 }
    ensures { (s : Source) (a : Around) → IsAt place.now s a → (f : Forest) → a.method ≡ f → preorder f ≡ nodes.now → AllInRange s f → IsHeld held f →
        IfOk result (λ x. AreRows s a f x) }
{
    if held.lines {
        rows_with_lines(alloc, place, nodes, held)
    } else {
        rows_without_lines(alloc, place, nodes, held)
    }
}

// The same of a method that has lines of `.param` or attributes.
#[inline(never)]
fn rows_with_lines(
    alloc: Global,
    place: &Place,
    nodes: &[TreeNode],
    held: Held,
) -> Result<Rows, NoMemory>
    requires forest { IsForest nodes.now }
    requires few { length nodes.now < 2 ^ 32 }
    ensures { (s : Source) (a : Around) → IsAt place.now s a → (f : Forest) → a.method ≡ f → preorder f ≡ nodes.now → AllInRange s f → IsHeld held f →
        IfOk result (λ x. AreRows s a f x) }
{
    let found = items_and_ends(alloc, nodes)?;
    let generics = generics(alloc, place, place.method, nodes, found.as_slice())?;
    let params = params(alloc, place, nodes, found.as_slice())?;
    let overrides = overrides_of(alloc, place, nodes, held)?;
    let attributes = own_attributes(alloc, place, nodes, found.as_slice())?;
    Ok(Rows {
        generics,
        params,
        overrides,
        attributes,
    })
}

// The same of a method that has none.
fn rows_without_lines(
    alloc: Global,
    place: &Place,
    nodes: &[TreeNode],
    held: Held,
) -> Result<Rows, NoMemory>
    requires forest { IsForest nodes.now }
    requires few { length nodes.now < 2 ^ 32 }
    ensures { (s : Source) (a : Around) → IsAt place.now s a → (f : Forest) → a.method ≡ f → preorder f ≡ nodes.now → AllInRange s f → IsHeld held f →
        parts line_forms f ≡ [] → IfOk result (λ x. AreRows s a f x) }
{
    let generics = generics(alloc, place, place.method, nodes, &[])?;
    let params = params_without_lines(alloc, place, nodes)?;
    let overrides = overrides_of(alloc, place, nodes, held)?;
    Ok(Rows {
        generics,
        params,
        overrides,
        attributes: Items::new(alloc),
    })
}

// The methods that a method overrides, which are looked for only where it overrides some.
fn overrides_of(
    alloc: Global,
    place: &Place,
    nodes: &[TreeNode],
    held: Held,
) -> Result<MethodRefs, NoMemory>
    requires forest { IsForest nodes.now }
    requires few { length nodes.now < 2 ^ 32 }
    ensures { (s : Source) (a : Around) → IsAt place.now s a → (f : Forest) → preorder f ≡ nodes.now → AllInRange s f → IsHeld held f →
        IfOk result (λ all. all ≡ map (overridden s a f) (parts (OVERRIDDEN_METHOD ∷ OVERRIDDEN_SPEC ∷ []) f)) }
{
    if held.overrides {
        overrides(alloc, place, nodes)
    } else {
        Ok(Items::new(alloc))
    }
}

// The attributes of a method itself.
fn own_attributes(
    alloc: Global,
    place: &Place,
    nodes: &[TreeNode],
    found: &[Piece],
) -> Result<Attributes, NoMemory>
    requires parts { AreParts nodes.now found.now }
    requires few { length nodes.now < 2 ^ 32 }
    ensures { (s : Source) (a : Around) → IsAt place.now s a → (f : Forest) → AllInRange s f → ArePieces nodes.now found.now (items_and_ends f) →
        IfOk result (λ all. all ≡ attributes s a (own_customs (items_and_ends f))) }
{
    let own = own_customs(alloc, found)?;
    attributes(alloc, place, nodes, own.as_slice())
}
