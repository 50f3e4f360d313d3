//! The bodies of methods (ECMA-335 II.15.4.1, II.25.4).

ghost use Rattle.std.specs.Prelude.{◌≡◌, ◌==◌, ◌<◌, ◌^◌, ◌∷◌, [], IfOk, length};
ghost use Rattle.std.specs.List.{list_any};
ghost use Rattle.ilasm_grammar.specs.declared.productions.TheConstants.{INSTRUCTION_OP_VAR, LOCAL};
ghost use Rattle.source_model.specs.Bodies.{body};
ghost use Rattle.source_model.specs.BodyNumbers.{body_numbers_out_of_range_in};
ghost use Rattle.source_model.specs.Forest.{Forest, parts, preorder};
ghost use Rattle.source_model.specs.Instructions.{instructions_of, labels};
ghost use Rattle.source_model.specs.Nodes.{Around, Node};
ghost use Rattle.source_model.specs.Source.{Source};
ghost use Rattle.source_flags.specs.InRange.{AllInRange};
ghost use Rattle.source_syntax.specs.Methods.{IsMethod};
ghost use Rattle.source_nodes.specs.Pieces.{ArePieces, AreParts};
ghost use Rattle.source_syntax.specs.Places.{IsAt};
ghost use Rattle.source_nodes.specs.Walk.{IsForest};
ghost use Rattle.lower_bodies.specs.BodyLines.{AreLines};
ghost use Rattle.lower_bodies.specs.BodyPlaces.{IsWithin};
ghost use Rattle.lower_bodies.specs.CodePlaces.{HaveNames, IsCode};
ghost use Rattle.lower_bodies.specs.HeldItems.{IsHeld};
ghost use Rattle.lower_bodies.specs.MethodsInRange.{IsMethodInRange};
ghost use Rattle.lower_bodies.specs.WholeBodies.{IsBodyOf};

use crate::body_lines::Lines;
use crate::body_places::BodyPlace;
use crate::code_places::{Code, Names};
use crate::held::Held;
use crate::held_parts::{bound_of, clauses_of, locals_in};
use crate::instructions::code;
use crate::label_slots::{SLOTS, give_slots};
use crate::locals::local_types;
use crate::variables::Variables;
use assembly_tree::Body;
use il_base::NoMemory;
use ilasm_grammar::TreeNode;
use ilasm_grammar::productions::INSTRUCTION_OP_VAR;
use source_nodes::pieces::Piece;
use source_nodes::reader::Reader;
use source_syntax::labels::names_at;
use source_syntax::place::Place;
use std::alloc::Global;

/// How long, in bytes, each of two labels may be that are compared one by one.
const SHORT: usize = 64;

/// The body of a method, from the nodes below its production and what was found in them; a method whose braces hold no instruction
/// has none.
pub fn body(
    alloc: Global,
    place: &Place,
    nodes: &[TreeNode],
    lines: &Lines,
) -> Result<Option<Body>, NoMemory>
    requires forest { IsForest nodes.now }
    requires parts { AreParts nodes.now lines.now.instructions }
    requires few { length nodes.now < 2 ^ 32 }
    ensures { (s : Source) (a : Around) (n : Node) → IsAt place.now s a → IsMethod s n → preorder n.below ≡ nodes.now → AllInRange s n.below →
        body_numbers_out_of_range_in s n ≡ [] → AreLines nodes.now n.below lines.now → IfOk result (λ b. b ≡ body s a n.below) }
{
    if lines.instructions.is_empty() {
        return Ok(None);
    }
    let found = lines.instructions.as_slice();
    let one = body_with(
        alloc,
        place,
        nodes,
        found,
        lines.labels.as_slice(),
        lines.held,
    )?;
    Ok(Some(one))
}

// The body of a method that has these instructions, and labels with these names: compared one by one, or found by their slots
// where they are few, or by a table.
fn body_with(
    alloc: Global,
    place: &Place,
    nodes: &[TreeNode],
    found: &[Piece],
    named: &[u32],
    held: Held,
) -> Result<Body, NoMemory>
    requires forest { IsForest nodes.now }
    requires parts { AreParts nodes.now found.now }
    requires few { length nodes.now < 2 ^ 32 }
    ensures { (s : Source) (a : Around) (f : Forest) → IsAt place.now s a → preorder f ≡ nodes.now → IsMethodInRange s f →
        ArePieces nodes.now found.now (instructions_of f) → named.now ≡ labels f → IsHeld held f → IfOk result (λ b. IsBodyOf s a f b) }
{
    if are_compared(&place.reader, named) {
        return body_named(alloc, place, nodes, found, named, &Names::Each, held);
    }
    let mut slots = [0; SLOTS];
    if give_slots(&place.reader, named, &mut slots) {
        let names = Names::Slots(&slots);
        return body_named(alloc, place, nodes, found, named, &names, held);
    }
    body_of_many_labels(alloc, place, nodes, found, named, held)
}

// Whether what a branch names is compared with each of these labels: with one, which it is then, or with two that are short, so
// that a long one isn't read again for each branch to the other.
fn are_compared(reader: &Reader, named: &[u32]) -> bool {
    match named {
        [one, other] => is_short(reader, *one) && is_short(reader, *other),
        _ => named.len() < 2,
    }
}

fn is_short(reader: &Reader, label: u32) -> bool {
    reader.spelling(label).len() <= SHORT
}

// The same of a method with labels that are found by their names.
#[inline(never)]
fn body_of_many_labels(
    alloc: Global,
    place: &Place,
    nodes: &[TreeNode],
    found: &[Piece],
    named: &[u32],
    held: Held,
) -> Result<Body, NoMemory>
    requires forest { IsForest nodes.now }
    requires parts { AreParts nodes.now found.now }
    requires few { length nodes.now < 2 ^ 32 }
    ensures { (s : Source) (a : Around) (f : Forest) → IsAt place.now s a → preorder f ≡ nodes.now → IsMethodInRange s f →
        ArePieces nodes.now found.now (instructions_of f) → named.now ≡ labels f → IsHeld held f → IfOk result (λ b. IsBodyOf s a f b) }
{
    let names = names_at(alloc, &place.reader, named)?;
    body_named(alloc, place, nodes, found, named, &Names::All(&names), held)
}

// The same where it is known how a label is found.
fn body_named(
    alloc: Global,
    place: &Place,
    nodes: &[TreeNode],
    found: &[Piece],
    named: &[u32],
    names: &Names,
    held: Held,
) -> Result<Body, NoMemory>
    requires forest { IsForest nodes.now }
    requires parts { AreParts nodes.now found.now }
    requires few { length nodes.now < 2 ^ 32 }
    ensures { (s : Source) (a : Around) (f : Forest) → IsAt place.now s a → preorder f ≡ nodes.now → IsMethodInRange s f →
        ArePieces nodes.now found.now (instructions_of f) → named.now ≡ labels f → HaveNames names.now s named.now →
        IsHeld held f → IfOk result (λ b. IsBodyOf s a f b) }
{
    let locals = locals_in(alloc, nodes, held)?;
    let code = Code {
        reader: place.reader,
        nodes,
        instructions: found,
        labels: named,
        names: *names,
    };
    if takes_variables(found) {
        return body_with_variables(alloc, place, &code, nodes, found, locals.as_slice(), held);
    }
    let at = BodyPlace {
        place: *place,
        code,
        variables: None,
    };
    body_at(alloc, &at, nodes, found, locals.as_slice(), held)
}

// The same of a method of which an instruction takes an argument or a local. Those that have names are looked for only there.
#[inline(never)]
fn body_with_variables(
    alloc: Global,
    place: &Place,
    code: &Code,
    nodes: &[TreeNode],
    found: &[Piece],
    locals: &[Piece],
    held: Held,
) -> Result<Body, NoMemory>
    requires forest { IsForest nodes.now }
    requires parts { AreParts nodes.now found.now }
    requires locals { AreParts nodes.now locals.now }
    requires few { length nodes.now < 2 ^ 32 }
    ensures { (s : Source) (a : Around) (f : Forest) → IsAt place.now s a → IsCode code.now s f → preorder f ≡ nodes.now → IsMethodInRange s f →
        ArePieces nodes.now found.now (instructions_of f) → ArePieces nodes.now locals.now (parts (LOCAL ∷ []) f) →
        IsHeld held f → IfOk result (λ b. IsBodyOf s a f b) }
{
    let variables = Variables::read(alloc, &place.reader, nodes, locals)?;
    let at = BodyPlace {
        place: *place,
        code: *code,
        variables: Some(&variables),
    };
    body_at(alloc, &at, nodes, found, locals, held)
}

// Whether one of these instructions takes an argument or a local.
fn takes_variables(found: &[Piece]) -> bool
    ensures { result ≡ list_any (λ x. x.production == INSTRUCTION_OP_VAR) found.now }
{
    found.iter().any(|x| x.production == INSTRUCTION_OP_VAR)
}

// The body of the method that a place is within.
#[inline(never)]
fn body_at(
    alloc: Global,
    at: &BodyPlace,
    nodes: &[TreeNode],
    found: &[Piece],
    locals: &[Piece],
    held: Held,
) -> Result<Body, NoMemory>
    requires forest { IsForest nodes.now }
    requires parts { AreParts nodes.now found.now }
    requires locals { AreParts nodes.now locals.now }
    requires few { length nodes.now < 2 ^ 32 }
    ensures { (s : Source) (a : Around) (f : Forest) → IsWithin at.now s a f → preorder f ≡ nodes.now → IsMethodInRange s f →
        ArePieces nodes.now found.now (instructions_of f) → ArePieces nodes.now locals.now (parts (LOCAL ∷ []) f) →
        IsHeld held f → IfOk result (λ b. IsBodyOf s a f b) }
{
    let bound = bound_of(alloc, &at.place.reader, nodes, held)?;
    let locals = local_types(alloc, &at.place, nodes, locals)?;
    let code = code(alloc, at, nodes, found)?;
    let clauses = clauses_of(alloc, at, nodes, held)?;
    Ok(Body {
        bound,
        init: held.init,
        locals,
        code,
        clauses,
    })
}
