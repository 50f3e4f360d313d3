//! The arguments and the locals of a method by their names (ECMA-335 II.15.3, II.15.4.1.3, III.3.38, III.3.43).

ghost use Rattle.std.specs.Prelude.{◌≡◌, ℕ, ◌+◌, ◌++◌, ◌∷◌, [], List, IfOk, OnOk};
ghost use Rattle.std.specs.List.{enumerate_from, flat_map};
ghost use Rattle.il_lexer.specs.declared.types.TokenKind.TheVariants.{Name};
ghost use Rattle.ilasm_grammar.specs.declared.productions.TheConstants.{LOCAL};
ghost use Rattle.source_model.specs.Forest.{Forest, Part, below_each, parts, preorder};
ghost use Rattle.source_model.specs.Nodes.{Node};
ghost use Rattle.source_model.specs.Parameters.{parameters};
ghost use Rattle.source_model.specs.Source.{Source};
ghost use Rattle.source_model.specs.Variables.{first_argument, is_of_arguments, variable_named};
ghost use Rattle.source_syntax.specs.Labels.{number_found};
ghost use Rattle.source_syntax.specs.Methods.{AreNames, IsMethod};
ghost use Rattle.source_nodes.specs.Pieces.{ArePieces, AreParts};
ghost use Rattle.source_nodes.specs.Readers.{IsOf, Reads};
ghost use Rattle.source_nodes.specs.Walk.{IsForest};
ghost use Rattle.lower_bodies.specs.NamedVariables.{name_of, names_of, number_if_named, numbers_from, AreNumbered, AreVariables};

use il_base::{Items, NoMemory};
use ilasm_grammar::TreeNode;
use ilasm_grammar::productions::{
    CALL_CONV, DEF_ARG, DEF_ARGS_OPT_SOME, EXPLICIT_OPT_SOME, INSTANCE, NAME_OPT_SOME,
};
use opcode_table::Op;
use source_nodes::pieces::{Piece, Sought, nodes_of, pieces_of};
use source_nodes::reader::Reader;
use source_nodes::walk::{child, has, leaf_at};
use source_syntax::declared::Declared;
use source_syntax::labels::names_at;
use std::alloc::Global;

/// The arguments and the locals of a method that have names.
#[derive(Drop)]
pub struct Variables {
    pub arguments: Numbered,
    pub locals: Numbered,
}

/// Names, each with the number of the argument or the local that has it.
#[derive(Drop)]
pub struct Numbered {
    pub names: Declared,
    pub numbers: Items<usize>,
}

impl Variables {
    /// Those of a method, from the nodes below its production and the productions of its locals.
    pub fn read(
        alloc: Global,
        reader: &Reader,
        method: &[TreeNode],
        locals: &[Piece],
    ) -> Result<Variables, NoMemory>
        requires forest { IsForest method.now }
        requires parts { AreParts method.now locals.now }
        ensures { (s : Source) (n : Node) → Reads reader.now s → IsMethod s n → preorder n.below ≡ method.now → ArePieces method.now locals.now (parts (LOCAL ∷ []) n.below) →
            IfOk result (λ x. AreVariables x s n.below) }
    {
        let arguments = named_arguments(alloc, reader, method)?;
        let locals = named_parts(alloc, reader, method, locals, 0)?;
        Ok(Variables { arguments, locals })
    }

    /// The number of the first argument, or for another opcode of the first local, that has this name.
    pub fn number_of(
        &self,
        alloc: Global,
        reader: &Reader,
        op: Op,
        token: u32,
    ) -> Result<Option<usize>, NoMemory>
        ensures { (s : Source) (f : Forest) → Reads reader.now s → AreVariables self.now s f → IsOf s Name token → IfOk result (λ n. n ≡ variable_named s f op token) }
    {
        let name = reader.name_text(alloc, token)?;
        if is_of_arguments(op) {
            Ok(number_named(&self.arguments, name.as_bytes()))
        } else {
            Ok(number_named(&self.locals, name.as_bytes()))
        }
    }
}

// The arguments of a method that have names, which are looked for only where a parameter has one.
fn named_arguments(
    alloc: Global,
    reader: &Reader,
    method: &[TreeNode],
) -> Result<Numbered, NoMemory>
    requires { IsForest method.now }
    ensures { (s : Source) (n : Node) → Reads reader.now s → IsMethod s n → preorder n.below ≡ method.now →
        IfOk result (λ x. AreNumbered x s (first_argument n.below) (parameters n.below)) }
{
    let below = child(method, DEF_ARGS_OPT_SOME);
    if !has(below, NAME_OPT_SOME) {
        return Ok(no_names(alloc));
    }
    let found = pieces_of(alloc, below, Sought::One(DEF_ARG))?;
    named_parts(
        alloc,
        reader,
        below,
        found.as_slice(),
        first_argument(method),
    )
}

// Of no parameters or locals with names.
fn no_names(alloc: Global) -> Numbered
    ensures { (s : Source) (first : ℕ) (fs : List Forest) → names_of fs ≡ [] → numbers_from first 0 fs ≡ [] → AreNumbered result s first fs }
{
    let numbers = Items::new(alloc);
    Numbered {
        names: Declared::new(alloc),
        numbers,
    }
}

// The number of the first that has this name.
fn number_named(named: &Numbered, name: &[u8]) -> Option<usize>
    ensures { result ≡ number_found named.now.names named.now.numbers name.now }
{
    match named.names.find(name) {
        Some(k) => named.numbers.get(k).copied(),
        None => None,
    }
}

// Whether an opcode is one of arguments.
fn is_of_arguments(op: Op) -> bool
    ensures { result ≡ is_of_arguments op }
{
    matches!(
        op,
        Op::LdargS | Op::LdargaS | Op::StargS | Op::Ldarg | Op::Ldarga | Op::Starg
    )
}

// The number of the argument that the first parameter of a method is.
fn first_argument(method: &[TreeNode]) -> u8
    requires { IsForest method.now }
    ensures { (f : Forest) → preorder f ≡ method.now → result ≡ first_argument f }
{
    let convention = child(method, CALL_CONV);
    if has(convention, INSTANCE) && !has(convention, EXPLICIT_OPT_SOME) {
        1
    } else {
        0
    }
}

// Those of some parts that have names, where the first part has this number.
fn named_parts(
    alloc: Global,
    reader: &Reader,
    nodes: &[TreeNode],
    found: &[Piece],
    first: u8,
) -> Result<Numbered, NoMemory>
    requires { AreParts nodes.now found.now }
    ensures { (s : Source) (ps : List Part) → Reads reader.now s → AreNames s (names_of (below_each ps)) → ArePieces nodes.now found.now ps →
        IfOk result (λ x. AreNumbered x s first (below_each ps)) }
{
    if found.is_empty() {
        return Ok(no_names(alloc));
    }
    let tokens = name_tokens(alloc, nodes, found)?;
    let names = names_at(alloc, reader, tokens.as_slice())?;
    let numbers = name_numbers(alloc, nodes, found, first)?;
    Ok(Numbered { names, numbers })
}

// The tokens of the names of those that have one.
fn name_tokens(alloc: Global, nodes: &[TreeNode], found: &[Piece]) -> Result<Items<u32>, NoMemory>
    requires { AreParts nodes.now found.now }
    ensures { (ps : List Part) → ArePieces nodes.now found.now ps → IfOk result (λ tokens. tokens ≡ flat_map (λ p. name_of p.below) ps) }
{
    let mut tokens = Items::new(alloc);
    for piece in found {
        let below = nodes_of(nodes, *piece);
        push_name(&mut tokens, below)?;
    }
    Ok(tokens)
}

fn push_name(tokens: &mut Items<u32>, below: &[TreeNode]) -> Result<(), NoMemory>
    requires { IsForest below.now }
    ensures { (f : Forest) → preorder f ≡ below.now → OnOk result (tokens.new ≡ tokens.old ++ name_of f) }
{
    if has(below, NAME_OPT_SOME) {
        tokens.push(leaf_at(child(below, NAME_OPT_SOME), 0))
    } else {
        Ok(())
    }
}

// The numbers of those that have names.
fn name_numbers(
    alloc: Global,
    nodes: &[TreeNode],
    found: &[Piece],
    first: u8,
) -> Result<Items<usize>, NoMemory>
    requires { AreParts nodes.now found.now }
    ensures { (ps : List Part) → ArePieces nodes.now found.now ps → IfOk result (λ numbers. numbers ≡ flat_map (λ k. number_if_named (first + k.0) k.1.below) (enumerate_from 0 ps)) }
{
    let mut numbers = Items::new(alloc);
    for k in 0..found.len() {
        let below = nodes_of(nodes, found[k]);
        push_number(&mut numbers, usize::from(first) + k, below)?;
    }
    Ok(numbers)
}

fn push_number(
    numbers: &mut Items<usize>,
    number: usize,
    below: &[TreeNode],
) -> Result<(), NoMemory>
    requires { IsForest below.now }
    ensures { (f : Forest) → preorder f ≡ below.now → OnOk result (numbers.new ≡ numbers.old ++ number_if_named number f) }
{
    if has(below, NAME_OPT_SOME) {
        numbers.push(number)
    } else {
        Ok(())
    }
}
