//! The arguments and the locals of a method by their names (ECMA-335 II.15.3, II.15.4.1.3, III.3.38, III.3.43).

ghost use Rattle.std.specs.Prelude.{◌≡◌, ◌==◌, ◌+◌, ◌++◌, List, IfOk, OnOk};
ghost use Rattle.std.specs.List.{enumerate_from, flat_map, list_any};
ghost use Rattle.il_lexer.specs.declared.types.TokenKind.TheVariants.{Name};
ghost use Rattle.source_model.specs.Forest.{Forest, Part, each, preorder};
ghost use Rattle.source_model.specs.Instructions.{instructions_of};
ghost use Rattle.source_model.specs.Nodes.{Node};
ghost use Rattle.source_model.specs.Source.{Source};
ghost use Rattle.source_model.specs.Variables.{first_argument, is_of_arguments, variable_named};
ghost use Rattle.source_syntax.specs.Labels.{number_found};
ghost use Rattle.source_syntax.specs.Methods.{AreNames, IsMethod};
ghost use Rattle.source_nodes.specs.Pieces.{ArePieces, AreParts};
ghost use Rattle.source_nodes.specs.Readers.{IsOf, Reads};
ghost use Rattle.source_nodes.specs.Walk.{IsForest};
ghost use Rattle.check_bodies.specs.NamedVariables.{name_of, names_of, number_if_named, AreNumbered, AreVariables, ServesVariables};

use il_base::{Items, NoMemory};
use ilasm_grammar::TreeNode;
use ilasm_grammar::productions::{
    CALL_CONV, DEF_ARG, DEF_ARGS_OPT_SOME, EXPLICIT_OPT_SOME, INSTANCE, INSTRUCTION_OP_VAR, LOCAL,
    NAME_OPT_SOME,
};
use opcode_table::Op;
use source_nodes::pieces::{Piece, Sought, nodes_of, pieces_of};
use source_nodes::reader::Reader;
use source_nodes::walk::{child, has, leaf_at};
use source_syntax::declared::Declared;
use source_syntax::labels::names_at;
use std::alloc::Global;

/// The arguments and the locals of a method that have names.
#[derive(Drop)]
pub struct Variables {
    pub arguments: Numbered,
    pub locals: Numbered,
}

/// Names, each with the number of the argument or the local that has it.
#[derive(Drop)]
pub struct Numbered {
    pub names: Declared,
    pub numbers: Items<usize>,
}

impl Variables {
    /// Those of a method, from the nodes below its production.
    pub fn read(alloc: Global, reader: &Reader, method: &[TreeNode]) -> Result<Variables, NoMemory>
        requires { IsForest method.now }
        ensures { (s : Source) (n : Node) → Reads reader.now s → IsMethod s n → preorder n.below ≡ method.now → IfOk result (λ x. AreVariables x s n.below) }
    {
        let parameters = child(method, DEF_ARGS_OPT_SOME);
        let first = first_argument(method);
        let arguments = named_parts(alloc, reader, parameters, DEF_ARG, first)?;
        let locals = named_parts(alloc, reader, method, LOCAL, 0)?;
        Ok(Variables { arguments, locals })
    }

    /// Those of a method of which an instruction is one of variables; of another method none are read.
    pub fn read_for(
        alloc: Global,
        reader: &Reader,
        method: &[TreeNode],
        code: &[Piece],
    ) -> Result<Variables, NoMemory>
        requires { IsForest method.now }
        ensures { (s : Source) (n : Node) → Reads reader.now s → IsMethod s n → preorder n.below ≡ method.now →
            ArePieces method.now code.now (instructions_of n.below) → IfOk result (λ x. ServesVariables x s n.below) }
    {
        if !has_form(code, INSTRUCTION_OP_VAR) {
            return Ok(Variables {
                arguments: no_names(alloc),
                locals: no_names(alloc),
            });
        }
        let variables = Variables::read(alloc, reader, method)?;
        Ok(variables)
    }

    /// The number of the first argument, or for another opcode of the first local, that has this name.
    pub fn number_of(
        &self,
        alloc: Global,
        reader: &Reader,
        op: Op,
        token: u32,
    ) -> Result<Option<usize>, NoMemory>
        ensures { (s : Source) (f : Forest) → Reads reader.now s → AreVariables self.now s f → IsOf s Name token → IfOk result (λ n. n ≡ variable_named s f op token) }
    {
        let name = reader.name_text(alloc, token)?;
        if is_of_arguments(op) {
            Ok(number_named(&self.arguments, name.as_bytes()))
        } else {
            Ok(number_named(&self.locals, name.as_bytes()))
        }
    }
}

/// Whether one of these instructions has this form.
pub fn has_form(code: &[Piece], form: u16) -> bool
    ensures { result ≡ list_any (λ x. x.production == form) code.now }
{
    code.iter().any(|piece| piece.production == form)
}

fn no_names(alloc: Global) -> Numbered {
    Numbered {
        names: Declared::new(alloc),
        numbers: Items::new(alloc),
    }
}

// The number of the first that has this name.
fn number_named(named: &Numbered, name: &[u8]) -> Option<usize>
    ensures { result ≡ number_found named.now.names named.now.numbers name.now }
{
    match named.names.find(name) {
        Some(k) => named.numbers.get(k).copied(),
        None => None,
    }
}

// Whether an opcode is one of arguments.
fn is_of_arguments(op: Op) -> bool
    ensures { result ≡ is_of_arguments op }
{
    matches!(
        op,
        Op::LdargS | Op::LdargaS | Op::StargS | Op::Ldarg | Op::Ldarga | Op::Starg
    )
}

// The number of the argument that the first parameter of a method is.
fn first_argument(method: &[TreeNode]) -> u8
    requires { IsForest method.now }
    ensures { (f : Forest) → preorder f ≡ method.now → result ≡ first_argument f }
{
    let convention = child(method, CALL_CONV);
    if has(convention, INSTANCE) && !has(convention, EXPLICIT_OPT_SOME) {
        1
    } else {
        0
    }
}

// Those of the parts of this production that have names, where the first part has this number.
fn named_parts(
    alloc: Global,
    reader: &Reader,
    nodes: &[TreeNode],
    production: u16,
    first: u8,
) -> Result<Numbered, NoMemory>
    requires { IsForest nodes.now }
    ensures { (s : Source) (f : Forest) → Reads reader.now s → AreNames s (names_of (each production f)) → preorder f ≡ nodes.now →
        IfOk result (λ x. AreNumbered x s first (each production f)) }
{
    let found = pieces_of(alloc, nodes, Sought::One(production))?;
    let tokens = name_tokens(alloc, nodes, found.as_slice())?;
    let names = names_at(alloc, reader, tokens.as_slice())?;
    let numbers = name_numbers(alloc, nodes, found.as_slice(), first)?;
    Ok(Numbered { names, numbers })
}

// The tokens of the names of those that have one.
fn name_tokens(alloc: Global, nodes: &[TreeNode], found: &[Piece]) -> Result<Items<u32>, NoMemory>
    requires { AreParts nodes.now found.now }
    ensures { (ps : List Part) → ArePieces nodes.now found.now ps → IfOk result (λ tokens. tokens ≡ flat_map (λ p. name_of p.below) ps) }
{
    let mut tokens = Items::new(alloc);
    for piece in found {
        let below = nodes_of(nodes, *piece);
        push_name(&mut tokens, below)?;
    }
    Ok(tokens)
}

fn push_name(tokens: &mut Items<u32>, below: &[TreeNode]) -> Result<(), NoMemory>
    requires { IsForest below.now }
    ensures { (f : Forest) → preorder f ≡ below.now → OnOk result (tokens.new ≡ tokens.old ++ name_of f) }
{
    if has(below, NAME_OPT_SOME) {
        tokens.push(leaf_at(child(below, NAME_OPT_SOME), 0))
    } else {
        Ok(())
    }
}

// The numbers of those that have names.
fn name_numbers(
    alloc: Global,
    nodes: &[TreeNode],
    found: &[Piece],
    first: u8,
) -> Result<Items<usize>, NoMemory>
    requires { AreParts nodes.now found.now }
    ensures { (ps : List Part) → ArePieces nodes.now found.now ps → IfOk result (λ numbers. numbers ≡ flat_map (λ k. number_if_named (first + k.0) k.1.below) (enumerate_from 0 ps)) }
{
    let mut numbers = Items::new(alloc);
    for k in 0..found.len() {
        let below = nodes_of(nodes, found[k]);
        push_number(&mut numbers, usize::from(first) + k, below)?;
    }
    Ok(numbers)
}

fn push_number(
    numbers: &mut Items<usize>,
    number: usize,
    below: &[TreeNode],
) -> Result<(), NoMemory>
    requires { IsForest below.now }
    ensures { (f : Forest) → preorder f ≡ below.now → OnOk result (numbers.new ≡ numbers.old ++ number_if_named number f) }
{
    if has(below, NAME_OPT_SOME) {
        numbers.push(number)
    } else {
        Ok(())
    }
}
