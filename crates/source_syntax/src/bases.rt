//! The bases of types (ECMA-335 II.7.1, II.23.1.16).

ghost use Rattle.std.specs.Prelude.{◌≡◌, ◌<◌, ◌≤◌, ◌^◌, List, length, IfOk, MatchOption, Some, if◌then◌else◌};
ghost use Rattle.type_terms.specs.declared.term.Primitive.TheVariants as prim;
ghost use Rattle.type_terms.specs.declared.term.SigType.{SigType};
ghost use Rattle.type_terms.specs.declared.term.SigType as term;
ghost use Rattle.ilasm_grammar.specs.declared.nonterminals.TheConstants.{TYPE_BASE};
ghost use Rattle.ilasm_grammar.specs.declared.productions.TheConstants.{TYPE_BASE_VOID, TYPE_BASE_INT_TYPE, NATIVE_INT_INT};
ghost use Rattle.source_model.specs.Forest.{Forest, has, preorder};
ghost use Rattle.source_model.specs.Nodes.{Around};
ghost use Rattle.source_model.specs.Source.{Source};
ghost use Rattle.source_model.specs.Types.{base_type, int_type, named_type, number_of, variable_number};
ghost use Rattle.source_syntax.specs.BaseTypes.{made_type};
ghost use Rattle.source_nodes.specs.Derived.{head_of};
ghost use Rattle.source_syntax.specs.Indexes.{HasIndex};
ghost use Rattle.source_syntax.specs.Places.{IsAt, IsReadable, IsSound};
ghost use Rattle.source_nodes.specs.Readers.{Reads};
ghost use Rattle.source_nodes.specs.Walk.{IsForest};

use crate::declared::Declared;
use crate::place::Place;
use il_base::{Boxed, NoMemory};
use ilasm_grammar::TreeNode;
use ilasm_grammar::productions::{
    INDEX_INT, INDEX_NAME, INT_TYPE_INT8, INT_TYPE_INT16, INT_TYPE_INT32, INT_TYPE_INT64,
    INT_TYPE_UINT8, INT_TYPE_UINT16, INT_TYPE_UINT32, NATIVE_INT_INT, TYPE_BASE_BANG,
    TYPE_BASE_BOOL, TYPE_BASE_CHAR, TYPE_BASE_CLASS, TYPE_BASE_FLOAT32, TYPE_BASE_FLOAT64,
    TYPE_BASE_INT_TYPE, TYPE_BASE_NATIVE, TYPE_BASE_OBJECT, TYPE_BASE_STRING, TYPE_BASE_TYPEDREF,
    TYPE_BASE_VALUETYPE, TYPE_BASE_VOID, UNSIGNED_INT_INT8, UNSIGNED_INT_INT16, UNSIGNED_INT_INT32,
};
use source_nodes::narrowing::word_of;
use source_nodes::walk::{has, leaf_at, the};
use std::alloc::Global;
use type_terms::{Prim, SigType, TypeName, Types};

impl<'a> Place<'a> {
    /// The type of a base, from its production, what stands below that, and the types of its generic arguments.
    pub fn base_type(
        &self,
        alloc: Global,
        production: u16,
        nodes: &[TreeNode],
        args: Types,
    ) -> Result<SigType, NoMemory>
        requires { IsForest nodes.now }
        ensures { (s : Source) (a : Around) → IsAt self.now s a → (f : Forest) → preorder f ≡ nodes.now → head_of production ≡ Some TYPE_BASE →
            IsSound s production f → IsReadable s f → IfOk result (λ of. of ≡ base_type s a production f args) }
    {
        if let Some(prim) = word_type(production) {
            return Ok(SigType::Prim(prim));
        }
        self.made_type(alloc, production, nodes, args)
    }

    /// The type of a base that isn't one word.
    #[inline(never)]
    fn made_type(
        &self,
        alloc: Global,
        production: u16,
        nodes: &[TreeNode],
        args: Types,
    ) -> Result<SigType, NoMemory>
        requires { IsForest nodes.now }
        ensures { (s : Source) (a : Around) → IsAt self.now s a → (f : Forest) → preorder f ≡ nodes.now → head_of production ≡ Some TYPE_BASE →
            (TYPE_BASE_VOID ≤ production → TYPE_BASE_INT_TYPE ≤ production) → IsSound s production f → IsReadable s f →
            IfOk result (λ of. of ≡ made_type s a production f args) }
    {
        match production {
            TYPE_BASE_INT_TYPE => Ok(SigType::Prim(int_type(nodes))),
            TYPE_BASE_NATIVE => Ok(SigType::Prim(native_type(nodes))),
            TYPE_BASE_CLASS => {
                let name = self.type_name(alloc, nodes)?;
                named_type(alloc, false, name, args)
            }
            TYPE_BASE_VALUETYPE => {
                let name = self.type_name(alloc, nodes)?;
                named_type(alloc, true, name, args)
            }
            TYPE_BASE_BANG => {
                let number = self.variable(alloc, self.class, nodes)?;
                Ok(SigType::Var(number))
            }
            _ => {
                let number = self.variable(alloc, self.method, nodes)?;
                Ok(SigType::MVar(number))
            }
        }
    }

    /// The number of a generic parameter, written as a number or as one of these names.
    fn variable(&self, alloc: Global, names: &Declared, nodes: &[TreeNode]) -> Result<u32, NoMemory>
        requires { IsForest nodes.now }
        ensures { (s : Source) → Reads self.now.reader s → length names.now < 2 ^ 32 → (f : Forest) → preorder f ≡ nodes.now → HasIndex s f →
            IfOk result (λ number. number ≡ variable_number s names.now f) }
    {
        if has(nodes, INDEX_INT) {
            return Ok(self.reader.natural(leaf_at(the(nodes, INDEX_INT), 0)));
        }
        let text = self
            .reader
            .name_text(alloc, leaf_at(the(nodes, INDEX_NAME), 0))?;
        Ok(number_of(names, text.as_bytes()))
    }
}

/// The number of the first of the names that is the text; that of the names where none is.
fn number_of(names: &Declared, text: &[u8]) -> u32
    ensures { length names.now < 2 ^ 32 → result ≡ number_of names.now text.now }
{
    match names.find(text) {
        Some(k) => word_of(k),
        None => word_of(names.len()),
    }
}

/// `native int` or another native one.
fn native_type(nodes: &[TreeNode]) -> Prim
    requires { IsForest nodes.now }
    ensures { (f : Forest) → preorder f ≡ nodes.now → term.Prim result ≡ (if has NATIVE_INT_INT f then term.Prim prim.NInt else term.Prim prim.NUint) }
{
    if has(nodes, NATIVE_INT_INT) {
        Prim::NInt
    } else {
        Prim::NUint
    }
}

/// The type of a base that is one word.
pub fn word_type(production: u16) -> Option<Prim>
    ensures { (s : Source) (a : Around) (f : Forest) (args : List SigType) →
        MatchOption result ((base_type s a production f args ≡ made_type s a production f args) × (TYPE_BASE_VOID ≤ production → TYPE_BASE_INT_TYPE ≤ production))
        (λ prim. base_type s a production f args ≡ term.Prim prim) }
{
    match production {
        TYPE_BASE_VOID => Some(Prim::Void),
        TYPE_BASE_BOOL => Some(Prim::Bool),
        TYPE_BASE_CHAR => Some(Prim::Char),
        TYPE_BASE_STRING => Some(Prim::Str),
        TYPE_BASE_OBJECT => Some(Prim::Object),
        TYPE_BASE_TYPEDREF => Some(Prim::TypedRef),
        TYPE_BASE_FLOAT32 => Some(Prim::R4),
        TYPE_BASE_FLOAT64 => Some(Prim::R8),
        _ => None,
    }
}

/// The integer type whose word stands in a forest.
pub fn int_type(nodes: &[TreeNode]) -> Prim
    requires { IsForest nodes.now }
    ensures { (f : Forest) → preorder f ≡ nodes.now → result ≡ int_type f }
{
    if has(nodes, INT_TYPE_INT8) {
        Prim::I1
    } else if has(nodes, INT_TYPE_INT16) {
        Prim::I2
    } else if has(nodes, INT_TYPE_INT32) {
        Prim::I4
    } else if has(nodes, INT_TYPE_INT64) {
        Prim::I8
    } else if has(nodes, INT_TYPE_UINT8) || has(nodes, UNSIGNED_INT_INT8) {
        Prim::U1
    } else if has(nodes, INT_TYPE_UINT16) || has(nodes, UNSIGNED_INT_INT16) {
        Prim::U2
    } else if has(nodes, INT_TYPE_UINT32) || has(nodes, UNSIGNED_INT_INT32) {
        Prim::U4
    } else {
        Prim::U8
    }
}

/// A class or a value type, with generic arguments where it has some.
fn named_type(alloc: Global, value: bool, name: TypeName, args: Types) -> Result<SigType, NoMemory>
    ensures { IfOk result (λ of. of ≡ named_type value name args) }
{
    if !args.is_empty() {
        let name = Boxed::new(alloc, name)?;
        let args = Boxed::new(alloc, args)?;
        Ok(SigType::Inst { value, name, args })
    } else if value {
        Ok(SigType::Value(name))
    } else {
        Ok(SigType::Class(name))
    }
}
