//! The sizes in data of types as they are written (ECMA-335 II.7.1, II.16.3).

ghost use Rattle.std.specs.Prelude.{◌≡◌, IfOk};
ghost use Rattle.type_terms.specs.declared.term.SigType.{Value};
ghost use Rattle.ilasm_grammar.specs.declared.productions.TheConstants.{TYPE_BASE_VALUETYPE};
ghost use Rattle.check_data.specs.TypeSizes.{Measures};
ghost use Rattle.source_model.specs.Forest.{Forest, preorder};
ghost use Rattle.source_model.specs.Nodes.{Around};
ghost use Rattle.source_model.specs.OutOfRange.{asked_size};
ghost use Rattle.source_model.specs.Source.{Source};
ghost use Rattle.source_model.specs.Types.{base_type, type_of, types_in};
ghost use Rattle.source_nodes.specs.Derived.{HasBodies};
ghost use Rattle.source_nodes.specs.Walk.{IsForest};

use crate::declared_sizes::{ClassSizes, size_at};
use check_names::stated_sizes::{keeps_size, primitive_size};
use il_base::NoMemory;
use ilasm_grammar::TreeNode;
use ilasm_grammar::productions::{TYPE, TYPE_BASE_VALUETYPE};
use source_nodes::walk::{has, open};
use source_syntax::class_paths::ClassPaths;
use source_syntax::place::Place;
use std::alloc::Global;
use type_terms::{Scope, TypeName};

/// What types' names stand for outside of all classes, and the class sizes of the source's classes.
#[derive(Clone, Copy)]
pub struct Measure<'a> {
    pub place: Place<'a>,
    pub classes: &'a ClassPaths,
    pub sizes: &'a ClassSizes,
}

impl<'a> Measure<'a> {
    /// The bytes that are asked of data for a value of a type, from what stands below the type's production: none of a class size
    /// that is out of its range. None where they aren't stated.
    pub fn type_size(&self, alloc: Global, nodes: &[TreeNode]) -> Result<Option<u32>, NoMemory>
        requires { IsForest nodes.now }
        ensures { (s : Source) (a : Around) (f : Forest) → Measures self.now s → preorder f ≡ nodes.now → HasBodies s f →
            IfOk result (λ n. n ≡ asked_size s (type_of s a f)) }
    {
        let Some(x) = open(nodes) else {
            return Ok(None);
        };
        let TreeNode::Branch { production, .. } = x.node else {
            return Ok(None);
        };
        if !keeps_size(x.after) {
            return Ok(None);
        }
        self.base_size(alloc, production, x.below)
    }

    // The bytes of a value of a base.
    fn base_size(
        &self,
        alloc: Global,
        production: u16,
        below: &[TreeNode],
    ) -> Result<Option<u32>, NoMemory>
        requires { IsForest below.now }
        ensures { (s : Source) (a : Around) (f : Forest) → Measures self.now s → preorder f ≡ below.now → HasBodies s f →
            IfOk result (λ n. n ≡ asked_size s (base_type s a production f (types_in s a f))) }
    {
        if production == TYPE_BASE_VALUETYPE {
            self.value_size(alloc, below)
        } else {
            Ok(widened(primitive_size(production, below)))
        }
    }

    // The bytes of a value type: without generic arguments, by the class with its name in this source.
    fn value_size(&self, alloc: Global, below: &[TreeNode]) -> Result<Option<u32>, NoMemory>
        requires { IsForest below.now }
        ensures { (s : Source) (a : Around) (f : Forest) → Measures self.now s → preorder f ≡ below.now → HasBodies s f →
            IfOk result (λ n. n ≡ asked_size s (base_type s a TYPE_BASE_VALUETYPE f (types_in s a f))) }
    {
        if has(below, TYPE) {
            return Ok(None);
        }
        let name = self.place.type_name(alloc, below)?;
        Ok(self.named_size(&name))
    }

    // The bytes of a value of the class with a name, where it stands in this source.
    fn named_size(&self, name: &TypeName) -> Option<u32>
        ensures { (s : Source) → Measures self.now s → result ≡ asked_size s (Value name.now) }
    {
        match name.scope {
            Scope::Here => size_at(self.classes, self.sizes, name.path.as_slice()),
            Scope::Extern(_) => None,
        }
    }
}

// The same size.
fn widened(size: Option<u8>) -> Option<u32>
    ensures { result ≡ size }
{
    match size {
        Some(bytes) => Some(bytes as u32),
        None => None,
    }
}
