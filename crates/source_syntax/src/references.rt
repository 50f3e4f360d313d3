//! References to methods (ECMA-335 II.10.5, II.15.3, II.23.2.1, II.23.2.2).

ghost use Rattle.std.specs.Prelude.{◌≡◌, ◌||◌, ◌<◌, ◌^◌, [], ◌∷◌, IfOk, length, true, None, Some, if◌then◌else◌};
ghost use Rattle.il_lexer.specs.declared.types.TokenKind.TheVariants as kind;
ghost use Rattle.ilasm_grammar.specs.declared.productions.TheConstants.{METHOD_GENERICS, METHOD_NAME_CCTOR, METHOD_NAME_CTOR, METHOD_NAME_NAME, METHOD_REF, PATH, TARGET_NAME, TARGET_SCOPE, TARGET_TYPE};
ghost use Rattle.source_model.specs.Forest.{Forest, child, has, leaf_at, preorder, the};
ghost use Rattle.source_model.specs.Names.{name_and_tail, or_module, path_tokens, type_named};
ghost use Rattle.source_model.specs.Nodes.{Around};
ghost use Rattle.source_model.specs.References.{generic_arguments, generic_number, method_name, method_ref, owner_of, reference_name};
ghost use Rattle.source_model.specs.Source.{Source};
ghost use Rattle.source_nodes.specs.Derived.{FitsBody, HasBodies};
ghost use Rattle.source_syntax.specs.Places.{IsAt, IsReadable, IsSound};
ghost use Rattle.source_nodes.specs.Readers.{IsOf, Reads};
ghost use Rattle.source_syntax.specs.Sound.{HasPath};
ghost use Rattle.source_nodes.specs.Walk.{IsForest, is_of};

use crate::place::{Place, module_name};
use il_base::{NoMemory, Text};
use il_lexer::{the_longest_spelling_is_taken, tokens_are_spellings};
use ilasm_grammar::TreeNode;
use ilasm_grammar::productions::{
    GEN_ARGS_BRACKET, METHOD_GENERICS, METHOD_NAME_CCTOR, METHOD_NAME_CTOR, METHOD_NAME_NAME,
    NAME_TAIL_DOUBLE_COLON, NAME_TAIL_SLASH, PATH, TARGET_END, TARGET_NAME, TARGET_SCOPE,
    TARGET_TYPE,
};
use source_model::forests_join;
use source_nodes::narrowing::word_of;
use source_nodes::reader::Reader;
use source_nodes::walk::{child, has, is_of, leaf_at, open, the};
use std::alloc::Global;
use type_terms::{MethodRef, Owner, Path, Scope, TypeName, Types};

/// The arguments of a generic method, where they are written, and their number.
#[derive(Drop)]
struct Generics {
    number: u32,
    args: Option<Types>,
}

impl<'a> Place<'a> {
    /// A reference to a method, from what stands below its production.
    pub fn method_ref(&self, alloc: Global, nodes: &[TreeNode]) -> Result<MethodRef, NoMemory>
        requires forest { IsForest nodes.now }
        requires few { length nodes.now < 2 ^ 32 }
        ensures { (s : Source) (a : Around) → IsAt self.now s a → (f : Forest) → preorder f ≡ nodes.now → IsSound s METHOD_REF f → IsReadable s f →
            IfOk result (λ reference. reference ≡ method_ref s a f) }
    {
        let Generics { number, args } = self.generics(alloc, nodes)?;
        let sig = self.reference_signature(alloc, nodes, number)?;
        let owner = self.method_owner(alloc, nodes)?;
        let name = self.reference_name(alloc, nodes)?;
        Ok(MethodRef {
            owner,
            name,
            sig,
            args,
        })
    }

    /// The generic arguments of a reference.
    fn generics(&self, alloc: Global, nodes: &[TreeNode]) -> Result<Generics, NoMemory>
        requires forest { IsForest nodes.now }
        requires few { length nodes.now < 2 ^ 32 }
        ensures { (s : Source) (a : Around) → IsAt self.now s a → (f : Forest) → preorder f ≡ nodes.now → IsReadable s (the METHOD_GENERICS f) →
            IfOk result (λ found. (found.number ≡ generic_number s a f) × (found.args ≡ generic_arguments s a f)) }
    {
        let written = the(nodes, METHOD_GENERICS);
        if has(written, GEN_ARGS_BRACKET) {
            let token = leaf_at(the(written, GEN_ARGS_BRACKET), 1);
            return Ok(Generics {
                number: self.reader.natural(token),
                args: None,
            });
        }
        let args = self.types_in(alloc, written)?;
        Ok(Generics {
            number: word_of(args.len()),
            args: kept(has(nodes, METHOD_GENERICS), args),
        })
    }

    /// The type that a reference to a method names; without one it is that of what stands outside of any class.
    fn method_owner(&self, alloc: Global, nodes: &[TreeNode]) -> Result<Owner, NoMemory>
        requires { IsForest nodes.now }
        ensures { (s : Source) (a : Around) → IsAt self.now s a → (f : Forest) → preorder f ≡ nodes.now → IsSound s METHOD_REF f → IsReadable s f →
            IfOk result (λ owner. owner ≡ owner_of s a TARGET_SCOPE TARGET_TYPE TARGET_NAME f) }
    {
        if has(nodes, TARGET_TYPE) {
            let of = self.first_type(alloc, child(nodes, TARGET_TYPE))?;
            return Ok(Owner::Spec(of));
        }
        if has(nodes, TARGET_SCOPE) {
            let name = self.name_with_scope(alloc, child(nodes, TARGET_SCOPE))?;
            return Ok(Owner::Name(name));
        }
        let target = child(nodes, TARGET_NAME);
        let name = self.name_with_tail(alloc, target, NAME_TAIL_SLASH, NAME_TAIL_DOUBLE_COLON)?;
        Ok(Owner::Name(name))
    }

    /// The type's name that a name begins: with more names behind it, or alone before `::`; else it is no type's name.
    pub fn name_with_tail(
        &self,
        alloc: Global,
        nodes: &[TreeNode],
        slash: u16,
        double_colon: u16,
    ) -> Result<TypeName, NoMemory>
        requires { IsForest nodes.now }
        ensures { (s : Source) (a : Around) → IsAt self.now s a → (f : Forest) → preorder f ≡ nodes.now → IsOf s kind.Name (leaf_at 0 f) →
            (has slash f ≡ true → HasPath s (child (slash ∷ []) f)) →
            IfOk result (λ name. name ≡ or_module s (name_and_tail slash double_colon f)) }
    {
        if has(nodes, slash) {
            let names = child(child(nodes, slash), PATH);
            return self.name_before(alloc, leaf_at(nodes, 0), names);
        }
        if has(nodes, double_colon) {
            return self.name_alone(alloc, leaf_at(nodes, 0));
        }
        module_name(alloc)
    }

    /// The type's name of a name and a path behind it.
    fn name_before(
        &self,
        alloc: Global,
        first: u32,
        names: &[TreeNode],
    ) -> Result<TypeName, NoMemory>
        requires { IsForest names.now }
        ensures { (s : Source) (a : Around) → IsAt self.now s a → IsOf s kind.Name first → (f : Forest) → preorder f ≡ names.now → FitsBody s PATH f → HasBodies s f →
            IfOk result (λ name. name ≡ type_named s (record { scope = None; path = first ∷ path_tokens f })) }
    {
        let outer = self.reader.type_id(alloc, first)?;
        let inner = self.reader.type_id(alloc, leaf_at(names, 0))?;
        let mut path = Path::new(alloc, outer)?;
        path.push(inner)?;
        let path = self.with_names(alloc, path, names)?;
        Ok(TypeName {
            scope: Scope::Here,
            path,
        })
    }

    /// The type's name of one name.
    fn name_alone(&self, alloc: Global, token: u32) -> Result<TypeName, NoMemory>
        ensures { (s : Source) (a : Around) → IsAt self.now s a → IsOf s kind.Name token →
            IfOk result (λ name. name ≡ type_named s (record { scope = None; path = token ∷ [] })) }
    {
        let id = self.reader.type_id(alloc, token)?;
        let path = Path::new(alloc, id)?;
        Ok(TypeName {
            scope: Scope::Here,
            path,
        })
    }

    /// The name of the method: that behind `::`, or where there is none that which the reference names alone.
    fn reference_name(&self, alloc: Global, nodes: &[TreeNode]) -> Result<Text, NoMemory>
        requires { IsForest nodes.now }
        ensures { (s : Source) (a : Around) → IsAt self.now s a → (f : Forest) → preorder f ≡ nodes.now → IsSound s METHOD_REF f → IsReadable s f →
            IfOk result (λ name. name ≡ reference_name s a f) }
    {
        if has(nodes, TARGET_END) {
            return method_name(alloc, &self.reader, the(nodes, TARGET_END));
        }
        self.reader
            .name_text(alloc, leaf_at(child(nodes, TARGET_NAME), 0))
    }
}

/// The first name of a method in a forest: a name, `.ctor` or `.cctor`.
pub fn method_name(alloc: Global, reader: &Reader, nodes: &[TreeNode]) -> Result<Text, NoMemory>
    requires { IsForest nodes.now }
    ensures { (s : Source) → Reads reader.now s → (f : Forest) → preorder f ≡ nodes.now → HasBodies s f →
        IfOk result (λ name. name ≡ method_name s f) }
{
    the_longest_spelling_is_taken();
    tokens_are_spellings();
    forests_join();
    let mut left = nodes;
    while let Some(x) = open(left) {
        if is_name(x.node) {
            if is_of(x.node, METHOD_NAME_NAME) {
                return reader.name_text(alloc, leaf_at(x.below, 0));
            }
            if is_of(x.node, METHOD_NAME_CTOR) {
                return Text::new(alloc, ".ctor");
            }
            if is_of(x.node, METHOD_NAME_CCTOR) {
                return Text::new(alloc, ".cctor");
            }
            left = x.behind;
        } else {
            left = x.behind;
        }
    }
    Text::new(alloc, "")
}

// Whether a node is the name of a method.
fn is_name(node: TreeNode) -> bool
    ensures { result ≡ (is_of METHOD_NAME_NAME node || (is_of METHOD_NAME_CTOR node || is_of METHOD_NAME_CCTOR node)) }
{
    match node {
        TreeNode::Branch { production, .. } => matches!(
            production,
            METHOD_NAME_NAME | METHOD_NAME_CTOR | METHOD_NAME_CCTOR
        ),
        TreeNode::Leaf { .. } => false,
    }
}

// The arguments, where some are written.
fn kept(written: bool, args: Types) -> Option<Types>
    ensures { result ≡ (if written then Some args else None) }
{
    if written { Some(args) } else { None }
}
