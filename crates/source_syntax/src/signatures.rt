//! The signatures of methods and properties (ECMA-335 II.15.3, II.15.4, II.17, II.23.2.1, II.23.2.2, II.23.2.5).

ghost use Rattle.std.specs.Prelude.{◌≡◌, ◌<◌, ◌^◌, [], ◌∷◌, IfOk, length, map};
ghost use Rattle.ilasm_grammar.specs.declared.productions.TheConstants.{TYPE, DEF_ARG};
ghost use Rattle.source_model.specs.Forest.{Forest, child, each, preorder};
ghost use Rattle.source_model.specs.Nodes.{Around, typars};
ghost use Rattle.source_model.specs.References.{argument_types, arguments, before_ellipsis, generic_number, method_signature, property_signature, reference_signature, sentinel};
ghost use Rattle.source_model.specs.Source.{Source};
ghost use Rattle.source_model.specs.Types.{the_type, type_of};
ghost use Rattle.source_model.specs.Variables.{local_types};
ghost use Rattle.source_syntax.specs.Places.{IsAt, IsReadable};
ghost use Rattle.source_syntax.specs.Sound.{HasSoundMethod, HasSoundProperty, HasSoundReference, HasSoundType};
ghost use Rattle.source_nodes.specs.Walk.{IsForest};

use crate::place::Place;
use il_base::{Items, NoMemory};
use ilasm_grammar::TreeNode;
use ilasm_grammar::productions::{
    CALL_CONV, CALL_KIND_VARARG, DEF_ARG, DEF_ARGS_OPT_SOME, EXPLICIT_OPT_SOME, INSTANCE, LOCAL,
    SIG_ARG_ELLIPSIS, SIGNATURE, TYPAR, TYPARS_OPT_SOME, TYPE,
};
use source_model::forests_join;
use source_nodes::narrowing::word_of;
use source_nodes::walk::{child, each, has, is_of, open, the};
use std::alloc::Global;
use type_terms::{MethodSig, SigType, Types};

impl<'a> Place<'a> {
    /// The type at the top of a forest: that of a field, or the one that a signature returns.
    pub fn top_type(&self, alloc: Global, nodes: &[TreeNode]) -> Result<SigType, NoMemory>
        requires { IsForest nodes.now }
        ensures { (s : Source) (a : Around) → IsAt self.now s a → (f : Forest) → preorder f ≡ nodes.now → HasSoundType s f →
            IfOk result (λ of. of ≡ type_of s a (child (TYPE ∷ []) f)) }
    {
        self.type_of(alloc, child(nodes, TYPE))
    }

    /// The types of the arguments or parameters in a forest, in order.
    pub fn argument_types(&self, alloc: Global, nodes: &[TreeNode]) -> Result<Types, NoMemory>
        requires { IsForest nodes.now }
        ensures { (s : Source) (a : Around) → IsAt self.now s a → (f : Forest) → preorder f ≡ nodes.now → IsReadable s f →
            IfOk result (λ types. types ≡ argument_types s a f) }
    {
        self.types_of(alloc, nodes, DEF_ARG)
    }

    /// The types of the locals of a method, in order.
    pub fn local_types(&self, alloc: Global, nodes: &[TreeNode]) -> Result<Types, NoMemory>
        requires { IsForest nodes.now }
        ensures { (s : Source) (a : Around) → IsAt self.now s a → (f : Forest) → preorder f ≡ nodes.now → IsReadable s f →
            IfOk result (λ types. types ≡ local_types s a f) }
    {
        self.types_of(alloc, nodes, LOCAL)
    }

    /// The types of the parts with a production, in order.
    fn types_of(
        &self,
        alloc: Global,
        nodes: &[TreeNode],
        production: u16,
    ) -> Result<Types, NoMemory>
        requires { IsForest nodes.now }
        ensures { (s : Source) (a : Around) → IsAt self.now s a → (f : Forest) → preorder f ≡ nodes.now → IsReadable s f →
            IfOk result (λ types. types ≡ map (the_type s a) (each production f)) }
    {
        forests_join();
        let mut types = Items::new(alloc);
        let mut left = nodes;
        while let Some(x) = open(left) {
            if is_of(x.node, production) {
                let of = self.first_type(alloc, x.below)?;
                types.push(of)?;
                left = x.after;
            } else {
                left = x.behind;
            }
        }
        Ok(types)
    }

    /// The signature of a declared method.
    pub fn method_signature(&self, alloc: Global, nodes: &[TreeNode]) -> Result<MethodSig, NoMemory>
        requires forest { IsForest nodes.now }
        requires few { length nodes.now < 2 ^ 32 }
        ensures { (s : Source) (a : Around) → IsAt self.now s a → (f : Forest) → preorder f ≡ nodes.now → HasSoundMethod s f →
            IfOk result (λ sig. sig ≡ method_signature s a f) }
    {
        let conv = child(nodes, CALL_CONV);
        let generic = typar_count(alloc, nodes)?;
        let ret = self.top_type(alloc, nodes)?;
        let params = self.argument_types(alloc, child(nodes, DEF_ARGS_OPT_SOME))?;
        Ok(MethodSig {
            has_this: has(conv, INSTANCE),
            explicit_this: has(conv, EXPLICIT_OPT_SOME),
            vararg: has(conv, CALL_KIND_VARARG),
            generic,
            ret,
            params,
            sentinel: None,
        })
    }

    /// The signature of a property.
    pub fn property_signature(
        &self,
        alloc: Global,
        nodes: &[TreeNode],
    ) -> Result<MethodSig, NoMemory>
        requires { IsForest nodes.now }
        ensures { (s : Source) (a : Around) → IsAt self.now s a → (f : Forest) → preorder f ≡ nodes.now → HasSoundProperty s f →
            IfOk result (λ sig. sig ≡ property_signature s a f) }
    {
        let ret = self.top_type(alloc, nodes)?;
        let params = self.argument_types(alloc, child(nodes, SIGNATURE))?;
        Ok(MethodSig {
            has_this: has(child(nodes, CALL_CONV), INSTANCE),
            explicit_this: false,
            vararg: false,
            generic: 0,
            ret,
            params,
            sentinel: None,
        })
    }

    /// The signature of a reference to a method, with its generic number.
    pub fn reference_signature(
        &self,
        alloc: Global,
        nodes: &[TreeNode],
        generic: u32,
    ) -> Result<MethodSig, NoMemory>
        requires forest { IsForest nodes.now }
        requires few { length nodes.now < 2 ^ 32 }
        ensures { (s : Source) (a : Around) → IsAt self.now s a → (f : Forest) → preorder f ≡ nodes.now → HasSoundReference s f → generic ≡ generic_number s a f →
            IfOk result (λ sig. sig ≡ reference_signature s a f) }
    {
        let conv = child(nodes, CALL_CONV);
        let signature = the(nodes, SIGNATURE);
        let ret = self.top_type(alloc, nodes)?;
        let params = self.argument_types(alloc, signature)?;
        let sentinel = sentinel(signature, params.len());
        Ok(MethodSig {
            has_this: has(conv, INSTANCE),
            explicit_this: has(conv, EXPLICIT_OPT_SOME),
            vararg: has(conv, CALL_KIND_VARARG),
            generic,
            ret,
            params,
            sentinel,
        })
    }
}

/// The number of generic parameters of a class or a method, from what stands below its production.
pub fn typar_count(alloc: Global, nodes: &[TreeNode]) -> Result<u32, NoMemory>
    requires forest { IsForest nodes.now }
    requires few { length nodes.now < 2 ^ 32 }
    ensures { (f : Forest) → preorder f ≡ nodes.now → IfOk result (λ count. count ≡ length (typars f)) }
{
    let below = child(nodes, TYPARS_OPT_SOME);
    if below.is_empty() {
        return Ok(0);
    }
    let typars = each(alloc, below, TYPAR)?;
    Ok(word_of(typars.len()))
}

// How many of so many arguments stand before the sentinel, where there is one.
fn sentinel(nodes: &[TreeNode], count: usize) -> Option<u32>
    requires { IsForest nodes.now }
    ensures { (f : Forest) → preorder f ≡ nodes.now → count ≡ length (each DEF_ARG f) → count < 2 ^ 32 → result ≡ sentinel f }
{
    let before = before_ellipsis(nodes)?;
    if before < count {
        Some(word_of(before))
    } else {
        None
    }
}

// How many arguments stand before the first `...`, where there is one.
fn before_ellipsis(nodes: &[TreeNode]) -> Option<usize>
    requires { IsForest nodes.now }
    ensures { (f : Forest) → preorder f ≡ nodes.now → result ≡ before_ellipsis (arguments f) }
{
    forests_join();
    let mut before = 0;
    let mut left = nodes;
    while let Some(x) = open(left) {
        if is_of(x.node, SIG_ARG_ELLIPSIS) {
            return Some(before);
        }
        if is_of(x.node, DEF_ARG) {
            before += 1;
            left = x.after;
        } else {
            left = x.behind;
        }
    }
    None
}
