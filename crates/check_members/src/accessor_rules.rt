//! Accessors of properties and events that are no methods of their class (ECMA-335 II.17, II.18, II.22.28).

ghost use Rattle.std.specs.Prelude.{◌≡◌, ℕ, ◌<◌, ◌^◌, IfOk, length, min};
ghost use Rattle.std.specs.List.{list_any};
ghost use Rattle.ilasm_grammar.specs.declared.productions.TheConstants.{CLASS};
ghost use Rattle.source_model.specs.Forest.{Forest, preorder};
ghost use Rattle.source_model.specs.Nodes.{Around, Node, entered};
ghost use Rattle.source_model.specs.Source.{Source};
ghost use Rattle.source_model.specs.TypeRules.{breaks_signature, is_nothing};
ghost use Rattle.source_model.specs.Undeclared.{accessors_undeclared};
ghost use Rattle.source_nodes.specs.Derived.{FitsBody, HasBodies};
ghost use Rattle.source_nodes.specs.Least.{least};
ghost use Rattle.source_syntax.specs.Namings.{AreNames};
ghost use Rattle.source_nodes.specs.Readers.{Reads};
ghost use Rattle.source_nodes.specs.Walk.{IsForest};
ghost use Rattle.source_syntax.specs.declared.name_lists.Naming.TheVariants as naming;
ghost use Rattle.check_members.specs.MemberReading.{Serves};
ghost use Rattle.check_members.specs.OwnMethods.{has_accessors, is_owner, own_methods, undeclared_at};
ghost use Rattle.check_visitor.specs.Surroundings.{HasParameters, IsSurrounding, found_in};

use crate::member_reading::Signatures;
use crate::member_sets::Members;
use check_names::named_types::Scopes;
use check_visitor::asking::{Rule, Surrounding, deeper};
use il_base::{Items, NoMemory};
use ilasm_grammar::{TreeNode, productions};
use source_model::{derivations_are_forests, forests_join, forests_open};
use source_nodes::derived::derivations_have_bodies;
use source_nodes::least::sooner;
use source_nodes::reader::Reader;
use source_nodes::walk::{leaf_at, next};
use source_syntax::declared::Declared;
use source_syntax::name_lists::{Named, typar_names};
use std::alloc::Global;
use type_terms::TypeId;

/// The least token of a directive that names an accessor which is no method of its class. The rule finds something at each production
/// that breaks a signature and at no other: an accessor with such a signature is passed over, and a method with one is no accessor.
pub fn accessor_undeclared<R: Rule>(
    rule: &R,
    alloc: Global,
    reader: &Reader,
    externs: &Named,
    own: &Named,
) -> Result<Option<u32>, NoMemory>
    requires forest { IsForest reader.now.nodes.now }
    requires few { length reader.now.nodes.now < 2 ^ 32 }
    ensures { (s : Source) → Reads reader.now s → AreNames s naming.Assembly externs.now → AreNames s naming.Own own.now →
        ((n : Node) → is_nothing (R.broken rule.now s n) ≡ is_nothing (breaks_signature s n)) →
        IfOk result (λ k. k ≡ least (accessors_undeclared s)) }
{
    derivations_have_bodies();
    if !has_owner(reader.nodes) {
        return Ok(None);
    }
    let signatures = Signatures {
        rule,
        scopes: Scopes {
            keys: &externs.names,
            own: &own.names,
        },
    };
    let none = Declared::new(alloc);
    let outside = Surrounding {
        depth: 0,
        class: &[],
        method: &[],
        class_typars: &none,
        method_typars: &none,
        parameters: 0,
    };
    let methods = Members::new(alloc);
    let mut path = Items::new(alloc);
    signatures.undeclared_in(&mut path, alloc, reader, &outside, &methods, reader.nodes)
}

impl<'a, R: Rule> Signatures<'a, R> {
    // The least accessor of a forest that is no method of its class. The forest stands in a class with this path and these methods.
    #[cycle(classes)]
    fn undeclared_in(
        &self,
        path: &mut Items<TypeId>,
        alloc: Global,
        reader: &Reader,
        place: &Surrounding,
        methods: &Members,
        nodes: &[TreeNode],
    ) -> Result<Option<u32>, NoMemory>
        requires { IsForest nodes.now }
        ensures found { (s : Source) (a : Around) (f : Forest) → Serves (R.broken self.now.rule.now) self.now.scopes s → Reads reader.now s → IsSurrounding place.now a →
            HasParameters s place.now a → a.path ≡ path.old → methods.now ≡ own_methods s a → preorder f ≡ nodes.now → HasBodies s f →
            IfOk result (λ k. k ≡ least (found_in undeclared_at s a f)) }
        ensures kept { IfOk result (λ _. path.new ≡ path.old) }
    {
        derivations_are_forests();
        forests_open();
        forests_join();
        let mut left = nodes;
        let mut found = None;
        while let Some((node, rest)) = next(left) {
            match node {
                TreeNode::Branch {
                    production,
                    nodes: count,
                } => {
                    let (below, after) = rest.split_at(count as usize);
                    if production == productions::CLASS {
                        let within = self.undeclared_in_class(
                            path,
                            alloc,
                            reader,
                            place.depth,
                            below,
                        )?;
                        found = sooner(found, within);
                        left = after;
                    } else if production == productions::METHOD {
                        left = after;
                    } else if has_accessors(production) {
                        let ids = path.as_slice();
                        let here = self.accessors(alloc, reader, place, ids, methods, below)?;
                        found = sooner(found, here);
                        left = rest;
                    } else {
                        left = rest;
                    }
                }
                TreeNode::Leaf { .. } => left = rest,
            }
        }
        Ok(found)
    }

    // The same in a class that stands in the classes of a path, which are counted up to 101.
    #[cycle(classes)]
    fn undeclared_in_class(
        &self,
        path: &mut Items<TypeId>,
        alloc: Global,
        reader: &Reader,
        depth: u8,
        class: &[TreeNode],
    ) -> Result<Option<u32>, NoMemory>
        requires forest { IsForest class.now }
        requires few { length class.now < 2 ^ 32 }
        ensures found { (s : Source) (a : Around) (f : Forest) → Serves (R.broken self.now.rule.now) self.now.scopes s → Reads reader.now s → a.path ≡ path.old →
            depth ≡ min (length a.path) 101 → preorder f ≡ class.now → FitsBody s CLASS f → HasBodies s f →
            IfOk result (λ k. k ≡ least (found_in undeclared_at s (entered s a CLASS f) f)) }
        ensures kept { IfOk result (λ _. path.new ≡ path.old) }
    {
        let typars = typar_names(alloc, reader, class)?;
        let none = Declared::new(alloc);
        let place = Surrounding {
            depth: deeper(depth),
            class,
            method: &[],
            class_typars: &typars,
            method_typars: &none,
            parameters: 0,
        };
        let methods = self.methods_of(alloc, reader, &place, class)?;
        let id = reader.type_id(alloc, leaf_at(class, 1))?;
        let outer = path.len();
        path.push(id)?;
        let found = self.undeclared_in(path, alloc, reader, &place, &methods, class)?;
        path.truncate(outer);
        Ok(found)
    }
}

// Whether one of these nodes is a property or an event.
fn has_owner(nodes: &[TreeNode]) -> bool
    ensures { result ≡ list_any is_owner nodes.now }
{
    nodes.iter().any(|node| is_owner(*node))
}

fn is_owner(node: TreeNode) -> bool
    ensures { result ≡ is_owner node }
{
    match node {
        TreeNode::Branch { production, .. } => has_accessors(production),
        TreeNode::Leaf { .. } => false,
    }
}

// Whether a production has accessors: a property or an event.
fn has_accessors(production: u16) -> bool
    ensures { result ≡ has_accessors production }
{
    production == productions::PROPERTY || production == productions::EVENT
}
