//! Members that are declared twice (ECMA-335 II.10.2, II.22.13, II.22.15, II.22.26, II.22.34).

ghost use Rattle.std.specs.Prelude.{◌≡◌, ◌<◌, ◌^◌, ◌∷◌, [], IfOk, List, if◌then◌else◌, length, min};
ghost use Rattle.type_terms.specs.declared.name.TypeId.{TypeId};
ghost use Rattle.source_model.specs.DeclaredTwice.{members_twice, members_twice_in};
ghost use Rattle.source_model.specs.Forest.{Forest, preorder, the};
ghost use Rattle.source_model.specs.Items.{declarations, members};
ghost use Rattle.source_model.specs.Nodes.{Around, Node, nothing_around};
ghost use Rattle.source_model.specs.Source.{Source};
ghost use Rattle.source_model.specs.TypeRules.{breaks_signature, is_nothing};
ghost use Rattle.source_nodes.specs.Derived.{FitsBody, HasBodies};
ghost use Rattle.source_nodes.specs.Least.{least};
ghost use Rattle.source_syntax.specs.Namings.{AreNames};
ghost use Rattle.source_nodes.specs.Readers.{Reads};
ghost use Rattle.source_nodes.specs.Walk.{IsForest};
ghost use Rattle.source_syntax.specs.declared.name_lists.Naming.TheVariants as naming;
ghost use Rattle.check_members.specs.MemberKinds.{again_in, class_around, parts_at, production_of, token_of, twice_within, unbroken_member, IsPut};
ghost use Rattle.check_members.specs.MemberReading.{Serves};
ghost use Rattle.check_visitor.specs.Surroundings.{HasParameters, IsSurrounding};

use crate::lone_members::{are_lone, has_two};
use crate::member_kinds::{Kind, Level};
use crate::member_reading::Signatures;
use crate::member_sets::{Member, Members};
use check_names::named_types::Scopes;
use check_visitor::asking::{Rule, Surrounding, deeper};
use il_base::NoMemory;
use ilasm_grammar::{TreeNode, productions};
use source_model::{derivations_are_forests, forests_join, forests_open};
use source_nodes::derived::derivations_have_bodies;
use source_nodes::least::sooner;
use source_nodes::reader::Reader;
use source_nodes::walk::{next, open, the};
use source_syntax::declared::Declared;
use source_syntax::name_lists::{Named, typar_names};
use std::alloc::Global;
use type_terms::orders_are_total;

/// The least token that names a member which is the same as an earlier one of its kind and its class. The rule finds something at
/// each production that breaks a signature and at no other: a member with such a signature is the same as none.
pub fn member_twice<R: Rule>(
    rule: &R,
    alloc: Global,
    reader: &Reader,
    externs: &Named,
    own: &Named,
) -> Result<Option<u32>, NoMemory>
    requires forest { IsForest reader.now.nodes.now }
    requires few { length reader.now.nodes.now < 2 ^ 32 }
    ensures { (s : Source) → Reads reader.now s → AreNames s naming.Assembly externs.now → AreNames s naming.Own own.now →
        ((n : Node) → is_nothing (R.broken rule.now s n) ≡ is_nothing (breaks_signature s n)) →
        IfOk result (λ k. k ≡ least (members_twice s)) }
{
    derivations_have_bodies();
    let here = outer_twice(rule, alloc, reader, externs, own)?;
    let within = inner_twice(rule, alloc, reader, externs, own, reader.nodes)?;
    Ok(sooner(here, within))
}

/// The same among the members that stand in no class.
pub fn outer_twice<R: Rule>(
    rule: &R,
    alloc: Global,
    reader: &Reader,
    externs: &Named,
    own: &Named,
) -> Result<Option<u32>, NoMemory>
    requires forest { IsForest reader.now.nodes.now }
    requires few { length reader.now.nodes.now < 2 ^ 32 }
    ensures { (s : Source) → Reads reader.now s → AreNames s naming.Assembly externs.now → AreNames s naming.Own own.now →
        ((n : Node) → is_nothing (R.broken rule.now s n) ≡ is_nothing (breaks_signature s n)) →
        IfOk result (λ k. k ≡ least (members_twice_in s nothing_around (declarations s.tree))) }
{
    derivations_have_bodies();
    let signatures = Signatures {
        rule,
        scopes: Scopes {
            keys: &externs.names,
            own: &own.names,
        },
    };
    let none = Declared::new(alloc);
    let outside = Surrounding {
        depth: 0,
        class: &[],
        method: &[],
        class_typars: &none,
        method_typars: &none,
        parameters: 0,
    };
    let first = signatures.again(alloc, reader, &outside, Level::Source, reader.nodes)?;
    Ok(first)
}

/// The same among the members of the classes that stand among these nodes, which stand in no class themselves.
pub fn inner_twice<R: Rule>(
    rule: &R,
    alloc: Global,
    reader: &Reader,
    externs: &Named,
    own: &Named,
    nodes: &[TreeNode],
) -> Result<Option<u32>, NoMemory>
    requires forest { IsForest nodes.now }
    requires few { length reader.now.nodes.now < 2 ^ 32 }
    ensures { (s : Source) (f : Forest) → Reads reader.now s → AreNames s naming.Assembly externs.now → AreNames s naming.Own own.now →
        ((n : Node) → is_nothing (R.broken rule.now s n) ≡ is_nothing (breaks_signature s n)) → preorder f ≡ nodes.now → HasBodies s f →
        IfOk result (λ k. k ≡ least (twice_within s [] f)) }
{
    let signatures = Signatures {
        rule,
        scopes: Scopes {
            keys: &externs.names,
            own: &own.names,
        },
    };
    let first = signatures.again_within(alloc, reader, 0, nodes)?;
    Ok(first)
}

impl<'a, R: Rule> Signatures<'a, R> {
    // The same among the classes of a forest that stands in so many classes, counted up to 101. Below methods none stand.
    fn again_within(
        &self,
        alloc: Global,
        reader: &Reader,
        depth: u8,
        nodes: &[TreeNode],
    ) -> Result<Option<u32>, NoMemory>
        requires { IsForest nodes.now }
        ensures { (s : Source) (path : List TypeId) (f : Forest) → Serves (R.broken self.now.rule.now) self.now.scopes s → Reads reader.now s →
            depth ≡ min (length path) 101 → preorder f ≡ nodes.now → HasBodies s f → IfOk result (λ k. k ≡ least (twice_within s path f)) }
    {
        derivations_are_forests();
        forests_open();
        forests_join();
        orders_are_total();
        let inner = deeper(depth);
        let mut left = nodes;
        let mut found = None;
        while let Some((node, rest)) = next(left) {
            match node {
                TreeNode::Branch {
                    production,
                    nodes: count,
                } => {
                    let (below, after) = rest.split_at(count as usize);
                    if production == productions::CLASS {
                        left = after;
                        if !are_lone(below) {
                            let here = self.again_in_class(alloc, reader, inner, below)?;
                            let within = self.again_within(alloc, reader, inner, below)?;
                            found = sooner(found, sooner(here, within));
                        }
                    } else if production == productions::METHOD {
                        left = after;
                    } else {
                        left = rest;
                    }
                }
                TreeNode::Leaf { .. } => left = rest,
            }
        }
        Ok(found)
    }

    // The same among the members of one class.
    fn again_in_class(
        &self,
        alloc: Global,
        reader: &Reader,
        depth: u8,
        class: &[TreeNode],
    ) -> Result<Option<u32>, NoMemory>
        requires forest { IsForest class.now }
        requires few { length class.now < 2 ^ 32 }
        ensures { (s : Source) (path : List TypeId) (f : Forest) → Serves (R.broken self.now.rule.now) self.now.scopes s → Reads reader.now s →
            depth ≡ min (length (class_around s path f).path) 101 → preorder f ≡ class.now → HasBodies s f →
            IfOk result (λ k. k ≡ least (members_twice_in s (class_around s path f) (members f))) }
    {
        orders_are_total();
        if !has_two(Level::Class, class) {
            return Ok(None);
        }
        let typars = typar_names(alloc, reader, class)?;
        let none = Declared::new(alloc);
        let place = Surrounding {
            depth,
            class,
            method: &[],
            class_typars: &typars,
            method_typars: &none,
            parameters: 0,
        };
        let first = self.again(alloc, reader, &place, Level::Class, class)?;
        Ok(first)
    }

    // The same among what stands side by side, of all kinds.
    fn again(
        &self,
        alloc: Global,
        reader: &Reader,
        place: &Surrounding,
        level: Level,
        nodes: &[TreeNode],
    ) -> Result<Option<u32>, NoMemory>
        requires { IsForest nodes.now }
        ensures { (s : Source) (a : Around) (f : Forest) → Serves (R.broken self.now.rule.now) self.now.scopes s → Reads reader.now s → IsSurrounding place.now a →
            HasParameters s place.now a → preorder f ≡ nodes.now → HasBodies s f → IfOk result (λ k. k ≡ least (members_twice_in s a (parts_at level f))) }
    {
        orders_are_total();
        if !has_two(level, nodes) {
            return Ok(None);
        }
        let field = self.again_of(alloc, reader, place, Kind::Field, level, nodes)?;
        let method = self.again_of(alloc, reader, place, Kind::Method, level, nodes)?;
        let property = self.again_of(alloc, reader, place, Kind::Property, level, nodes)?;
        let event = self.again_of(alloc, reader, place, Kind::Event, level, nodes)?;
        let last = sooner(property, event);
        let later = sooner(method, last);
        Ok(sooner(field, later))
    }

    // The same among what stands side by side, of one kind.
    fn again_of(
        &self,
        alloc: Global,
        reader: &Reader,
        place: &Surrounding,
        kind: Kind,
        level: Level,
        nodes: &[TreeNode],
    ) -> Result<Option<u32>, NoMemory>
        requires { IsForest nodes.now }
        ensures { (s : Source) (a : Around) (f : Forest) → Serves (R.broken self.now.rule.now) self.now.scopes s → Reads reader.now s → IsSurrounding place.now a →
            HasParameters s place.now a → preorder f ≡ nodes.now → HasBodies s f → IfOk result (λ k. k ≡ least (again_in s a kind (parts_at level f))) }
    {
        forests_join();
        let mut before = Members::new(alloc);
        let mut found = None;
        let mut left = nodes;
        while let Some(x) = open(left) {
            if level.is_place(x.node) {
                if kind.is_declared_by(x.node) {
                    let again = self.add(&mut before, alloc, reader, place, kind, x.below)?;
                    found = sooner(found, again);
                    left = x.after;
                } else {
                    left = x.after;
                }
            } else {
                left = x.behind;
            }
        }
        Ok(found)
    }

    // Adds the member that a declaration says; the token of its name, where it is the same as one before it.
    fn add(
        &self,
        before: &mut Members,
        alloc: Global,
        reader: &Reader,
        place: &Surrounding,
        kind: Kind,
        below: &[TreeNode],
    ) -> Result<Option<u32>, NoMemory>
        requires forest { IsForest below.now }
        requires few { length below.now < 2 ^ 32 }
        ensures { (s : Source) (a : Around) (b f : Forest) → Serves (R.broken self.now.rule.now) self.now.scopes s → Reads reader.now s → IsSurrounding place.now a →
            HasParameters s place.now a → preorder b ≡ below.now → f ≡ the (production_of kind) b → FitsBody s (production_of kind) f → HasBodies s f →
            IfOk result (λ k. IsPut (token_of kind f) (unbroken_member s a kind f) before.old before.new k) }
    {
        let own = the(below, kind.production());
        let member = self.member(alloc, reader, place, kind, own)?;
        put(before, member, kind.token(own))
    }
}

// Puts a member behind others; its token, where it is the same as one of them.
fn put(before: &mut Members, member: Option<Member>, token: u32) -> Result<Option<u32>, NoMemory>
    ensures { IfOk result (λ k. IsPut token member before.old before.new k) }
{
    match member {
        None => Ok(None),
        Some(member) => {
            let again = before.has(&member);
            before.push(member)?;
            Ok(token_if(again, token))
        }
    }
}

fn token_if(again: bool, token: u32) -> Option<u32>
    ensures { result ≡ least (if again then token ∷ [] else []) }
{
    if again { Some(token) } else { None }
}
