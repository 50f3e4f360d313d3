//! All rules that are asked of each production by itself, in one pass over a source (ECMA-335 II.5.8, II.6.2, II.7.3, II.10,
//! II.15, II.16.3, II.23.2).

ghost use Rattle.std.specs.Prelude.{◌≡◌, IfOk, true};
ghost use Rattle.source_model.specs.Forest.{Forest, is_among, preorder};
ghost use Rattle.source_model.specs.Nodes.{Node, nothing_around};
ghost use Rattle.source_model.specs.Source.{Source};
ghost use Rattle.source_nodes.specs.Derived.{FitsBody, HasBodies};
ghost use Rattle.source_nodes.specs.Least.{least};
ghost use Rattle.source_nodes.specs.Readers.{Reads};
ghost use Rattle.source_nodes.specs.Walk.{IsForest};
ghost use Rattle.check_names.specs.Asked.{named};
ghost use Rattle.check_names.specs.AllOfParts.{broken_at, name_broken};
ghost use Rattle.check_visitor.specs.Surroundings.{IsDerived, IsNode, found_in};

use crate::asked::{is_asked, is_named};
use crate::class_rules::Classes;
use crate::named_types::{Scopes, Types, lone_missing, missing, unless_known};
use crate::nestings::{Nestings, deep_class, long_path};
use crate::out_of_range::Numbers;
use crate::undeclared::{Labels, Typars};
use crate::written::written_name;
use check_visitor::asking::{Rule, Surrounding, first_outside};
use check_visitor::counts::argument_past_most;
use il_base::NoMemory;
use ilasm_grammar::{TreeNode, productions};
use source_nodes::least::sooner;
use source_nodes::reader::Reader;
use source_nodes::walk::{child, has, leaf_at};
use source_syntax::name_lists::Named;
use std::alloc::Global;

/// The least token at which a production among these nodes, which stand in no class and no method, breaks any of these rules.
pub fn part_fault(
    alloc: Global,
    reader: &Reader,
    externs: &Named,
    own: &Named,
    classes: &Classes,
    labels: &Named,
    nodes: &[TreeNode],
) -> Result<Option<u32>, NoMemory>
    requires { IsForest nodes.now }
    ensures { (s : Source) (f : Forest) → Reads reader.now s → preorder f ≡ nodes.now → HasBodies s f →
        IfOk result (λ k. k ≡ least (found_in (broken_at externs.now.names own.now.names classes.now.paths labels.now.names) s nothing_around f)) }
{
    let scopes = Scopes {
        keys: &externs.names,
        own: &own.names,
    };
    let types = Types {
        scopes,
        classes: &classes.paths,
    };
    let labels = Labels {
        names: &labels.names,
    };
    let rule = AllOfParts { types, labels };
    let first = first_outside(&rule, alloc, reader, nodes)?;
    Ok(first)
}

// All rules of productions.
#[derive(Clone, Copy)]
struct AllOfParts<'a> {
    types: Types<'a>,
    labels: Labels<'a>,
}

impl<'a> Rule for AllOfParts<'a> {
    ghost broken = { λ rule s n. broken_at rule.types.scopes.keys.now rule.types.scopes.own.now rule.types.classes.now rule.labels.names.now s n };

    fn speaks_of(&self, production: u16) -> bool {
        is_asked(production)
    }

    fn first(
        &self,
        alloc: Global,
        reader: &Reader,
        place: &Surrounding,
        production: u16,
        below: &[TreeNode],
    ) -> Result<Option<u32>, NoMemory> {
        if is_named(production) {
            return self.first_named(alloc, reader, production, below);
        }
        if production == productions::METHOD {
            return Ok(None);
        }
        if production == productions::CLASS {
            return Ok(deep_class(place, production, below));
        }
        if production == productions::DEF_ARGS {
            return Ok(argument_past_most(production, below));
        }
        if !is_asked(production) {
            return Ok(None);
        }
        self.first_asked(alloc, reader, place, production, below)
    }
}

impl<'a> AllOfParts<'a> {
    // The same of one that begins with a type's name: only the rules of names and of paths speak of it.
    fn first_named(
        &self,
        alloc: Global,
        reader: &Reader,
        production: u16,
        below: &[TreeNode],
    ) -> Result<Option<u32>, NoMemory>
        requires { IsForest below.now }
        ensures { (s : Source) (n : Node) → Reads reader.now s → n.production ≡ production → preorder n.below ≡ below.now →
            FitsBody s n.production n.below → HasBodies s n.below → is_among named production ≡ true →
            IfOk result (λ k. k ≡ least (broken_at self.now.types.scopes.keys.now self.now.types.scopes.own.now self.now.types.classes.now self.now.labels.names.now s n)) }
    {
        if production != productions::TYPE_NAME_PATH {
            return self.first_in_path(alloc, reader, production, below);
        }
        let path = child(below, productions::PATH);
        if has(path, productions::SLASH_NAME) {
            return self.first_in_path(alloc, reader, production, below);
        }
        let first = lone_missing(alloc, reader, self.types.classes, leaf_at(path, 0))?;
        Ok(first)
    }

    // The same, of a path of any number of names.
    fn first_in_path(
        &self,
        alloc: Global,
        reader: &Reader,
        production: u16,
        below: &[TreeNode],
    ) -> Result<Option<u32>, NoMemory>
        requires { IsForest below.now }
        ensures { (s : Source) (n : Node) → Reads reader.now s → n.production ≡ production → preorder n.below ≡ below.now →
            FitsBody s n.production n.below → HasBodies s n.below → is_among named production ≡ true →
            IfOk result (λ k. k ≡ least (broken_at self.now.types.scopes.keys.now self.now.types.scopes.own.now self.now.types.classes.now self.now.labels.names.now s n)) }
    {
        let name = name_fault(&self.types, alloc, reader, production, below)?;
        let path = long_path(alloc, production, below)?;
        Ok(sooner(name, path))
    }

    // The least token at which a production breaks one of them.
    fn first_asked(
        &self,
        alloc: Global,
        reader: &Reader,
        place: &Surrounding,
        production: u16,
        below: &[TreeNode],
    ) -> Result<Option<u32>, NoMemory>
        requires { IsForest below.now }
        ensures { (s : Source) (n : Node) → Reads reader.now s → IsNode place.now production below.now n → IsDerived s place.now n →
            IfOk result (λ k. k ≡ least (broken_at self.now.types.scopes.keys.now self.now.types.scopes.own.now self.now.types.classes.now self.now.labels.names.now s n)) }
    {
        let name = name_fault(&self.types, alloc, reader, production, below)?;
        let typar = Typars.first(alloc, reader, place, production, below)?;
        let label = self.labels.first(alloc, reader, place, production, below)?;
        let number = Numbers.first(alloc, reader, place, production, below)?;
        let nesting = Nestings.first(alloc, reader, place, production, below)?;
        let to_typar = sooner(name, typar);
        let to_label = sooner(to_typar, label);
        let to_number = sooner(to_label, number);
        Ok(sooner(to_number, nesting))
    }
}

// What is at fault in the type's name that a production begins with.
fn name_fault(
    types: &Types,
    alloc: Global,
    reader: &Reader,
    production: u16,
    below: &[TreeNode],
) -> Result<Option<u32>, NoMemory>
    requires { IsForest below.now }
    ensures { (s : Source) (n : Node) → Reads reader.now s → n.production ≡ production → preorder n.below ≡ below.now →
        FitsBody s n.production n.below → HasBodies s n.below →
        IfOk result (λ k. k ≡ least (name_broken types.now.scopes.keys.now types.now.scopes.own.now types.now.classes.now s n)) }
{
    let name = written_name(alloc, production, below)?;
    match name {
        None => Ok(None),
        Some(name) => {
            let standing = types.scopes.written(alloc, reader, name.scope)?;
            let path = name.path.as_slice();
            let absent = missing(alloc, reader, types.classes, standing, path)?;
            let unknown = unless_known(standing, name.scope);
            Ok(sooner(absent, unknown))
        }
    }
}
