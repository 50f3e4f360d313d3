//! Types and assemblies that are named and not declared (ECMA-335 II.6.2, II.7.3).

ghost use Rattle.std.specs.Prelude.{◌≡◌, ℕ, ◌∷◌, [], All, IfOk, None, Option, Some, is_some, map};
ghost use Rattle.il_lexer.specs.declared.types.TokenKind.TheVariants as kind;
ghost use Rattle.type_terms.specs.declared.name.Scope.{Scope};
ghost use Rattle.type_terms.specs.declared.name.Scope.TheVariants.{Here};
ghost use Rattle.source_model.specs.Names.{or_here, written_name};
ghost use Rattle.source_model.specs.Nodes.{type_id};
ghost use Rattle.source_model.specs.Source.{Source};
ghost use Rattle.source_model.specs.TypeRules.{scope_token_unless};
ghost use Rattle.source_model.specs.Undeclared.{scopes_undeclared, types_undeclared};
ghost use Rattle.source_syntax.specs.ClassNumbers.{class_in, class_numbered};
ghost use Rattle.check_names.specs.DeclaredClasses.{AreClasses};
ghost use Rattle.source_nodes.specs.Least.{least};
ghost use Rattle.check_names.specs.NamedTypes.{is_first, path_missing, scope_by, scope_missing_in, standing_of, type_missing_in, written_scope_by};
ghost use Rattle.source_syntax.specs.Namings.{AreNames};
ghost use Rattle.source_nodes.specs.Readers.{IsOf, Reads};
ghost use Rattle.source_nodes.specs.Walk.{IsForest};
ghost use Rattle.source_syntax.specs.declared.name_lists.Naming.TheVariants as naming;

use crate::class_rules::Classes;
use crate::written::written_name;
use check_visitor::asking::{Rule, Surrounding, first_at_all};
use il_base::NoMemory;
use ilasm_grammar::TreeNode;
use source_nodes::reader::Reader;
use source_syntax::class_paths::ClassPaths;
use source_syntax::declared::Declared;
use source_syntax::name_lists::Named;
use std::alloc::Global;

/// Which assembly a name in brackets stands for.
#[derive(Debug, Clone, Copy, PartialEq, Eq, Drop)]
pub enum Standing {
    /// This one.
    Here,
    /// A referenced one.
    Elsewhere,
    /// None that is declared.
    Nowhere,
}

/// The least first name of a path that no class of the source has.
pub fn type_undeclared(
    alloc: Global,
    reader: &Reader,
    externs: &Named,
    own: &Named,
    classes: &Classes,
) -> Result<Option<u32>, NoMemory>
    requires { IsForest reader.now.nodes.now }
    ensures { (s : Source) → Reads reader.now s → AreNames s naming.Assembly externs.now → AreNames s naming.Own own.now → AreClasses s classes.now →
        IfOk result (λ k. k ≡ least (types_undeclared s)) }
{
    let scopes = Scopes {
        keys: &externs.names,
        own: &own.names,
    };
    let rule = Types {
        scopes,
        classes: &classes.paths,
    };
    let first = first_at_all(&rule, alloc, reader)?;
    Ok(first)
}

/// The least name in brackets that is no assembly's.
pub fn scope_undeclared(
    alloc: Global,
    reader: &Reader,
    externs: &Named,
    own: &Named,
) -> Result<Option<u32>, NoMemory>
    requires { IsForest reader.now.nodes.now }
    ensures { (s : Source) → Reads reader.now s → AreNames s naming.Assembly externs.now → AreNames s naming.Own own.now →
        IfOk result (λ k. k ≡ least (scopes_undeclared s)) }
{
    let scopes = Scopes {
        keys: &externs.names,
        own: &own.names,
    };
    let first = first_at_all(&scopes, alloc, reader)?;
    Ok(first)
}

/// Names in brackets are those of assemblies: the keys of the referenced ones, and the names of this one, of which the first
/// counts.
#[derive(Clone, Copy)]
pub struct Scopes<'a> {
    pub keys: &'a Declared,
    pub own: &'a Declared,
}

/// Paths of this assembly are those of its classes.
#[derive(Clone, Copy)]
pub struct Types<'a> {
    pub scopes: Scopes<'a>,
    pub classes: &'a ClassPaths,
}

impl<'a> Scopes<'a> {
    // What a text in brackets stands for.
    fn named(&self, text: &[u8]) -> Standing
        ensures { result ≡ standing_of (scope_by self.now.keys.now self.now.own.now text.now) }
    {
        match self.keys.find(text) {
            Some(_) => Standing::Elsewhere,
            None => here_if(self.is_own(text)),
        }
    }

    // Whether a text is the name of this assembly.
    fn is_own(&self, text: &[u8]) -> bool
        ensures { result ≡ is_first self.now.own.now text.now }
    {
        match self.own.find(text) {
            Some(place) => place == 0,
            None => false,
        }
    }

    /// What the name of an assembly in brackets stands for; without one it is this assembly.
    pub fn written(
        &self,
        alloc: Global,
        reader: &Reader,
        scope: Option<u32>,
    ) -> Result<Standing, NoMemory>
        ensures { (s : Source) → Reads reader.now s → ((k : ℕ) → scope ≡ Some k → IsOf s kind.Scope k) →
            IfOk result (λ x. x ≡ standing_of (written_scope_by self.now.keys.now self.now.own.now s scope)) }
    {
        match scope {
            None => Ok(Standing::Here),
            Some(token) => {
                let text = reader.scope_text(alloc, token)?;
                Ok(self.named(text.as_bytes()))
            }
        }
    }
}

// This assembly, or none.
fn here_if(own: bool) -> Standing
    ensures { result ≡ standing_of (or_here own None) }
{
    if own {
        Standing::Here
    } else {
        Standing::Nowhere
    }
}

impl<'a> Rule for Scopes<'a> {
    ghost broken = { λ rule s n. scope_missing_in rule.keys.now rule.own.now s (written_name n.production n.below) };

    fn first(
        &self,
        alloc: Global,
        reader: &Reader,
        _place: &Surrounding,
        production: u16,
        below: &[TreeNode],
    ) -> Result<Option<u32>, NoMemory> {
        let name = written_name(alloc, production, below)?;
        match name {
            None => Ok(None),
            Some(name) => {
                let standing = self.written(alloc, reader, name.scope)?;
                Ok(unless_known(standing, name.scope))
            }
        }
    }
}

/// The token of an assembly's name, unless that stands for one.
pub fn unless_known(standing: Standing, scope: Option<u32>) -> Option<u32>
    ensures { (known : Option Scope) → standing ≡ standing_of known → result ≡ least (scope_token_unless (is_some known) scope) }
{
    match standing {
        Standing::Here | Standing::Elsewhere => None,
        Standing::Nowhere => scope,
    }
}

impl<'a> Rule for Types<'a> {
    ghost broken = { λ rule s n. type_missing_in rule.scopes.keys.now rule.scopes.own.now rule.classes.now s (written_name n.production n.below) };

    fn first(
        &self,
        alloc: Global,
        reader: &Reader,
        _place: &Surrounding,
        production: u16,
        below: &[TreeNode],
    ) -> Result<Option<u32>, NoMemory> {
        let name = written_name(alloc, production, below)?;
        match name {
            None => Ok(None),
            Some(name) => {
                let standing = self.scopes.written(alloc, reader, name.scope)?;
                missing(alloc, reader, self.classes, standing, name.path.as_slice())
            }
        }
    }
}

/// The first name of a path in this assembly that no class has.
pub fn missing(
    alloc: Global,
    reader: &Reader,
    classes: &ClassPaths,
    standing: Standing,
    path: &[u32],
) -> Result<Option<u32>, NoMemory>
    ensures { (s : Source) (scope : Option Scope) → Reads reader.now s → All (IsOf s kind.Name) path.now → standing ≡ standing_of scope →
        IfOk result (λ k. k ≡ least (path_missing classes.now s path.now scope)) }
{
    match standing {
        Standing::Here => unless_declared(alloc, reader, classes, path),
        Standing::Elsewhere | Standing::Nowhere => Ok(None),
    }
}

/// The name of a path that is that name alone and stands in this assembly, where no class has it.
pub fn lone_missing(
    alloc: Global,
    reader: &Reader,
    classes: &ClassPaths,
    token: u32,
) -> Result<Option<u32>, NoMemory>
    ensures { (s : Source) → Reads reader.now s → IsOf s kind.Name token → IfOk result (λ k. k ≡ least (path_missing classes.now s (token ∷ []) (Some Here))) }
{
    let number = class_within(alloc, reader, classes, 0, token)?;
    match number {
        Some(_) => Ok(None),
        None => Ok(Some(token)),
    }
}

// The first name of a path that no class has.
fn unless_declared(
    alloc: Global,
    reader: &Reader,
    classes: &ClassPaths,
    path: &[u32],
) -> Result<Option<u32>, NoMemory>
    ensures { (s : Source) → Reads reader.now s → All (IsOf s kind.Name) path.now → IfOk result (λ k. k ≡ least (path_missing classes.now s path.now (Some Here))) }
{
    match path {
        [] => Ok(None),
        [first, ..] => {
            if is_declared(alloc, reader, classes, path)? {
                Ok(None)
            } else {
                Ok(Some(*first))
            }
        }
    }
}

// Whether a class has this path.
fn is_declared(
    alloc: Global,
    reader: &Reader,
    classes: &ClassPaths,
    path: &[u32],
) -> Result<bool, NoMemory>
    ensures { (s : Source) → Reads reader.now s → All (IsOf s kind.Name) path.now → IfOk result (λ known. known ≡ is_some (class_numbered classes.now (map (type_id s) path.now))) }
{
    let mut at = 0;
    let mut k = 0;
    while k < path.len() {
        match class_within(alloc, reader, classes, at, path[k])? {
            Some(number) => at = number,
            None => return Ok(false),
        }
        k += 1;
    }
    Ok(true)
}

// The number of the class with a name in the class of a number.
fn class_within(
    alloc: Global,
    reader: &Reader,
    classes: &ClassPaths,
    outer: usize,
    token: u32,
) -> Result<Option<usize>, NoMemory>
    ensures { (s : Source) → Reads reader.now s → IsOf s kind.Name token → IfOk result (λ number. number ≡ class_in classes.now (type_id s token) outer) }
{
    if let Some(id) = reader.plain_id(token) {
        return Ok(classes.child_named(outer, id.space, id.name));
    }
    let id = reader.type_id(alloc, token)?;
    Ok(classes.child(outer, &id))
}
