//! Where types are written, and what their names stand for there (ECMA-335 II.7.3, II.8.5.2).

ghost use Rattle.std.specs.Prelude.{◌≡◌, ◌++◌, IfOk, map, Some};
ghost use Rattle.il_lexer.specs.declared.types.TokenKind.TheVariants as kind;
ghost use Rattle.ilasm_grammar.specs.declared.productions.TheConstants.{PATH, SLASH_NAME, TYPE_NAME_PATH};
ghost use Rattle.source_model.specs.Forest.{Forest, each, leaf_at, preorder};
ghost use Rattle.source_model.specs.Names.{module_name, or_scope, path_tokens, scope_named, type_name, type_named, with_scope, without_scope, written_scope};
ghost use Rattle.source_model.specs.Nodes.{Around, type_id};
ghost use Rattle.source_model.specs.Source.{Source};
ghost use Rattle.source_nodes.specs.Derived.{FitsBody, HasBodies};
ghost use Rattle.source_syntax.specs.Places.{IsAt};
ghost use Rattle.source_nodes.specs.Readers.{IsOf};
ghost use Rattle.source_syntax.specs.Sound.{HasPath};
ghost use Rattle.source_nodes.specs.Walk.{IsForest};

use crate::declared::Declared;
use il_base::{NoMemory, Text};
use ilasm_grammar::TreeNode;
use ilasm_grammar::productions::{PATH, SLASH_NAME, TYPE_NAME_PATH, TYPE_NAME_SCOPE};
use source_model::forests_join;
use source_nodes::narrowing::word_of;
use source_nodes::reader::Reader;
use source_nodes::walk::{child, has, is_of, leaf_at, open};
use std::alloc::Global;
use type_terms::{Path, Scope, TypeId, TypeName};

/// A place in a source: the keys of the source's assemblies, and the names of the generic parameters of the class and of the
/// method that are around it.
#[derive(Clone, Copy)]
pub struct Place<'a> {
    pub reader: Reader<'a>,
    pub keys: &'a Declared,
    pub class: &'a Declared,
    pub method: &'a Declared,
}

impl<'a> Place<'a> {
    /// The assembly with a key; where there is none, this one.
    fn scope_named(&self, key: &[u8]) -> Scope
        ensures { (s : Source) (a : Around) → IsAt self.now s a → result ≡ or_scope (scope_named s key.now) }
    {
        match self.keys.find(key) {
            Some(k) => Scope::Extern(word_of(k)),
            None => Scope::Here,
        }
    }

    /// The assembly that a name in brackets stands for.
    fn scope_at(&self, alloc: Global, token: u32) -> Result<Scope, NoMemory>
        ensures { (s : Source) (a : Around) → IsAt self.now s a → IsOf s kind.Scope token → IfOk result (λ scope. scope ≡ or_scope (written_scope s (Some token))) }
    {
        let key = self.reader.scope_text(alloc, token)?;
        Ok(self.scope_named(key.as_bytes()))
    }

    /// A path, from what stands below its production.
    fn path(&self, alloc: Global, nodes: &[TreeNode]) -> Result<Path, NoMemory>
        requires { IsForest nodes.now }
        ensures { (s : Source) (a : Around) → IsAt self.now s a → (f : Forest) → preorder f ≡ nodes.now → FitsBody s PATH f → HasBodies s f →
            IfOk result (λ path. path ≡ map (type_id s) (path_tokens f)) }
    {
        let first = self.reader.type_id(alloc, leaf_at(nodes, 0))?;
        let path = Path::new(alloc, first)?;
        if has(nodes, SLASH_NAME) {
            return self.with_names(alloc, path, nodes);
        }
        Ok(path)
    }

    /// A path with the names behind it that stand in a forest, each after a `/`.
    #[inline(never)]
    pub fn with_names(
        &self,
        alloc: Global,
        path: Path,
        nodes: &[TreeNode],
    ) -> Result<Path, NoMemory>
        requires { IsForest nodes.now }
        ensures { (s : Source) (a : Around) → IsAt self.now s a → (f : Forest) → preorder f ≡ nodes.now → HasBodies s f →
            IfOk result (λ longer. longer ≡ path ++ map (type_id s) (map (λ g. leaf_at 1 g) (each SLASH_NAME f))) }
    {
        forests_join();
        let mut longer = path;
        let mut left = nodes;
        while let Some(x) = open(left) {
            if is_of(x.node, SLASH_NAME) {
                let id = self.reader.type_id(alloc, leaf_at(x.below, 1))?;
                longer.push(id)?;
                left = x.after;
            } else {
                left = x.behind;
            }
        }
        Ok(longer)
    }

    /// A type's name with the name of an assembly.
    pub fn name_with_scope(&self, alloc: Global, nodes: &[TreeNode]) -> Result<TypeName, NoMemory>
        requires { IsForest nodes.now }
        ensures { (s : Source) (a : Around) → IsAt self.now s a → (f : Forest) → preorder f ≡ nodes.now → IsOf s kind.Scope (leaf_at 0 f) → HasPath s f →
            IfOk result (λ name. name ≡ type_named s (with_scope f)) }
    {
        let scope = self.scope_at(alloc, leaf_at(nodes, 0))?;
        let path = self.path(alloc, child(nodes, PATH))?;
        Ok(TypeName { scope, path })
    }

    /// A type's name alone.
    pub fn name_without_scope(
        &self,
        alloc: Global,
        nodes: &[TreeNode],
    ) -> Result<TypeName, NoMemory>
        requires { IsForest nodes.now }
        ensures { (s : Source) (a : Around) → IsAt self.now s a → (f : Forest) → preorder f ≡ nodes.now → FitsBody s TYPE_NAME_PATH f → HasBodies s f →
            IfOk result (λ name. name ≡ type_named s (without_scope f)) }
    {
        let path = self.path(alloc, child(nodes, PATH))?;
        Ok(TypeName {
            scope: Scope::Here,
            path,
        })
    }

    /// The first type's name in a forest; where there is none, that of the class of what stands outside of any class.
    pub fn type_name(&self, alloc: Global, nodes: &[TreeNode]) -> Result<TypeName, NoMemory>
        requires { IsForest nodes.now }
        ensures { (s : Source) (a : Around) → IsAt self.now s a → (f : Forest) → preorder f ≡ nodes.now → HasBodies s f →
            IfOk result (λ name. name ≡ type_name s f) }
    {
        forests_join();
        let mut left = nodes;
        while let Some(x) = open(left) {
            if is_of(x.node, TYPE_NAME_SCOPE) {
                return self.name_with_scope(alloc, x.below);
            }
            if is_of(x.node, TYPE_NAME_PATH) {
                return self.name_without_scope(alloc, x.below);
            }
            left = x.behind;
        }
        module_name(alloc)
    }
}

/// The name of the class that holds what is declared outside of any class (ECMA-335 II.10.8).
pub fn module_name(alloc: Global) -> Result<TypeName, NoMemory>
    ensures { IfOk result (λ name. name ≡ module_name) }
{
    let space = Text::new(alloc, "")?;
    let name = Text::new(alloc, "<Module>")?;
    let path = Path::new(alloc, TypeId { space, name })?;
    Ok(TypeName {
        scope: Scope::Here,
        path,
    })
}
