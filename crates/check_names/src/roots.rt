//! Classes that would have `System.Object` as their base where that stands nowhere (ECMA-335 II.10.1.3, IV.5).

ghost use Rattle.std.specs.Prelude.{◌≡◌, ◌∷◌, [], IfOk, bytes_eq, if◌then◌else◌, is_some};
ghost use Rattle.std.specs.List.{list_any};
ghost use Rattle.il_lexer.specs.declared.types.TokenKind.TheVariants as kind;
ghost use Rattle.ilasm_grammar.specs.declared.productions.TheConstants.{CLASS, EXTENDS, EXTENDS_OPT_SOME};
ghost use Rattle.source_model.specs.Classes.{core_names, core_scope, is_core, is_root, system_object};
ghost use Rattle.source_model.specs.Forest.{Forest, child, has, preorder};
ghost use Rattle.source_model.specs.Names.{externs};
ghost use Rattle.source_model.specs.Nodes.{Node, class_token};
ghost use Rattle.source_model.specs.Source.{Source};
ghost use Rattle.source_model.specs.Undeclared.{objects_undeclared};
ghost use Rattle.source_model.specs.Values.{name_text};
ghost use Rattle.source_nodes.specs.Least.{least};
ghost use Rattle.source_nodes.specs.Readers.{IsOf, Reads};
ghost use Rattle.source_nodes.specs.Walk.{IsForest};
ghost use Rattle.check_names.specs.DeclaredClasses.{AreClasses};
ghost use Rattle.check_names.specs.Roots.{is_root_named, is_rootless, rootless};
ghost use Rattle.check_visitor.specs.Surroundings.{IsDerived, IsNode};

use crate::class_rules::Classes;
use check_visitor::asking::{Rule, Surrounding, first_at_all};
use il_base::{NoMemory, Text};
use ilasm_grammar::TreeNode;
use ilasm_grammar::productions::{ASSEMBLY_EXTERN, CLASS, EXTENDS, EXTENDS_OPT_SOME};
use source_flags::declared_flags::is_interface;
use source_model::forests_join;
use source_nodes::derived::derivations_have_bodies;
use source_nodes::reader::Reader;
use source_nodes::walk::{child, has, is_of, leaf_at, open};
use std::alloc::Global;
use type_terms::TypeId;

/// The least name of a class that would have `System.Object` as its base, where that stands nowhere.
pub fn object_undeclared(
    alloc: Global,
    reader: &Reader,
    classes: &Classes,
) -> Result<Option<u32>, NoMemory>
    requires { IsForest reader.now.nodes.now }
    ensures { (s : Source) → Reads reader.now s → AreClasses s classes.now → IfOk result (λ k. k ≡ least (objects_undeclared s)) }
{
    if has_object(alloc, reader, classes)? {
        return Ok(None);
    }
    let first = first_at_all(&Rootless, alloc, reader)?;
    Ok(first)
}

// Whether `System.Object` stands in an assembly with a core name, or in the source.
fn has_object(alloc: Global, reader: &Reader, classes: &Classes) -> Result<bool, NoMemory>
    requires { IsForest reader.now.nodes.now }
    ensures { (s : Source) → Reads reader.now s → AreClasses s classes.now → IfOk result (λ b. b ≡ is_some (core_scope s)) }
{
    if has_core(alloc, reader)? {
        return Ok(true);
    }
    let object = object_id(alloc)?;
    Ok(classes.paths.child(0, &object).is_some())
}

// Whether a referenced assembly has a core name.
fn has_core(alloc: Global, reader: &Reader) -> Result<bool, NoMemory>
    requires { IsForest reader.now.nodes.now }
    ensures { (s : Source) → Reads reader.now s → IfOk result (λ b. b ≡ list_any (is_core s) (externs s)) }
{
    derivations_have_bodies();
    forests_join();
    let mut left = reader.nodes;
    while let Some(x) = open(left) {
        if is_of(x.node, ASSEMBLY_EXTERN) {
            let core = has_core_name(alloc, reader, leaf_at(x.below, 1))?;
            if core {
                return Ok(true);
            }
            left = x.after;
        } else {
            left = x.behind;
        }
    }
    Ok(false)
}

// Whether a token is a core name.
fn has_core_name(alloc: Global, reader: &Reader, token: u32) -> Result<bool, NoMemory>
    ensures { (s : Source) → Reads reader.now s → IsOf s kind.Name token → IfOk result (λ b. b ≡ list_any (bytes_eq (name_text s token)) core_names) }
{
    let name = reader.name_text(alloc, token)?;
    Ok(is_core_name(name.as_bytes()))
}

fn is_core_name(name: &[u8]) -> bool
    ensures { result ≡ list_any (bytes_eq name.now) core_names }
{
    name == "mscorlib".as_bytes()
        || name == "System.Runtime".as_bytes()
        || name == "System.Private.CoreLib".as_bytes()
        || name == "netstandard".as_bytes()
}

// The name of the root of all classes.
fn object_id(alloc: Global) -> Result<TypeId, NoMemory>
    ensures { IfOk result (λ id. system_object ≡ id ∷ []) }
{
    let space = Text::new(alloc, "System")?;
    let name = Text::new(alloc, "Object")?;
    Ok(TypeId { space, name })
}

// Classes without a base of their own that aren't the root of all classes.
struct Rootless;

impl Rule for Rootless {
    ghost broken = { λ _ s n. rootless s n };

    fn first(
        &self,
        alloc: Global,
        reader: &Reader,
        place: &Surrounding,
        production: u16,
        below: &[TreeNode],
    ) -> Result<Option<u32>, NoMemory> {
        match production {
            CLASS => unless_based(alloc, reader, place, below),
            _ => Ok(None),
        }
    }
}

// The name of a class, unless it has a base of its own or needs none.
fn unless_based(
    alloc: Global,
    reader: &Reader,
    place: &Surrounding,
    below: &[TreeNode],
) -> Result<Option<u32>, NoMemory>
    requires { IsForest below.now }
    ensures { (s : Source) (n : Node) → Reads reader.now s → IsNode place.now CLASS below.now n → IsDerived s place.now n →
        IfOk result (λ k. k ≡ least (if is_rootless s n then class_token n.below ∷ [] else [])) }
{
    if is_interface(reader, below) || has_base(below) {
        return Ok(None);
    }
    let name = leaf_at(below, 1);
    if is_root(alloc, reader, place.depth, name)? {
        return Ok(None);
    }
    Ok(Some(name))
}

// Whether a class names a base of its own, from what stands below its production.
fn has_base(class: &[TreeNode]) -> bool
    requires { IsForest class.now }
    ensures { (f : Forest) → preorder f ≡ class.now → result ≡ has EXTENDS (child (EXTENDS_OPT_SOME ∷ []) f) }
{
    has(child(class, EXTENDS_OPT_SOME), EXTENDS)
}

// Whether a class with so many classes around its parts and this name is the root of all classes.
fn is_root(alloc: Global, reader: &Reader, depth: u8, token: u32) -> Result<bool, NoMemory>
    ensures { (s : Source) → Reads reader.now s → IsOf s kind.Name token → IfOk result (λ b. b ≡ is_root_named s depth token) }
{
    if depth != 1 {
        return Ok(false);
    }
    let id = reader.type_id(alloc, token)?;
    Ok(is_object(&id))
}

fn is_object(id: &TypeId) -> bool
    ensures { result ≡ is_root (id.now ∷ []) }
{
    id.space.as_bytes() == "System".as_bytes() && id.name.as_bytes() == "Object".as_bytes()
}
