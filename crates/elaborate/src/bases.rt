//! The bases of classes (ECMA-335 II.10.1.3).

ghost use Rattle.std.specs.Prelude.{◌≡◌, ◌++◌, ◌∷◌, [], IfOk, List};
ghost use Rattle.elaborate.specs.Bases.{is_outside};
ghost use Rattle.source_flags.specs.InRange.{AllInRange};
ghost use Rattle.source_model.specs.Classes.{base, core_scope, is_interface, is_root, named_object};
ghost use Rattle.source_model.specs.Forest.{Forest, preorder};
ghost use Rattle.source_model.specs.Nodes.{Around};
ghost use Rattle.source_model.specs.Source.{Source};
ghost use Rattle.source_syntax.specs.Places.{IsAt};
ghost use Rattle.source_nodes.specs.Walk.{IsForest};
ghost use Rattle.type_terms.specs.declared.name.TypeId.{TypeId};

use crate::cores::object_id;
use il_base::NoMemory;
use ilasm_grammar::TreeNode;
use ilasm_grammar::productions::{EXTENDS, EXTENDS_OPT_SOME};
use source_nodes::walk::{child, has};
use source_syntax::place::Place;
use std::alloc::Global;
use type_terms::{Owner, Path, Scope, TypeId, TypeName};

/// The base of a class, from what stands below its production, where `System.Object` stands, and whether the class is that one or
/// an interface. An interface has none, whatever it names.
pub fn base(
    alloc: Global,
    place: &Place,
    nodes: &[TreeNode],
    core: Option<Scope>,
    root: bool,
    interface: bool,
) -> Result<Option<Owner>, NoMemory>
    requires { IsForest nodes.now }
    ensures { (s : Source) (a : Around) → IsAt place.now s a → (f : Forest) → preorder f ≡ nodes.now → AllInRange s f → core ≡ core_scope s →
        root ≡ is_root a.path → interface ≡ is_interface s f → IfOk result (λ owner. owner ≡ base s a f) }
{
    if interface {
        return Ok(None);
    }
    let written = child(nodes, EXTENDS_OPT_SOME);
    if has(written, EXTENDS) {
        let owner = place.first_owner(alloc, written)?;
        return Ok(Some(owner));
    }
    if root {
        return Ok(None);
    }
    named_object(alloc, core)
}

// `System.Object`, where it stands.
fn named_object(alloc: Global, core: Option<Scope>) -> Result<Option<Owner>, NoMemory>
    ensures { IfOk result (λ owner. owner ≡ named_object core) }
{
    let Some(scope) = core else {
        return Ok(None);
    };
    let id = object_id(alloc)?;
    let path = Path::new(alloc, id)?;
    Ok(Some(Owner::Name(TypeName { scope, path })))
}

/// Whether a class with a name, outside of all classes or in some, is the root of all classes.
pub fn is_root(outside: bool, id: &TypeId) -> bool
    ensures { (path : List TypeId) → outside ≡ is_outside path → result ≡ is_root (path ++ id.now ∷ []) }
{
    outside && is_object(id)
}

fn is_object(id: &TypeId) -> bool
    ensures { result ≡ is_root (id.now ∷ []) }
{
    id.space.as_bytes() == "System".as_bytes() && id.name.as_bytes() == "Object".as_bytes()
}
