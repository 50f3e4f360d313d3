ghost use Rattle.std.specs.Prelude.{◌≡◌};
ghost use Rattle.std.specs.List.{list_all};
ghost use Rattle.assembly_tree.specs.WellFormedNames.{has_no_zero, is_name, is_type_id, is_module, is_system_object, is_module_path, is_declared, is_known, is_type_name};

use super::formed_parts::Formed;
use crate::Assembly;
use crate::sizes::type_at;
use il_lists::Text;
use type_terms::{Scope, TypeId, TypeName};

/// Whether the text has no zero byte.
pub fn has_no_zero(text: &Text) -> bool
    ensures { result ≡ has_no_zero text.now }
{
    text.as_bytes().iter().all(|byte| *byte > 0)
}

/// Whether the text is a name: not empty, and without a zero byte.
pub fn is_name(text: &Text) -> bool
    ensures { result ≡ is_name text.now }
{
    text.len() > 0 && has_no_zero(text)
}

/// Whether space and name are ones of a type.
pub fn is_type_id(id: &TypeId) -> bool
    ensures { result ≡ is_type_id id.now }
{
    has_no_zero(&id.space) && is_name(&id.name)
}

/// Whether the type is `<Module>`.
pub fn is_module(id: &TypeId) -> bool
    ensures { result ≡ is_module id.now }
{
    id.space.len() == 0 && id.name.as_str() == "<Module>"
}

/// Whether the type is `System.Object`.
pub fn is_system_object(id: &TypeId) -> bool
    ensures { result ≡ is_system_object id.now }
{
    id.space.as_str() == "System" && id.name.as_str() == "Object"
}

/// Whether the path is that of `<Module>`.
fn is_module_path(path: &[TypeId]) -> bool
    ensures { result ≡ is_module_path path.now }
{
    match path {
        [id] => is_module(id),
        _ => false,
    }
}

/// Whether the path leads to a type that `a` declares, or is `<Module>`.
fn is_declared(a: &Assembly, path: &[TypeId]) -> bool
    ensures { result ≡ is_declared a.now path.now }
{
    is_module_path(path) || type_at(a.types.as_slice(), path).is_some()
}

/// Whether the name is that of a type of `a`, or of an extern that `a` has.
fn is_known(a: &Assembly, name: &TypeName) -> bool
    ensures { result ≡ is_known a.now name.now }
{
    match name.scope {
        Scope::Here => is_declared(a, name.path.as_slice()),
        Scope::Extern(k) => (k as usize) < a.externs.len(),
    }
}

/// Whether each name in the path is one of a type.
fn are_type_ids(path: &[TypeId]) -> bool
    ensures { result ≡ list_all is_type_id path.now }
{
    path.iter().all(is_type_id)
}

impl Formed for TypeName {
    ghost formed = { is_type_name };

    #[tactic(auto, unfolding(crate::specs::WellFormedNames::is_type_name))]
    fn is_formed(&self, a: &Assembly) -> bool {
        self.path.len() <= 100 && are_type_ids(self.path.as_slice()) && is_known(a, self)
    }
}
