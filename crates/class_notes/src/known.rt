//! Which types are known.
ghost use Rattle.std.specs.Prelude.{◌≡◌, ◌<◌, ◌⊎◌, ◌↔◌, length, IsTrue, IfOk};
ghost use Rattle.type_hierarchy.specs.Hierarchy.{core_name, named, object};
ghost use Rattle.type_hierarchy.specs.Indexed.{KnowsTypes};
ghost use Rattle.type_hierarchy.specs.Names.{the_value_type};
ghost use Rattle.type_hierarchy.specs.World.{hierarchy, type_at, Stays};
ghost use Rattle.class_model.specs.Classes.{IsKnown};
ghost use Rattle.class_notes.specs.Cores.{IsCored};

use assembly_tree::Assembly;
use class_faces::declaration;
use il_lists::NoMemory;
use std::alloc::Global;
use type_hierarchy::core_types::system_name;
use type_order::types::World;
use type_order::{TypeKey, core_scope, keys_keep_their_types, primitive_key, type_key};
use type_terms::{Prim, SigType};

/// Whether the key's type is declared, or the core's Object or ValueType.
pub fn is_known(alloc: Global, a: &Assembly, w: &mut World, key: &TypeKey) -> Result<bool, NoMemory>
    requires key { key.now < length w.old.nodes }
    requires knows { KnowsTypes a.now w.old.tables }
    requires core { IsCored (hierarchy w.old) }
    ensures ok { IfOk result (λ r. IsTrue r ↔ IsKnown a.now (hierarchy w.old) (type_at w.old key.now)) }
    ensures stays { Stays w.old w.new }
{
    let declared = declaration(alloc, a, w, key)?;
    match declared {
        Some(_) => Ok(true),
        None => is_core_type(alloc, w, key),
    }
}

/// Whether the key's type is the core's Object or ValueType.
fn is_core_type(alloc: Global, w: &mut World, key: &TypeKey) -> Result<bool, NoMemory>
    requires key { key.now < length w.old.nodes }
    requires core { IsCored (hierarchy w.old) }
    ensures ok { IfOk result (λ r. IsTrue r ↔ ((type_at w.old key.now ≡ object) ⊎ (type_at w.old key.now ≡ named (hierarchy w.old) (core_name (hierarchy w.old) the_value_type)))) }
    ensures stays { Stays w.old w.new }
{
    keys_keep_their_types();
    let name = system_name(alloc, core_scope(w), "ValueType")?;
    let object = primitive_key(w, Prim::Object)?;
    let value = type_key(w, &SigType::Class(name))?;
    let is_object = w.pool().same(key.id(), object.id());
    let is_value = w.pool().same(key.id(), value.id());
    Ok(is_object || is_value)
}
