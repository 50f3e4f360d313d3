//! The declarations of types, by their keys, and the types of classes.
ghost use Rattle.std.specs.Prelude.{◌≡◌, ◌<◌, length, IfOk};
ghost use Rattle.std.specs.Option.{option_copied};
ghost use Rattle.sig_pool.specs.Pool.{Has};
ghost use Rattle.type_hierarchy.specs.Indexed.{KnowsTypes};
ghost use Rattle.type_hierarchy.specs.World.{hierarchy, type_at, Stays};
ghost use Rattle.type_order.specs.OwnTypes.{own_class, variables};
ghost use Rattle.class_model.specs.Classes.{declaration, own_type};

use assembly_tree::{Assembly, TypeDef};
use class_model::Row;
use il_lists::{Boxed, Copies, Items, NoMemory};
use sig_pool::Node;
use std::alloc::Global;
use type_hierarchy::core_types::class_name;
use type_order::types::World;
use type_order::{TypeKey, core_scope, type_key, type_named};
use type_terms::{Path, Scope, SigType, TypeName, Types};

/// The declaration of the key's type, where the image `a` of the world has one.
///
/// It takes the time of a look-up by hash for each name in the path.
pub fn declaration<'a>(
    alloc: Global,
    a: &'a Assembly,
    w: &World,
    key: &TypeKey,
) -> Result<Option<&'a TypeDef>, NoMemory>
    requires key { key.now < length w.now.nodes }
    requires knows { KnowsTypes a.now w.now.tables }
    ensures { IfOk result (λ d. option_copied d ≡ declaration a.now (hierarchy w.now) (type_at w.now key.now)) }
{
    match w.pool().node(key.id()) {
        Node::Class(name) => Ok(type_named(w, a, name)),
        Node::Value(name) => Ok(type_named(w, a, name)),
        Node::Inst { name, .. } => Ok(type_named(w, a, name)),
        Node::Prim(prim) => {
            let name = class_name(alloc, core_scope(w), *prim)?;
            Ok(type_named(w, a, &name))
        }
        Node::Var(_) => Ok(None),
        Node::MVar(_) => Ok(None),
        Node::SzArray(_) => Ok(None),
        Node::Array { .. } => Ok(None),
        Node::ByRef(_) => Ok(None),
        Node::Pointer(_) => Ok(None),
        Node::Mod { .. } => Ok(None),
        Node::Pinned(_) => Ok(None),
    }
}

/// The key of a class with its own parameters as arguments.
pub fn own_key(alloc: Global, w: &mut World, row: &Row) -> Result<TypeKey, NoMemory>
    ensures ok { IfOk result (λ k. Has w.new.nodes k (own_type (hierarchy w.old) row.now)) }
    ensures stays { Stays w.old w.new }
{
    let own = own_class(alloc, &row.path, row.parameters)?;
    type_key(w, &own)
}

/// A class with its own generic parameters as arguments (ECMA-335 II.9.4).
fn own_class(alloc: Global, path: &Path, parameters: u32) -> Result<SigType, NoMemory>
    ensures { IfOk result (λ t. t ≡ own_class path.now parameters) }
{
    let path = path.copy(alloc)?;
    let name = TypeName {
        scope: Scope::Here,
        path,
    };
    if parameters == 0 {
        return Ok(SigType::Class(name));
    }
    let args = own_parameters(alloc, parameters)?;
    let name = Boxed::new(alloc, name)?;
    let args = Boxed::new(alloc, args)?;
    Ok(SigType::Inst {
        value: false,
        name,
        args,
    })
}

/// The generic parameters of a class that has `count` of them, as types.
fn own_parameters(alloc: Global, count: u32) -> Result<Types, NoMemory>
    ensures { IfOk result (λ ts. ts ≡ variables 0 count) }
{
    let mut parameters = Items::new(alloc);
    for k in 0..count {
        parameters.push(SigType::Var(k))?;
    }
    Ok(parameters)
}
