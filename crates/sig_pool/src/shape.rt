ghost use Rattle.std.specs.Prelude.{◌≡◌, ◌++◌, ◌∷◌, [], length, IfOk, OnOk};
ghost use Rattle.sig_pool.specs.Key.{flag, list_key, id_key, path_key, scope_key, name_key, all_signed_key, node_key};
ghost use Rattle.sig_pool.specs.Shapes.{node_of};

use crate::{Node, NodeOwner, SigId, SigIds};
use il_lists::{Copies, Items, NoMemory, Numbers, Signed, two};
use std::alloc::Global;
use type_terms::{Prim, Scope, TypeId, TypeName};

/// A node whose names and lists are borrowed, to find it with no copy.
#[derive(Drop)]
pub enum Shape<'a> {
    Prim(Prim),
    Class(&'a TypeName),
    Value(&'a TypeName),
    Inst {
        value: bool,
        name: &'a TypeName,
        args: &'a SigIds,
    },
    Var(u32),
    MVar(u32),
    SzArray(SigId),
    Array {
        of: SigId,
        rank: u32,
        sizes: &'a Numbers,
        lower: &'a Signed,
    },
    ByRef(SigId),
    Pointer(SigId),
    /// A type with a modifier that is a plain name.
    ModName {
        required: bool,
        by: &'a TypeName,
        of: SigId,
    },
    /// A type with a modifier that is made from other types.
    ModSpec {
        required: bool,
        by: SigId,
        of: SigId,
    },
    Pinned(SigId),
}

impl<'a> Shape<'a> {
    /// The shape that describes `node`.
    pub fn of(node: &'a Node) -> Shape<'a>
        ensures { node_of result ≡ node.now }
    {
        match node {
            Node::Prim(prim) => Shape::Prim(*prim),
            Node::Class(name) => Shape::Class(name),
            Node::Value(name) => Shape::Value(name),
            Node::Inst { value, name, args } => Shape::Inst {
                value: *value,
                name,
                args,
            },
            Node::Var(number) => Shape::Var(*number),
            Node::MVar(number) => Shape::MVar(*number),
            Node::SzArray(of) => Shape::SzArray(*of),
            Node::Array {
                of,
                rank,
                sizes,
                lower,
            } => Shape::Array {
                of: *of,
                rank: *rank,
                sizes,
                lower,
            },
            Node::ByRef(of) => Shape::ByRef(*of),
            Node::Pointer(of) => Shape::Pointer(*of),
            Node::Mod { required, by, of } => match by {
                NodeOwner::Name(name) => Shape::ModName {
                    required: *required,
                    by: name,
                    of: *of,
                },
                NodeOwner::Spec(by) => Shape::ModSpec {
                    required: *required,
                    by: *by,
                    of: *of,
                },
            },
            Node::Pinned(of) => Shape::Pinned(*of),
        }
    }
}

impl Shape<'_> {
    /// The node itself, with copies of what is borrowed.
    pub fn owned(&self, alloc: Global) -> Result<Node, NoMemory>
        ensures { IfOk result (λ n. n ≡ node_of self.now) }
    {
        match self {
            Shape::Prim(prim) => Ok(Node::Prim(*prim)),
            Shape::Class(name) => {
                let name = name.copy(alloc)?;
                Ok(Node::Class(name))
            }
            Shape::Value(name) => {
                let name = name.copy(alloc)?;
                Ok(Node::Value(name))
            }
            Shape::Inst { value, name, args } => {
                let (name, args) = two(*name, *args, alloc)?;
                Ok(Node::Inst {
                    value: *value,
                    name,
                    args,
                })
            }
            Shape::Var(number) => Ok(Node::Var(*number)),
            Shape::MVar(number) => Ok(Node::MVar(*number)),
            Shape::SzArray(of) => Ok(Node::SzArray(*of)),
            Shape::Array {
                of,
                rank,
                sizes,
                lower,
            } => {
                let (sizes, lower) = two(*sizes, *lower, alloc)?;
                Ok(Node::Array {
                    of: *of,
                    rank: *rank,
                    sizes,
                    lower,
                })
            }
            Shape::ByRef(of) => Ok(Node::ByRef(*of)),
            Shape::Pointer(of) => Ok(Node::Pointer(*of)),
            Shape::ModName { required, by, of } => {
                let by = by.copy(alloc)?;
                Ok(Node::Mod {
                    required: *required,
                    by: NodeOwner::Name(by),
                    of: *of,
                })
            }
            Shape::ModSpec { required, by, of } => Ok(Node::Mod {
                required: *required,
                by: NodeOwner::Spec(*by),
                of: *of,
            }),
            Shape::Pinned(of) => Ok(Node::Pinned(*of)),
        }
    }

    /// Adds the node's key to `key`.
    pub fn write_key(&self, key: &mut Items<u64>) -> Result<(), NoMemory>
        ensures { OnOk result (key.new ≡ key.old ++ node_key (node_of self.now)) }
    {
        match self {
            Shape::Prim(prim) => key.extend(&[0, *prim as u64]),
            Shape::Class(name) => {
                key.push(1)?;
                write_name(key, name)
            }
            Shape::Value(name) => {
                key.push(2)?;
                write_name(key, name)
            }
            Shape::Inst { value, name, args } => {
                key.extend(&[3, flag(*value)])?;
                write_name(key, name)?;
                write_ids(key, args.as_slice())
            }
            Shape::Var(number) => key.extend(&[4, *number as u64]),
            Shape::MVar(number) => key.extend(&[5, *number as u64]),
            Shape::SzArray(of) => key.extend(&[6, of.place() as u64]),
            Shape::Array {
                of,
                rank,
                sizes,
                lower,
            } => {
                key.extend(&[7, of.place() as u64, *rank as u64])?;
                write_sizes(key, sizes.as_slice())?;
                write_lower(key, lower.as_slice())
            }
            Shape::ByRef(of) => key.extend(&[8, of.place() as u64]),
            Shape::Pointer(of) => key.extend(&[9, of.place() as u64]),
            Shape::ModName { required, by, of } => {
                key.extend(&[10, flag(*required), of.place() as u64, 0])?;
                write_name(key, by)
            }
            Shape::ModSpec { required, by, of } => key.extend(&[
                10,
                flag(*required),
                of.place() as u64,
                1,
                by.place() as u64,
            ]),
            Shape::Pinned(of) => key.extend(&[11, of.place() as u64]),
        }
    }
}

fn flag(value: bool) -> u64
    ensures { result ≡ flag value }
{
    if value { 1 } else { 0 }
}

fn write_name(key: &mut Items<u64>, name: &TypeName) -> Result<(), NoMemory>
    ensures { OnOk result (key.new ≡ key.old ++ name_key name.now) }
{
    write_scope(key, name.scope)?;
    key.push(name.path.len() as u64)?;
    write_path(key, name.path.as_slice())
}

fn write_scope(key: &mut Items<u64>, scope: Scope) -> Result<(), NoMemory>
    ensures { OnOk result (key.new ≡ key.old ++ scope_key scope) }
{
    match scope {
        Scope::Here => key.push(0),
        Scope::Extern(number) => key.extend(&[1, number as u64]),
    }
}

fn write_path(key: &mut Items<u64>, path: &[TypeId]) -> Result<(), NoMemory>
    ensures { OnOk result (key.new ≡ key.old ++ path_key path.now) }
{
    for id in path {
        write_text(key, id.space.as_bytes())?;
        write_text(key, id.name.as_bytes())?;
    }
    Ok(())
}

fn write_text(key: &mut Items<u64>, text: &[u8]) -> Result<(), NoMemory>
    ensures { OnOk result (key.new ≡ key.old ++ list_key text.now) }
{
    key.push(text.len() as u64)?;
    for byte in text {
        key.push(*byte as u64)?;
    }
    Ok(())
}

fn write_ids(key: &mut Items<u64>, ids: &[SigId]) -> Result<(), NoMemory>
    ensures { OnOk result (key.new ≡ key.old ++ ids.now) }
{
    for id in ids {
        key.push(id.place() as u64)?;
    }
    Ok(())
}

fn write_sizes(key: &mut Items<u64>, sizes: &[u32]) -> Result<(), NoMemory>
    ensures { OnOk result (key.new ≡ key.old ++ list_key sizes.now) }
{
    key.push(sizes.len() as u64)?;
    for size in sizes {
        key.push(*size as u64)?;
    }
    Ok(())
}

fn write_lower(key: &mut Items<u64>, lower: &[i32]) -> Result<(), NoMemory>
    ensures { OnOk result (key.new ≡ key.old ++ all_signed_key lower.now) }
{
    for bound in lower {
        key.push(flag(*bound < 0))?;
        key.push(bound.unsigned_abs() as u64)?;
    }
    Ok(())
}
