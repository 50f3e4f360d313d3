//! The types that a method's body is checked against (ECMA-335 II.15.4).
ghost use Rattle.std.specs.Prelude.{◌≡◌, [], ◌∷◌, ◌++◌, if◌then◌else◌, length, IfOk};
ghost use Rattle.assembly_tree.specs.declared.assembly.Assembly.{Assembly};
ghost use Rattle.sig_pool.specs.Pool.{Has, HasAll};
ghost use Rattle.type_hierarchy.specs.World.{hierarchy, Stays};
ghost use Rattle.type_order.specs.OwnTypes.{own_class};
ghost use Rattle.code_flow.specs.Frames.{type_in, types_in, as_this, this_argument, frame};
ghost use Rattle.code_flow.specs.Methods.{Declared};
ghost use Rattle.stack_rows.specs.RowMeanings.{MeansFrame, IsFrameWithin};

use crate::calls::type_keys;
use assembly_tree::{Body, Method};
use il_lists::{Items, NoMemory};
use stack_rows::frame::CodeFrame;
use stack_rows::type_kinds::is_reference;
use std::alloc::Global;
use type_order::types::World;
use type_order::{TypeKey, TypeKeys, id_of, own_keys, type_key};
use type_terms::Path;

/// Argument 0 of an instance method: the object of a reference type, and of another type a pointer to the value
/// (ECMA-335 I.12.1.6.2.1).
fn this_key(w: &mut World, path: &Path, parameters: u32) -> Result<TypeKey, NoMemory>
    ensures ok { IfOk result (λ k. Has w.new.nodes k (as_this (type_in (hierarchy w.old) (own_class path.now parameters)))) }
    ensures stays { Stays w.old w.new }
{
    let own = own_keys(w, path, parameters)?;
    if is_reference(w.pool(), id_of(&own.class)) {
        return Ok(own.class);
    }
    Ok(own.pointer)
}

/// The key of argument 0, where the method has an object.
fn this_keys(
    alloc: Global,
    w: &mut World,
    path: &Path,
    parameters: u32,
    has_this: bool,
) -> Result<TypeKeys, NoMemory>
    ensures ok { IfOk result (λ ks. HasAll w.new.nodes ks (if has_this then as_this (type_in (hierarchy w.old) (own_class path.now parameters)) ∷ [] else [])) }
    ensures stays { Stays w.old w.new }
{
    if !has_this {
        return Ok(Items::new(alloc));
    }
    let this = this_key(w, path, parameters)?;
    let keys = Items::from_slice(alloc, &[this])?;
    Ok(keys)
}

/// The keys of a method's object, where it has one, and of its parameters.
fn argument_keys(
    alloc: Global,
    w: &mut World,
    path: &Path,
    parameters: u32,
    method: &Method,
) -> Result<TypeKeys, NoMemory>
    ensures ok { (d : Declared) → d.path ≡ path.now → d.parameters ≡ parameters → d.method ≡ method.now → IfOk result (λ ks. HasAll w.new.nodes ks (this_argument (hierarchy w.old) d ++ types_in (hierarchy w.old) d.method.sig.params)) }
    ensures stays { Stays w.old w.new }
{
    let mut arguments = this_keys(alloc, w, path, parameters, method.sig.has_this)?;
    let params = type_keys(alloc, w, method.sig.params.as_slice())?;
    arguments.append(params)?;
    Ok(arguments)
}

/// The types of the arguments, locals and result of a method of the class of that path, which has that many generic
/// parameters (ECMA-335 II.15.4).
///
/// NoMemory where there is no memory.
pub fn frame_of(
    alloc: Global,
    w: &mut World,
    path: &Path,
    parameters: u32,
    method: &Method,
    body: &Body,
) -> Result<CodeFrame, NoMemory>
    ensures ok { (a : Assembly) (d : Declared) → d.path ≡ path.now → d.parameters ≡ parameters → d.method ≡ method.now → IfOk result (λ v. MeansFrame w.new.nodes v (frame a (hierarchy w.old) d body.now)) }
    ensures within { IfOk result (λ v. IsFrameWithin (length w.new.nodes) v) }
    ensures stays { Stays w.old w.new }
{
    let arguments = argument_keys(alloc, w, path, parameters, method)?;
    let locals = type_keys(alloc, w, body.locals.as_slice())?;
    let returns = type_key(w, &method.sig.ret)?;
    Ok(CodeFrame {
        arguments,
        locals,
        returns,
    })
}
