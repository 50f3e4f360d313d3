//! Rows of calls and of returns (ECMA-335 III.3.19, III.3.56, III.4.2, III.4.21).
ghost use Rattle.std.specs.Prelude.{◌≡◌, ◌<◌, ◌++◌, [], ◌∷◌, if◌then◌else◌, List, length, map, IfOk, IfSome, OnOk};
ghost use Rattle.std.specs.List.{AllZip};
ghost use Rattle.std.specs.Option.{option_copied};
ghost use Rattle.type_terms.specs.declared.reference.MethodRef.{MethodRef};
ghost use Rattle.sig_pool.specs.Pool.{Has, HasAll};
ghost use Rattle.sig_pool.specs.Terms.{term_of};
ghost use Rattle.type_hierarchy.specs.World.{hierarchy, Stays};
ghost use Rattle.code_flow.specs.declared.operation.Operation.TheVariants as does;
ghost use Rattle.code_flow.specs.Demands as demands;
ghost use Rattle.code_flow.specs.Frames.{types_in, method_arguments, member_type};
ghost use Rattle.stack_rows.specs.RowMeanings.{type_option, MeansDemand, MeansPushed, MeansRow};
ghost use Rattle.stack_effects.specs.MemberMeanings.{method_in, method_row_by, MeansCall, IsCallWithin, MeansResult};
ghost use Rattle.code_flow.specs.Rows as rows;
ghost use Rattle.code_flow.specs.Rows.{parameter_demand, return_demands};

use crate::fields::object_demand;
use assembly_tree::Operand;
use il_lists::{Items, NoMemory};
use stack_rows::making::{made, plain};
use stack_rows::row::{Demand, Pushed, Row};
use stack_rows::type_kinds::is_void;
use std::alloc::Global;
use type_order::types::World;
use type_order::{
    StackType, TypeKey, TypeKeys, arguments_of, id_of, key_of, owner_key, st_of, type_key,
};
use type_terms::{MethodRef, SigType, Types};

/// A method's owner, and the generic arguments of the owner and of the method.
#[derive(Drop)]
pub struct CallParts {
    pub owner: TypeKey,
    pub class_args: TypeKeys,
    pub method_args: TypeKeys,
}

/// The keys of types of the image.
pub fn type_keys(alloc: Global, w: &mut World, types: &[SigType]) -> Result<TypeKeys, NoMemory>
    ensures ok { IfOk result (λ ks. HasAll w.new.nodes ks (types_in (hierarchy w.old) types.now)) }
    ensures stays { Stays w.old w.new }
{
    let mut keys = Items::with_capacity(alloc, types.len())?;
    for t in types {
        let key = type_key(w, t)?;
        keys.push(key)?;
    }
    Ok(keys)
}

/// The keys of a method's generic arguments, where it has any.
fn method_keys(alloc: Global, w: &mut World, args: &Option<Types>) -> Result<TypeKeys, NoMemory>
    ensures ok { IfOk result (λ ks. HasAll w.new.nodes ks (method_arguments (hierarchy w.old) args.now)) }
    ensures stays { Stays w.old w.new }
{
    match args {
        Some(types) => type_keys(alloc, w, types.as_slice()),
        None => Ok(Items::new(alloc)),
    }
}

/// The owner of a method, and the generic arguments.
fn call_parts(alloc: Global, w: &mut World, m: &MethodRef) -> Result<CallParts, NoMemory>
    ensures ok { IfOk result (λ p. MeansCall w.new.nodes p (hierarchy w.old) m.now) }
    ensures stays { Stays w.old w.new }
{
    let owner = owner_key(w, &m.owner)?;
    let class_args = arguments_of(w, &owner)?;
    let method_args = method_keys(alloc, w, &m.args)?;
    Ok(CallParts {
        owner,
        class_args,
        method_args,
    })
}

/// Asks of each argument that it is assignable to its parameter.
fn with_parameters(
    w: &mut World,
    parts: &CallParts,
    operands: Items<Demand>,
    params: &[SigType],
) -> Result<Items<Demand>, NoMemory>
    requires { IsCallWithin (length w.old.nodes) parts.now }
    ensures ok { (m : MethodRef) (os : List demands.Demand) → MeansCall w.old.nodes parts.now (hierarchy w.old) m → AllZip (MeansDemand w.old.nodes) operands os → IfOk result (λ ds. AllZip (MeansDemand w.new.nodes) ds (os ++ map (parameter_demand (hierarchy w.old) m) params.now)) }
    ensures stays { Stays w.old w.new }
{
    let mut operands = operands;
    for t in params {
        let key = key_of(w, t, &parts.class_args, &parts.method_args)?;
        let value = st_of(w, &key)?;
        operands.push(Demand::To(value))?;
    }
    Ok(operands)
}

/// The value that a method with that result type returns; None of void.
fn returned(w: &mut World, key: TypeKey) -> Result<Option<StackType>, NoMemory>
    requires { key < length w.old.nodes }
    ensures ok { IfOk result (λ s. MeansResult w.new.nodes s (rows.result (hierarchy w.old) (term_of w.old.nodes key))) }
    ensures stays { Stays w.old w.new }
{
    if is_void(w.pool(), id_of(&key)) {
        return Ok(None);
    }
    let value = st_of(w, &key)?;
    Ok(Some(value))
}

/// Of `ret` in a method with that result type.
pub fn return_row(alloc: Global, w: &mut World, returns: TypeKey) -> Result<Row, NoMemory>
    requires { returns < length w.old.nodes }
    ensures ok { IfOk result (λ r. MeansRow w.new.nodes r (rows.row (return_demands (hierarchy w.old) (term_of w.old.nodes returns)) [])) }
    ensures stays { Stays w.old w.new }
{
    match returned(w, returns)? {
        Some(value) => plain(alloc, &[Demand::To(value)], &[]),
        None => plain(alloc, &[], &[]),
    }
}

/// What is asked of the object of a call, where the method has one.
fn this_demands(
    alloc: Global,
    w: &mut World,
    constrained: Option<TypeKey>,
    owner: TypeKey,
    has_this: bool,
) -> Result<Items<Demand>, NoMemory>
    requires constrained { IfSome constrained (λ k. k < length w.old.nodes) }
    requires owner { owner < length w.old.nodes }
    ensures ok { IfOk result (λ ds. AllZip (MeansDemand w.new.nodes) ds (if has_this then rows.object_demand (hierarchy w.old) (type_option w.old.nodes constrained) (term_of w.old.nodes owner) ∷ [] else [])) }
    ensures stays { Stays w.old w.new }
{
    if !has_this {
        return Ok(Items::new(alloc));
    }
    let object = object_demand(w, constrained, owner)?;
    let operands = Items::from_slice(alloc, &[object])?;
    Ok(operands)
}

/// What a call of a method with that result type pushes.
fn pushed_by(
    alloc: Global,
    w: &mut World,
    parts: &CallParts,
    returns: &SigType,
) -> Result<Items<Pushed>, NoMemory>
    requires { IsCallWithin (length w.old.nodes) parts.now }
    ensures ok { (m : MethodRef) → MeansCall w.old.nodes parts.now (hierarchy w.old) m → IfOk result (λ ps. AllZip (MeansPushed w.new.nodes) ps (rows.result (hierarchy w.old) (member_type (hierarchy w.old) m.owner m.args returns.now))) }
    ensures stays { Stays w.old w.new }
{
    let key = key_of(w, returns, &parts.class_args, &parts.method_args)?;
    match returned(w, key)? {
        Some(value) => {
            let pushed = Items::from_slice(alloc, &[Pushed::Always(value)])?;
            Ok(pushed)
        }
        None => Ok(Items::new(alloc)),
    }
}

/// Of a call of a method.
fn called(
    alloc: Global,
    w: &mut World,
    constrained: Option<TypeKey>,
    m: &MethodRef,
) -> Result<Row, NoMemory>
    requires { IfSome constrained (λ k. k < length w.old.nodes) }
    ensures ok { IfOk result (λ r. MeansRow w.new.nodes r (rows.call_row (hierarchy w.old) (type_option w.old.nodes constrained) m.now)) }
    ensures stays { Stays w.old w.new }
{
    let parts = call_parts(alloc, w, m)?;
    let operands = this_demands(alloc, w, constrained, parts.owner, m.sig.has_this)?;
    let operands = with_parameters(w, &parts, operands, m.sig.params.as_slice())?;
    let pushed = pushed_by(alloc, w, &parts, &m.sig.ret)?;
    Ok(made(operands, pushed))
}

/// Of `newobj` of a constructor.
fn created(alloc: Global, w: &mut World, m: &MethodRef) -> Result<Row, NoMemory>
    ensures ok { IfOk result (λ r. MeansRow w.new.nodes r (rows.new_row (hierarchy w.old) m.now)) }
    ensures stays { Stays w.old w.new }
{
    let parts = call_parts(alloc, w, m)?;
    let operands = with_parameters(w, &parts, Items::new(alloc), m.sig.params.as_slice())?;
    let value = st_of(w, &parts.owner)?;
    let pushed = Items::from_slice(alloc, &[Pushed::Always(value)])?;
    Ok(made(operands, pushed))
}

/// The method that an operand names. Takes no memory.
fn method_in(operand: &Operand) -> Option<&MethodRef>
    ensures { option_copied result ≡ method_in operand.now }
{
    match operand {
        Operand::Method(m) => Some(m.get()),
        Operand::Nothing => None,
        Operand::Var(_) => None,
        Operand::Int(_) => None,
        Operand::Real(_) => None,
        Operand::Target(_) => None,
        Operand::Targets(_) => None,
        Operand::Field(_) => None,
        Operand::Of(_) => None,
        Operand::Text(_) => None,
    }
}

/// Of `call` and `callvirt`.
pub fn call_row(
    alloc: Global,
    w: &mut World,
    constrained: Option<TypeKey>,
    operand: &Operand,
) -> Result<Row, NoMemory>
    requires { IfSome constrained (λ k. k < length w.old.nodes) }
    ensures ok { IfOk result (λ r. MeansRow w.new.nodes r (method_row_by (hierarchy w.old) (type_option w.old.nodes constrained) does.Call (method_in operand.now))) }
    ensures stays { Stays w.old w.new }
{
    match method_in(operand) {
        Some(m) => called(alloc, w, constrained, m),
        None => plain(alloc, &[], &[]),
    }
}

/// Of `newobj`.
pub fn new_row(
    alloc: Global,
    w: &mut World,
    constrained: Option<TypeKey>,
    operand: &Operand,
) -> Result<Row, NoMemory>
    requires { IfSome constrained (λ k. k < length w.old.nodes) }
    ensures ok { IfOk result (λ r. MeansRow w.new.nodes r (method_row_by (hierarchy w.old) (type_option w.old.nodes constrained) does.NewObject (method_in operand.now))) }
    ensures stays { Stays w.old w.new }
{
    match method_in(operand) {
        Some(m) => created(alloc, w, m),
        None => plain(alloc, &[], &[]),
    }
}
