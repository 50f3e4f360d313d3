//! Rows of instructions on fields (ECMA-335 III.4.10 to III.4.30).
ghost use Rattle.std.specs.Prelude.{◌≡◌, ◌<◌, [], length, IfOk, IfSome};
ghost use Rattle.std.specs.Option.{option_copied};
ghost use Rattle.sig_pool.specs.Pool.{Has};
ghost use Rattle.sig_pool.specs.Replaced.{replaced};
ghost use Rattle.sig_pool.specs.Terms.{term_of};
ghost use Rattle.type_order.specs.Parts.{type_arguments};
ghost use Rattle.type_hierarchy.specs.World.{hierarchy, Stays};
ghost use Rattle.code_flow.specs.declared.operation.Operation.TheVariants as does;
ghost use Rattle.code_flow.specs.Frames.{type_in};
ghost use Rattle.stack_rows.specs.RowMeanings.{type_option, MeansDemand, MeansRow};
ghost use Rattle.stack_effects.specs.MemberMeanings.{MeansField, field_in, field_row_by};
ghost use Rattle.code_flow.specs.Rows.{object_demand, loaded_demand};

use assembly_tree::Operand;
use il_lists::{Items, NoMemory};
use stack_rows::making::plain;
use stack_rows::naming::{Named, named_of};
use stack_rows::row::{Demand, Pushed, Row};
use stack_rows::type_kinds::is_reference;
use std::alloc::Global;
use type_order::types::World;
use type_order::{StackType, TypeKey, arguments_of, id_of, key_of, owner_key, pointer_to};
use type_terms::FieldRef;

/// What is asked of the object of a field or a call, whose owner is that type: with a type that
/// `constrained.` names it is a pointer to it (ECMA-335 III.2.1).
pub fn object_demand(
    w: &mut World,
    constrained: Option<TypeKey>,
    owner: TypeKey,
) -> Result<Demand, NoMemory>
    requires constrained { IfSome constrained (λ k. k < length w.old.nodes) }
    requires owner { owner < length w.old.nodes }
    ensures ok { IfOk result (λ d. MeansDemand w.new.nodes d (object_demand (hierarchy w.old) (type_option w.old.nodes constrained) (term_of w.old.nodes owner))) }
    ensures stays { Stays w.old w.new }
{
    match constrained {
        Some(key) => {
            let pointer = pointer_to(w, &key)?;
            Ok(Demand::Exactly(pointer))
        }
        None => {
            if is_reference(w.pool(), id_of(&owner)) {
                return Ok(Demand::To(StackType::Ref(owner)));
            }
            let pointer = pointer_to(w, &owner)?;
            Ok(Demand::Exactly(pointer))
        }
    }
}

/// What is asked of the object that a field is loaded from, which may be a value too (ECMA-335 III.4.10).
fn loaded_demand(
    w: &mut World,
    constrained: Option<TypeKey>,
    owner: TypeKey,
) -> Result<Demand, NoMemory>
    requires constrained { IfSome constrained (λ k. k < length w.old.nodes) }
    requires owner { owner < length w.old.nodes }
    ensures ok { IfOk result (λ d. MeansDemand w.new.nodes d (loaded_demand (hierarchy w.old) (type_option w.old.nodes constrained) (term_of w.old.nodes owner))) }
    ensures stays { Stays w.old w.new }
{
    match constrained {
        Some(key) => {
            let pointer = pointer_to(w, &key)?;
            Ok(Demand::Exactly(pointer))
        }
        None => {
            if is_reference(w.pool(), id_of(&owner)) {
                return Ok(Demand::To(StackType::Ref(owner)));
            }
            let pointer = pointer_to(w, &owner)?;
            Ok(Demand::OneOf(pointer, StackType::Val(owner)))
        }
    }
}

/// A field's owner and type.
#[derive(Clone, Copy, Drop)]
pub struct FieldParts {
    pub owner: TypeKey,
    pub of: Named,
}

/// The key of a field's type, the arguments of its owner put in.
fn field_key(
    alloc: Global,
    w: &mut World,
    r: &FieldRef,
    owner: TypeKey,
) -> Result<TypeKey, NoMemory>
    requires { owner < length w.old.nodes }
    ensures ok { IfOk result (λ k. Has w.new.nodes k (replaced (type_arguments (term_of w.old.nodes owner)) [] (type_in (hierarchy w.old) r.now.of))) }
    ensures stays { Stays w.old w.new }
{
    let class_args = arguments_of(w, &owner)?;
    let method_args = Items::new(alloc);
    let key = key_of(w, &r.of, &class_args, &method_args)?;
    Ok(key)
}

/// The owner and the type of a field.
fn field_parts(alloc: Global, w: &mut World, r: &FieldRef) -> Result<FieldParts, NoMemory>
    ensures ok { IfOk result (λ p. MeansField w.new.nodes p (hierarchy w.old) r.now) }
    ensures stays { Stays w.old w.new }
{
    let owner = owner_key(w, &r.owner)?;
    let of = field_key(alloc, w, r, owner)?;
    let of = named_of(w, of)?;
    Ok(FieldParts { owner, of })
}

/// The field that an operand names. Takes no memory.
fn field_in(operand: &Operand) -> Option<&FieldRef>
    ensures { option_copied result ≡ field_in operand.now }
{
    match operand {
        Operand::Field(r) => Some(r.get()),
        Operand::Nothing => None,
        Operand::Var(_) => None,
        Operand::Int(_) => None,
        Operand::Real(_) => None,
        Operand::Target(_) => None,
        Operand::Targets(_) => None,
        Operand::Method(_) => None,
        Operand::Of(_) => None,
        Operand::Text(_) => None,
    }
}

/// Of `ldfld`.
pub fn load_field(
    alloc: Global,
    w: &mut World,
    constrained: Option<TypeKey>,
    operand: &Operand,
) -> Result<Row, NoMemory>
    requires { IfSome constrained (λ k. k < length w.old.nodes) }
    ensures ok { IfOk result (λ r. MeansRow w.new.nodes r (field_row_by (hierarchy w.old) (type_option w.old.nodes constrained) does.LoadField (field_in operand.now))) }
    ensures stays { Stays w.old w.new }
{
    match field_in(operand) {
        Some(r) => {
            let field = field_parts(alloc, w, r)?;
            let object = loaded_demand(w, constrained, field.owner)?;
            plain(alloc, &[object], &[Pushed::Always(field.of.value)])
        }
        None => plain(alloc, &[], &[]),
    }
}

/// Of `ldflda`.
pub fn field_address(
    alloc: Global,
    w: &mut World,
    constrained: Option<TypeKey>,
    operand: &Operand,
) -> Result<Row, NoMemory>
    requires { IfSome constrained (λ k. k < length w.old.nodes) }
    ensures ok { IfOk result (λ r. MeansRow w.new.nodes r (field_row_by (hierarchy w.old) (type_option w.old.nodes constrained) does.FieldAddress (field_in operand.now))) }
    ensures stays { Stays w.old w.new }
{
    match field_in(operand) {
        Some(r) => {
            let field = field_parts(alloc, w, r)?;
            let object = object_demand(w, constrained, field.owner)?;
            plain(alloc, &[object], &[Pushed::Always(field.of.pointer)])
        }
        None => plain(alloc, &[], &[]),
    }
}

/// Of `stfld`.
pub fn store_field(
    alloc: Global,
    w: &mut World,
    constrained: Option<TypeKey>,
    operand: &Operand,
) -> Result<Row, NoMemory>
    requires { IfSome constrained (λ k. k < length w.old.nodes) }
    ensures ok { IfOk result (λ r. MeansRow w.new.nodes r (field_row_by (hierarchy w.old) (type_option w.old.nodes constrained) does.StoreField (field_in operand.now))) }
    ensures stays { Stays w.old w.new }
{
    match field_in(operand) {
        Some(r) => {
            let field = field_parts(alloc, w, r)?;
            let object = object_demand(w, constrained, field.owner)?;
            plain(alloc, &[object, Demand::To(field.of.value)], &[])
        }
        None => plain(alloc, &[], &[]),
    }
}

/// Of `ldsfld`.
pub fn load_static(
    alloc: Global,
    w: &mut World,
    constrained: Option<TypeKey>,
    operand: &Operand,
) -> Result<Row, NoMemory>
    requires { IfSome constrained (λ k. k < length w.old.nodes) }
    ensures ok { IfOk result (λ r. MeansRow w.new.nodes r (field_row_by (hierarchy w.old) (type_option w.old.nodes constrained) does.LoadStatic (field_in operand.now))) }
    ensures stays { Stays w.old w.new }
{
    match field_in(operand) {
        Some(r) => {
            let field = field_parts(alloc, w, r)?;
            plain(alloc, &[], &[Pushed::Always(field.of.value)])
        }
        None => plain(alloc, &[], &[]),
    }
}

/// Of `ldsflda`.
pub fn static_address(
    alloc: Global,
    w: &mut World,
    constrained: Option<TypeKey>,
    operand: &Operand,
) -> Result<Row, NoMemory>
    requires { IfSome constrained (λ k. k < length w.old.nodes) }
    ensures ok { IfOk result (λ r. MeansRow w.new.nodes r (field_row_by (hierarchy w.old) (type_option w.old.nodes constrained) does.StaticAddress (field_in operand.now))) }
    ensures stays { Stays w.old w.new }
{
    match field_in(operand) {
        Some(r) => {
            let field = field_parts(alloc, w, r)?;
            plain(alloc, &[], &[Pushed::Always(field.of.pointer)])
        }
        None => plain(alloc, &[], &[]),
    }
}

/// Of `stsfld`.
pub fn store_static(
    alloc: Global,
    w: &mut World,
    constrained: Option<TypeKey>,
    operand: &Operand,
) -> Result<Row, NoMemory>
    requires { IfSome constrained (λ k. k < length w.old.nodes) }
    ensures ok { IfOk result (λ r. MeansRow w.new.nodes r (field_row_by (hierarchy w.old) (type_option w.old.nodes constrained) does.StoreStatic (field_in operand.now))) }
    ensures stays { Stays w.old w.new }
{
    match field_in(operand) {
        Some(r) => {
            let field = field_parts(alloc, w, r)?;
            plain(alloc, &[Demand::To(field.of.value)], &[])
        }
        None => plain(alloc, &[], &[]),
    }
}
