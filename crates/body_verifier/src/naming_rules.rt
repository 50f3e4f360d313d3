//! The rules on the member or the variable that an instruction names (V10, V19).
ghost use Rattle.std.specs.Prelude.{◌≡◌, ◌↔◌, ◌<◌, ℕ, length, slice_get, codes, IfOk, IsTrue, Some};
ghost use Rattle.sig_pool.specs.Terms.{AllBelow};
ghost use Rattle.type_hierarchy.specs.Indexed.{KnowsTypes};
ghost use Rattle.type_hierarchy.specs.Names.{same_text};
ghost use Rattle.type_hierarchy.specs.World.{hierarchy};
ghost use Rattle.code_flow.specs.Frames.{Frame};
ghost use Rattle.body_verifier.specs.Judging.{Misfits, PointsToReference};
ghost use Rattle.body_verifier.specs.MemberTests.{IsOther, HasOther, is_reference_there, addresses_reference};
ghost use Rattle.code_flow.specs.Methods.{is_static};
ghost use Rattle.code_flow.specs.Operations.{operation};
ghost use Rattle.stack_rows.specs.RowMeanings.{type_option, MeansFrame, IsFrameWithin};
ghost use Rattle.code_flow.specs.Rows.{variable};
ghost use Rattle.code_flow.specs.Rules.{misfits_method, wants_static, MisfitsField, MisfitsMember};

use assembly_tree::{Assembly, Field, Ins, Operand};
use code_flow::operation::{Operation, operation_of};
use il_lists::NoMemory;
use stack_effects::variables::variable_key;
use stack_rows::frame::CodeFrame;
use stack_rows::type_kinds::is_by_reference;
use std::cmp::Ordering;
use type_order::types::World;
use type_order::{TypeKeys, fields_meant, id_of};
use type_terms::{FieldRef, MethodRef, SigType, compare_terms};

/// Whether an instruction wants a static field, where it wants a field (ECMA-335 III.4.10 to III.4.30).
fn wants_static(does: Operation) -> Option<bool>
    ensures { result ≡ wants_static does }
{
    match does {
        Operation::LoadField | Operation::FieldAddress | Operation::StoreField => Some(false),
        Operation::LoadStatic | Operation::StaticAddress | Operation::StoreStatic => Some(true),
        _ => None,
    }
}

/// Whether a method has the name of instance constructors.
fn is_constructor(m: &MethodRef) -> bool
    ensures { result ≡ same_text m.now.name (codes ".ctor") }
{
    m.name.as_bytes() == ".ctor".as_bytes()
}

/// Whether a method doesn't fit the instruction: `newobj` wants an instance method `.ctor`, `callvirt` an instance
/// method (ECMA-335 III.4.21, III.4.2).
fn misfits_method(does: Operation, m: &MethodRef) -> bool
    ensures { result ≡ misfits_method does m.now }
{
    match does {
        Operation::NewObject => !m.sig.has_this || !is_constructor(m),
        Operation::CallVirtual => !m.sig.has_this,
        _ => false,
    }
}

fn is_static(field: &Field) -> bool
    ensures { result ≡ is_static field.now }
{
    field.flags & 0x10 != 0
}

fn has_same_name(field: &Field, r: &FieldRef) -> bool
    ensures { IsTrue result ↔ (field.now.name ≡ r.now.name) }
{
    field.name.as_bytes() == r.name.as_bytes()
}

fn is_same_type(t: &SigType, u: &SigType) -> bool
    ensures { IsTrue result ↔ (t.now ≡ u.now) }
{
    match compare_terms(t, u) {
        Ordering::Equal => true,
        Ordering::Less | Ordering::Greater => false,
    }
}

/// Whether a field has the name and the type of a reference, and isn't static where a static one is wanted, or the other
/// way round.
fn is_other(field: &Field, r: &FieldRef, wanted: bool) -> bool
    ensures { IsTrue result ↔ IsOther r.now wanted field.now }
{
    wanted != is_static(field) && has_same_name(field, r) && is_same_type(&field.of, &r.of)
}

/// Whether one of some fields is such a field.
pub(crate) fn misfits_field(fields: &[Field], r: &FieldRef, wanted: bool) -> bool
    ensures { IsTrue result ↔ HasOther fields.now r.now wanted }
{
    for field in fields {
        if is_other(field, r, wanted) {
            return true;
        }
    }
    false
}

/// Whether a field that the image declares is static where the instruction wants one of an instance, or the other way
/// round.
fn misfits_declared(
    w: &World,
    a: &Assembly,
    does: Operation,
    r: &FieldRef,
) -> Result<bool, NoMemory>
    requires { KnowsTypes a.now w.now.tables }
    ensures { (f : Frame) → f.image ≡ a.now → f.types ≡ hierarchy w.now → IfOk result (λ b. IsTrue b ↔ MisfitsField f does r.now) }
{
    match wants_static(does) {
        Some(wanted) => {
            let fields = fields_meant(w, a, &r.owner)?;
            Ok(misfits_field(fields, r, wanted))
        }
        None => Ok(false),
    }
}

fn misfits_operand(
    w: &World,
    a: &Assembly,
    does: Operation,
    operand: &Operand,
) -> Result<bool, NoMemory>
    requires { KnowsTypes a.now w.now.tables }
    ensures { (f : Frame) → f.image ≡ a.now → f.types ≡ hierarchy w.now → IfOk result (λ b. IsTrue b ↔ MisfitsMember f does operand.now) }
{
    match operand {
        Operand::Method(m) => Ok(misfits_method(does, m.get())),
        Operand::Field(r) => misfits_declared(w, a, does, r.get()),
        Operand::Nothing => Ok(false),
        Operand::Var(_) => Ok(false),
        Operand::Int(_) => Ok(false),
        Operand::Real(_) => Ok(false),
        Operand::Target(_) => Ok(false),
        Operand::Targets(_) => Ok(false),
        Operand::Of(_) => Ok(false),
        Operand::Text(_) => Ok(false),
    }
}

/// Whether an instruction of a body of the image names a member that doesn't fit it (V10). The world is one of that image.
/// NoMemory where there is no memory, which only a field of a primitive type takes.
pub(crate) fn misfits(w: &World, a: &Assembly, ins: &Ins) -> Result<bool, NoMemory>
    requires { KnowsTypes a.now w.now.tables }
    ensures { (f : Frame) (k : ℕ) → f.image ≡ a.now → f.types ≡ hierarchy w.now → slice_get f.code k ≡ Some ins.now → IfOk result (λ b. IsTrue b ↔ Misfits f k) }
{
    misfits_operand(w, a, operation_of(ins.op), &ins.operand)
}

/// Whether the variable of an instruction is a pointer.
fn is_reference(w: &World, keys: &TypeKeys, ins: &Ins) -> bool
    requires { AllBelow (length w.now.nodes) keys.now }
    ensures { result ≡ is_reference_there (type_option w.now.nodes (slice_get keys.now (variable ins.now))) }
{
    match variable_key(keys, ins) {
        Some(key) => is_by_reference(w.pool(), id_of(&key)),
        None => false,
    }
}

fn addresses_reference(w: &World, frame: &CodeFrame, ins: &Ins) -> bool
    requires { IsFrameWithin (length w.now.nodes) frame.now }
    ensures { result ≡ addresses_reference w.now.nodes frame.now (variable ins.now) (operation ins.now.op) }
{
    match operation_of(ins.op) {
        Operation::ArgumentAddress => is_reference(w, &frame.arguments, ins),
        Operation::LocalAddress => is_reference(w, &frame.locals, ins),
        _ => false,
    }
}

/// Whether an instruction takes the address of a variable that is a pointer already (V19, ECMA-335 I.12.1.1.2).
pub(crate) fn points_to_reference(w: &World, frame: &CodeFrame, ins: &Ins) -> bool
    requires { IsFrameWithin (length w.now.nodes) frame.now }
    ensures { (f : Frame) (k : ℕ) → MeansFrame w.now.nodes frame.now f → slice_get f.code k ≡ Some ins.now → (IsTrue result ↔ PointsToReference f k) }
{
    addresses_reference(w, frame, ins)
}
