//! The row of each instruction of a body (ECMA-335 III.3, III.4).
ghost use Rattle.std.specs.Prelude.{◌≡◌, ◌<◌, ℕ, length, slice_get, Some, IfOk, IfSome};
ghost use Rattle.assembly_tree.specs.declared.body.Ins.{Ins as Instruction};
ghost use Rattle.type_hierarchy.specs.World.{hierarchy, Stays};
ghost use Rattle.code_flow.specs.Frames.{Frame};
ghost use Rattle.stack_rows.specs.RowMeanings.{IsFrameWithin, framed, type_option, MeansFrame, MeansRow};
ghost use Rattle.code_flow.specs.Rows.{row_by, constraint_by};
ghost use Rattle.body_verifier.specs.Ways.{AreRows};

use assembly_tree::Ins;
use code_flow::operation::{Operation, Prefix, operation_of};
use il_lists::{Items, NoMemory};
use stack_effects::calls::{call_row, new_row, return_row};
use stack_effects::fields::{
    field_address, load_field, load_static, static_address, store_field, store_static,
};
use stack_effects::variables::{address_row, load_row, store_row, variable_key};
use stack_rows::frame::CodeFrame;
use stack_rows::making::{emptying, pair, plain, storing};
use stack_rows::naming::named_key;
use stack_rows::primitive_rows::{
    load_element_of, load_indirect, load_string, load_token, number_type, store_element_of,
    store_indirect,
};
use stack_rows::row::{Demand, Pairing, Pushed, Row};
use stack_rows::type_rows::{
    box_value, cast, copy_object, element_address, init_object, load_element, load_object,
    new_array, store_element, store_object, unbox, unbox_any,
};
use std::alloc::Global;
use type_order::types::World;
use type_order::{StackType, TypeKey};

/// The row of an instruction that does `operation`, by the type that `constrained.` names before it.
fn row_by_operation(
    alloc: Global,
    w: &mut World,
    frame: &CodeFrame,
    constrained: Option<TypeKey>,
    ins: &Ins,
    operation: Operation,
) -> Result<Row, NoMemory>
    requires frame { IsFrameWithin (length w.old.nodes) frame.now }
    requires constrained { IfSome constrained (λ k. k < length w.old.nodes) }
    ensures ok { (f : Frame) → IfOk result (λ r. MeansRow w.new.nodes r (row_by (framed (hierarchy w.old) w.old.nodes frame.now f) (type_option w.old.nodes constrained) ins.now operation)) }
    ensures stays { Stays w.old w.new }
{
    match operation {
        Operation::Idle => plain(alloc, &[], &[]),
        Operation::Prefix(_) => plain(alloc, &[], &[]),
        Operation::LoadArgument => load_row(alloc, w, variable_key(&frame.arguments, ins)),
        Operation::StoreArgument => store_row(alloc, w, variable_key(&frame.arguments, ins)),
        Operation::ArgumentAddress => address_row(alloc, w, variable_key(&frame.arguments, ins)),
        Operation::LoadLocal => load_row(alloc, w, variable_key(&frame.locals, ins)),
        Operation::StoreLocal => store_row(alloc, w, variable_key(&frame.locals, ins)),
        Operation::LocalAddress => address_row(alloc, w, variable_key(&frame.locals, ins)),
        Operation::LoadNull => plain(alloc, &[], &[Pushed::Always(StackType::Null)]),
        Operation::LoadNumber(number) => plain(alloc, &[], &[Pushed::Always(number_type(number))]),
        Operation::Duplicate => plain(alloc, &[Demand::Any], &[Pushed::Same, Pushed::Same]),
        Operation::Discard => plain(alloc, &[Demand::Any], &[]),
        Operation::Arithmetic => pair(
            alloc,
            Pairing::Numeric,
            &[Pushed::Computed(Pairing::Numeric)],
        ),
        Operation::IntegerArithmetic => pair(
            alloc,
            Pairing::Integral,
            &[Pushed::Computed(Pairing::Integral)],
        ),
        Operation::Shift => plain(
            alloc,
            &[Demand::Integer, Demand::Index],
            &[Pushed::SameInteger],
        ),
        Operation::Negate => plain(alloc, &[Demand::Number], &[Pushed::SameNumber]),
        Operation::Complement => plain(alloc, &[Demand::Integer], &[Pushed::SameInteger]),
        Operation::CompareEqual => pair(alloc, Pairing::Equality, &[Pushed::Always(StackType::I4)]),
        Operation::CompareOrder => pair(alloc, Pairing::Ordering, &[Pushed::Always(StackType::I4)]),
        Operation::BranchEqual => pair(alloc, Pairing::Equality, &[]),
        Operation::BranchOrder => pair(alloc, Pairing::Ordering, &[]),
        Operation::BranchIf => plain(alloc, &[Demand::Condition], &[]),
        Operation::Branch => plain(alloc, &[], &[]),
        Operation::Switch => plain(alloc, &[Demand::Exactly(StackType::I4)], &[]),
        Operation::Convert(number) => plain(
            alloc,
            &[Demand::Number],
            &[Pushed::Always(number_type(number))],
        ),
        Operation::ConvertUnsigned => plain(
            alloc,
            &[Demand::Integer],
            &[Pushed::Always(StackType::F)],
        ),
        Operation::CheckFinite => plain(
            alloc,
            &[Demand::Exactly(StackType::F)],
            &[Pushed::Always(StackType::F)],
        ),
        Operation::LoadIndirect(numeric) => load_indirect(alloc, w, numeric),
        Operation::LoadIndirectReference => plain(
            alloc,
            &[Demand::ObjectPointer],
            &[Pushed::Pointed],
        ),
        Operation::StoreIndirect(numeric) => store_indirect(alloc, w, numeric),
        Operation::StoreIndirectReference => storing(alloc),
        Operation::LoadObject => load_object(alloc, w, &ins.operand),
        Operation::StoreObject => store_object(alloc, w, &ins.operand),
        Operation::CopyObject => copy_object(alloc, w, &ins.operand),
        Operation::InitObject => init_object(alloc, w, &ins.operand),
        Operation::SizeOf => plain(alloc, &[], &[Pushed::Always(StackType::I4)]),
        Operation::LoadFunction => plain(alloc, &[], &[Pushed::Always(StackType::N)]),
        Operation::LoadVirtualFunction => plain(
            alloc,
            &[Demand::Object],
            &[Pushed::Always(StackType::N)],
        ),
        Operation::LoadString => load_string(alloc, w),
        Operation::LoadToken => load_token(alloc, w, &ins.operand),
        Operation::BoxValue => box_value(alloc, w, &ins.operand),
        Operation::Cast => cast(alloc, w, &ins.operand),
        Operation::Unbox => unbox(alloc, w, &ins.operand),
        Operation::UnboxAny => unbox_any(alloc, w, &ins.operand),
        Operation::Throw => plain(alloc, &[Demand::Object], &[]),
        Operation::LoadField => load_field(alloc, w, constrained, &ins.operand),
        Operation::FieldAddress => field_address(alloc, w, constrained, &ins.operand),
        Operation::StoreField => store_field(alloc, w, constrained, &ins.operand),
        Operation::LoadStatic => load_static(alloc, w, constrained, &ins.operand),
        Operation::StaticAddress => static_address(alloc, w, constrained, &ins.operand),
        Operation::StoreStatic => store_static(alloc, w, constrained, &ins.operand),
        Operation::NewArray => new_array(alloc, w, &ins.operand),
        Operation::LoadLength => plain(alloc, &[Demand::Vector], &[Pushed::Always(StackType::N)]),
        Operation::LoadElement => load_element(alloc, w, &ins.operand),
        Operation::ElementAddress => element_address(alloc, w, &ins.operand),
        Operation::StoreElement => store_element(alloc, w, &ins.operand),
        Operation::LoadElementOf(numeric) => load_element_of(alloc, w, numeric),
        Operation::StoreElementOf(numeric) => store_element_of(alloc, w, numeric),
        Operation::LoadElementReference => plain(
            alloc,
            &[Demand::ObjectVector, Demand::Index],
            &[Pushed::Fetched],
        ),
        Operation::StoreElementReference => plain(
            alloc,
            &[Demand::ObjectVector, Demand::Index, Demand::Object],
            &[],
        ),
        Operation::Call => call_row(alloc, w, constrained, &ins.operand),
        Operation::CallVirtual => call_row(alloc, w, constrained, &ins.operand),
        Operation::NewObject => new_row(alloc, w, constrained, &ins.operand),
        Operation::Return => return_row(alloc, w, frame.returns),
        Operation::EndFilter => plain(alloc, &[Demand::Exactly(StackType::I4)], &[]),
        Operation::Leave => Ok(emptying(alloc)),
        Operation::EndFinally => Ok(emptying(alloc)),
        Operation::Rethrow => Ok(emptying(alloc)),
        Operation::Unlisted => plain(alloc, &[], &[]),
    }
}

/// The type that `constrained.` names before the instruction after this one.
fn constraint_after(
    w: &mut World,
    before: &Option<TypeKey>,
    ins: &Ins,
    operation: Operation,
) -> Result<Option<TypeKey>, NoMemory>
    requires { IfSome before.now (λ k. k < length w.old.nodes) }
    ensures ok { (f : Frame) → f.types ≡ hierarchy w.old → IfOk result (λ c. type_option w.new.nodes c ≡ constraint_by f (type_option w.old.nodes before.now) operation ins.now.operand) }
    ensures within { IfOk result (λ c. IfSome c (λ k. k < length w.new.nodes)) }
    ensures stays { Stays w.old w.new }
{
    match operation {
        Operation::Prefix(prefix) => match prefix {
            Prefix::Constrained => {
                let key = named_key(w, &ins.operand)?;
                Ok(Some(key))
            }
            Prefix::Tail => Ok(*before),
            Prefix::Readonly => Ok(*before),
            Prefix::Unaligned => Ok(*before),
            Prefix::Volatile => Ok(*before),
        },
        Operation::Idle
        | Operation::LoadArgument
        | Operation::StoreArgument
        | Operation::ArgumentAddress
        | Operation::LoadLocal
        | Operation::StoreLocal
        | Operation::LocalAddress
        | Operation::LoadNull
        | Operation::LoadNumber(_)
        | Operation::Duplicate
        | Operation::Discard
        | Operation::Arithmetic
        | Operation::IntegerArithmetic
        | Operation::Shift
        | Operation::Negate
        | Operation::Complement
        | Operation::CompareEqual
        | Operation::CompareOrder
        | Operation::BranchEqual
        | Operation::BranchOrder
        | Operation::BranchIf
        | Operation::Branch
        | Operation::Switch
        | Operation::Convert(_)
        | Operation::ConvertUnsigned
        | Operation::CheckFinite
        | Operation::LoadIndirect(_)
        | Operation::LoadIndirectReference
        | Operation::StoreIndirect(_)
        | Operation::StoreIndirectReference
        | Operation::LoadObject
        | Operation::StoreObject
        | Operation::CopyObject
        | Operation::InitObject
        | Operation::SizeOf
        | Operation::LoadFunction
        | Operation::LoadVirtualFunction
        | Operation::LoadString
        | Operation::LoadToken
        | Operation::BoxValue
        | Operation::Cast
        | Operation::Unbox
        | Operation::UnboxAny
        | Operation::Throw
        | Operation::LoadField
        | Operation::FieldAddress
        | Operation::StoreField
        | Operation::LoadStatic
        | Operation::StaticAddress
        | Operation::StoreStatic
        | Operation::NewArray
        | Operation::LoadLength
        | Operation::LoadElement
        | Operation::ElementAddress
        | Operation::StoreElement
        | Operation::LoadElementOf(_)
        | Operation::StoreElementOf(_)
        | Operation::LoadElementReference
        | Operation::StoreElementReference
        | Operation::Call
        | Operation::CallVirtual
        | Operation::NewObject
        | Operation::Return
        | Operation::EndFilter
        | Operation::Leave
        | Operation::EndFinally
        | Operation::Rethrow
        | Operation::Unlisted => Ok(None),
    }
}

/// The rows of the instructions of a body, in order.
pub(crate) fn rows_of(
    alloc: Global,
    w: &mut World,
    frame: &CodeFrame,
    code: &[Ins],
) -> Result<Items<Row>, NoMemory>
    requires frame { IsFrameWithin (length w.old.nodes) frame.now }
    ensures ok { (f : Frame) → f.types ≡ hierarchy w.old → f.code ≡ code.now → MeansFrame w.old.nodes frame.now f → IfOk result (λ rs. AreRows w.new.nodes rs f) }
    ensures stays { Stays w.old w.new }
{
    let mut rows = Items::with_capacity(alloc, code.len())?;
    let mut constrained = None;
    for ins in code {
        let operation = operation_of(ins.op);
        let row = row_by_operation(alloc, w, frame, constrained, ins, operation)?;
        rows.push(row)?;
        constrained = constraint_after(w, &constrained, ins, operation)?;
    }
    Ok(rows)
}
