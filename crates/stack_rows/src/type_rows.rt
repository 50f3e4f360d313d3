//! Rows of instructions that name a type (ECMA-335 III.4).
ghost use Rattle.std.specs.Prelude.{IfOk};
ghost use Rattle.type_hierarchy.specs.World.{hierarchy, Stays};
ghost use Rattle.code_flow.specs.declared.operation.Operation.TheVariants as does;
ghost use Rattle.stack_rows.specs.RowMeanings.{MeansRow};
ghost use Rattle.code_flow.specs.Rows.{named_in, type_row};

use crate::making::plain;
use crate::naming::{named_key, type_named};
use crate::row::{Demand, Pushed, Row};
use assembly_tree::Operand;
use il_lists::NoMemory;
use std::alloc::Global;
use type_order::types::World;
use type_order::{StackType, boxed_of, vector_of};

/// Of `ldobj`.
pub fn load_object(alloc: Global, w: &mut World, operand: &Operand) -> Result<Row, NoMemory>
    ensures ok { IfOk result (λ r. MeansRow w.new.nodes r (type_row (hierarchy w.old) does.LoadObject (named_in (hierarchy w.old) operand.now))) }
    ensures stays { Stays w.old w.new }
{
    let t = type_named(w, operand)?;
    plain(
        alloc,
        &[Demand::Exactly(t.pointer)],
        &[Pushed::Always(t.value)],
    )
}

/// Of `stobj`.
pub fn store_object(alloc: Global, w: &mut World, operand: &Operand) -> Result<Row, NoMemory>
    ensures ok { IfOk result (λ r. MeansRow w.new.nodes r (type_row (hierarchy w.old) does.StoreObject (named_in (hierarchy w.old) operand.now))) }
    ensures stays { Stays w.old w.new }
{
    let t = type_named(w, operand)?;
    plain(
        alloc,
        &[Demand::Exactly(t.pointer), Demand::To(t.value)],
        &[],
    )
}

/// Of `cpobj`.
pub fn copy_object(alloc: Global, w: &mut World, operand: &Operand) -> Result<Row, NoMemory>
    ensures ok { IfOk result (λ r. MeansRow w.new.nodes r (type_row (hierarchy w.old) does.CopyObject (named_in (hierarchy w.old) operand.now))) }
    ensures stays { Stays w.old w.new }
{
    let t = type_named(w, operand)?;
    plain(
        alloc,
        &[Demand::Exactly(t.pointer), Demand::Exactly(t.pointer)],
        &[],
    )
}

/// Of `initobj`.
pub fn init_object(alloc: Global, w: &mut World, operand: &Operand) -> Result<Row, NoMemory>
    ensures ok { IfOk result (λ r. MeansRow w.new.nodes r (type_row (hierarchy w.old) does.InitObject (named_in (hierarchy w.old) operand.now))) }
    ensures stays { Stays w.old w.new }
{
    let t = type_named(w, operand)?;
    plain(alloc, &[Demand::Exactly(t.pointer)], &[])
}

/// Of `box`.
pub fn box_value(alloc: Global, w: &mut World, operand: &Operand) -> Result<Row, NoMemory>
    ensures ok { IfOk result (λ r. MeansRow w.new.nodes r (type_row (hierarchy w.old) does.BoxValue (named_in (hierarchy w.old) operand.now))) }
    ensures stays { Stays w.old w.new }
{
    let t = type_named(w, operand)?;
    let object = boxed_of(w, &t.key)?;
    plain(alloc, &[Demand::To(t.value)], &[Pushed::Always(object)])
}

/// Of `castclass` and `isinst`.
pub fn cast(alloc: Global, w: &mut World, operand: &Operand) -> Result<Row, NoMemory>
    ensures ok { IfOk result (λ r. MeansRow w.new.nodes r (type_row (hierarchy w.old) does.Cast (named_in (hierarchy w.old) operand.now))) }
    ensures stays { Stays w.old w.new }
{
    let key = named_key(w, operand)?;
    let object = boxed_of(w, &key)?;
    plain(alloc, &[Demand::Object], &[Pushed::Always(object)])
}

/// Of `unbox`.
pub fn unbox(alloc: Global, w: &mut World, operand: &Operand) -> Result<Row, NoMemory>
    ensures ok { IfOk result (λ r. MeansRow w.new.nodes r (type_row (hierarchy w.old) does.Unbox (named_in (hierarchy w.old) operand.now))) }
    ensures stays { Stays w.old w.new }
{
    let t = type_named(w, operand)?;
    plain(alloc, &[Demand::Object], &[Pushed::Always(t.pointer)])
}

/// Of `unbox.any`.
pub fn unbox_any(alloc: Global, w: &mut World, operand: &Operand) -> Result<Row, NoMemory>
    ensures ok { IfOk result (λ r. MeansRow w.new.nodes r (type_row (hierarchy w.old) does.UnboxAny (named_in (hierarchy w.old) operand.now))) }
    ensures stays { Stays w.old w.new }
{
    let t = type_named(w, operand)?;
    plain(alloc, &[Demand::Object], &[Pushed::Always(t.value)])
}

/// Of `newarr`.
pub fn new_array(alloc: Global, w: &mut World, operand: &Operand) -> Result<Row, NoMemory>
    ensures ok { IfOk result (λ r. MeansRow w.new.nodes r (type_row (hierarchy w.old) does.NewArray (named_in (hierarchy w.old) operand.now))) }
    ensures stays { Stays w.old w.new }
{
    let key = named_key(w, operand)?;
    let vector = StackType::Ref(vector_of(w, &key)?);
    plain(alloc, &[Demand::Index], &[Pushed::Always(vector)])
}

/// Of `ldelem`.
pub fn load_element(alloc: Global, w: &mut World, operand: &Operand) -> Result<Row, NoMemory>
    ensures ok { IfOk result (λ r. MeansRow w.new.nodes r (type_row (hierarchy w.old) does.LoadElement (named_in (hierarchy w.old) operand.now))) }
    ensures stays { Stays w.old w.new }
{
    let t = type_named(w, operand)?;
    let vector = StackType::Ref(vector_of(w, &t.key)?);
    plain(
        alloc,
        &[Demand::To(vector), Demand::Index],
        &[Pushed::Always(t.value)],
    )
}

/// Of `ldelema`.
pub fn element_address(alloc: Global, w: &mut World, operand: &Operand) -> Result<Row, NoMemory>
    ensures ok { IfOk result (λ r. MeansRow w.new.nodes r (type_row (hierarchy w.old) does.ElementAddress (named_in (hierarchy w.old) operand.now))) }
    ensures stays { Stays w.old w.new }
{
    let t = type_named(w, operand)?;
    let vector = StackType::Ref(vector_of(w, &t.key)?);
    plain(
        alloc,
        &[Demand::To(vector), Demand::Index],
        &[Pushed::Always(t.pointer)],
    )
}

/// Of `stelem`.
pub fn store_element(alloc: Global, w: &mut World, operand: &Operand) -> Result<Row, NoMemory>
    ensures ok { IfOk result (λ r. MeansRow w.new.nodes r (type_row (hierarchy w.old) does.StoreElement (named_in (hierarchy w.old) operand.now))) }
    ensures stays { Stays w.old w.new }
{
    let t = type_named(w, operand)?;
    let vector = StackType::Ref(vector_of(w, &t.key)?);
    plain(
        alloc,
        &[Demand::To(vector), Demand::Index, Demand::To(t.value)],
        &[],
    )
}
