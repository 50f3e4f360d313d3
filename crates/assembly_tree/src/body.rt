use il_lists::{Boxed, Items, Numbers, Units};
use opcode_table::Op;
use type_terms::{FieldRef, MethodRef, Owner, Types};

/// The body of a method (II.25.4).
#[derive(Drop)]
pub struct Body {
    /// The most values that the stack is to hold.
    pub bound: u16,
    /// Whether locals are set to zero at the start.
    pub init: bool,
    pub locals: Types,
    pub code: Code,
    /// The exception clauses, in order.
    pub clauses: Clauses,
}

/// An instruction (III.1.2).
#[derive(Drop)]
pub struct Ins {
    pub op: Op,
    pub operand: Operand,
}

/// The instructions of a body in order.
pub type Code = Items<Ins>;

/// The operand of an instruction: the argument that stands behind its opcode (III.1.2). Targets are instruction numbers,
/// counted from 0. What is larger than a number stands in a box, so that an instruction takes little memory.
#[derive(Drop)]
pub enum Operand {
    Nothing,
    /// The number of a local or argument.
    Var(u16),
    Int(i64),
    /// The bit pattern of a real number, in the instruction's width.
    Real(u64),
    Target(u32),
    Targets(Boxed<Numbers>),
    Method(Boxed<MethodRef>),
    Field(Boxed<FieldRef>),
    Of(Boxed<Owner>),
    Text(Boxed<Units>),
}

/// An exception clause (II.19, II.25.4.6): ranges of instruction numbers, the end not included.
#[derive(Drop)]
pub struct Clause {
    pub kind: ClauseKind,
    pub try_start: u32,
    pub try_end: u32,
    pub handler_start: u32,
    pub handler_end: u32,
}

/// The clauses of a body in order.
pub type Clauses = Items<Clause>;

/// What a clause handles.
#[derive(Drop)]
pub enum ClauseKind {
    /// Objects of that type.
    Catch(Owner),
    /// What the filter, which starts at that instruction, lets through.
    Filter(u32),
    Finally,
    Fault,
}
