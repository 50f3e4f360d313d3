ghost use Rattle.std.specs.Prelude.{◌≡◌, ◌↔◌, ℕ, length, slice_get, IsTrue, Some};
ghost use Rattle.code_flow.specs.CodeRules.{LacksLocal, LacksArgument};
ghost use Rattle.code_flow.specs.CodeTests.{lacks_by};
ghost use Rattle.code_flow.specs.Frames.{Frame};
ghost use Rattle.code_flow.specs.Operations.{operation};
ghost use Rattle.code_flow.specs.Rows.{variable};
ghost use Rattle.code_flow.specs.Rules.{loads_local, loads_argument};

use crate::operation::{Operation, operation_of};
use assembly_tree::Ins;

impl Operation {
    /// Whether it reads, writes or points to a local.
    fn loads_local(self) -> bool
        ensures { result ≡ loads_local self }
    {
        match self {
            Operation::LoadLocal | Operation::StoreLocal | Operation::LocalAddress => true,
            _ => false,
        }
    }

    /// Whether it reads, writes or points to an argument.
    fn loads_argument(self) -> bool
        ensures { result ≡ loads_argument self }
    {
        match self {
            Operation::LoadArgument | Operation::StoreArgument | Operation::ArgumentAddress => true,
            _ => false,
        }
    }
}

fn lacks(count: usize, number: u16, loads: bool) -> bool
    ensures { result ≡ lacks_by count number loads }
{
    loads && count <= number as usize
}

fn lacks_local_of(count: usize, number: u16, ins: &Ins) -> bool
    ensures { result ≡ lacks_by count number (loads_local (operation ins.now.op)) }
{
    lacks(count, number, operation_of(ins.op).loads_local())
}

fn lacks_argument_of(count: usize, number: u16, ins: &Ins) -> bool
    ensures { result ≡ lacks_by count number (loads_argument (operation ins.now.op)) }
{
    lacks(count, number, operation_of(ins.op).loads_argument())
}

/// Whether an instruction names a local by a number that isn't below their count (V8).
pub fn lacks_local(count: usize, number: u16, ins: &Ins) -> bool
    ensures { (f : Frame) (k : ℕ) → slice_get f.code k ≡ Some ins.now → number ≡ variable ins.now → length f.locals ≡ count → (IsTrue result ↔ LacksLocal f k) }
{
    lacks_local_of(count, number, ins)
}

/// Whether an instruction names an argument by a number that isn't below their count (V9).
pub fn lacks_argument(count: usize, number: u16, ins: &Ins) -> bool
    ensures { (f : Frame) (k : ℕ) → slice_get f.code k ≡ Some ins.now → number ≡ variable ins.now → length f.arguments ≡ count → (IsTrue result ↔ LacksArgument f k) }
{
    lacks_argument_of(count, number, ins)
}
