//! Rows from what is asked and pushed.
ghost use Rattle.std.specs.Prelude.{List, IfOk};
ghost use Rattle.std.specs.List.{AllZip};
ghost use Rattle.sig_pool.specs.declared.node.Node.{Node};
ghost use Rattle.code_flow.specs.Demands as demands;
ghost use Rattle.stack_rows.specs.RowMeanings.{MeansDemand, MeansPushed, MeansRow, pairing_meant};
ghost use Rattle.code_flow.specs.Rows as rows;

use crate::row::{Demand, Pairing, Pushed, Row, Together};
use il_lists::{Items, NoMemory};
use std::alloc::Global;

/// A row that asks something of each operand, and pushes something.
pub fn plain(alloc: Global, operands: &[Demand], pushed: &[Pushed]) -> Result<Row, NoMemory>
    ensures { (ns : List Node) (os : List demands.Demand) (ps : List rows.Pushed) → AllZip (MeansDemand ns) operands.now os → AllZip (MeansPushed ns) pushed.now ps → IfOk result (λ r. MeansRow ns r (rows.row os ps)) }
{
    let operands = Items::from_slice(alloc, operands)?;
    let pushed = Items::from_slice(alloc, pushed)?;
    Ok(Row {
        operands,
        together: Together::Apart,
        pushed,
        empties: false,
    })
}

/// The row of lists of what is asked and pushed. Takes no memory.
pub fn made(operands: Items<Demand>, pushed: Items<Pushed>) -> Row
    ensures { (ns : List Node) (os : List demands.Demand) (ps : List rows.Pushed) → AllZip (MeansDemand ns) operands os → AllZip (MeansPushed ns) pushed ps → MeansRow ns result (rows.row os ps) }
{
    Row {
        operands,
        together: Together::Apart,
        pushed,
        empties: false,
    }
}

/// The row of an operation on a pair.
pub fn pair(alloc: Global, pairing: Pairing, pushed: &[Pushed]) -> Result<Row, NoMemory>
    ensures { (ns : List Node) (ps : List rows.Pushed) → AllZip (MeansPushed ns) pushed.now ps → IfOk result (λ r. MeansRow ns r (rows.pair_row (pairing_meant pairing) ps)) }
{
    let operands = Items::from_slice(alloc, &[Demand::Comparable, Demand::Comparable])?;
    let pushed = Items::from_slice(alloc, pushed)?;
    Ok(Row {
        operands,
        together: Together::Paired(pairing),
        pushed,
        empties: false,
    })
}

/// The row of `stind.ref`: a pointer to a reference type, and what is assignable to what it points to.
pub fn storing(alloc: Global) -> Result<Row, NoMemory>
    ensures { (ns : List Node) → IfOk result (λ r. MeansRow ns r rows.storing) }
{
    let operands = Items::from_slice(alloc, &[Demand::ObjectPointer, Demand::Any])?;
    Ok(Row {
        operands,
        together: Together::Stored,
        pushed: Items::new(alloc),
        empties: false,
    })
}

/// The row of an instruction that empties the stack. Takes no memory.
pub fn emptying(alloc: Global) -> Row
    ensures { (ns : List Node) → MeansRow ns result rows.emptying }
{
    Row {
        operands: Items::new(alloc),
        together: Together::Apart,
        pushed: Items::new(alloc),
        empties: true,
    }
}
