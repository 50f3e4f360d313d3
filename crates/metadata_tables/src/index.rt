ghost use Rattle.std.specs.Prelude.{◌≡◌, ◌<◌, ◌≤◌, ℕ, length, IfOk, IfErr};
ghost use Rattle.metadata_tables.specs.Faults.{IsRowFault};
ghost use Rattle.metadata_tables.specs.Header.{IsHeaderOf, IsKnown};
ghost use Rattle.metadata_tables.specs.Layout.{IsIndexed};

use crate::TableFault;
use crate::header::Header;
use crate::layout::{RowLayout, row_layout};
use crate::schema::{TABLES, columns};

/// Where the rows of one table lie in a stream.
#[derive(Clone, Copy)]
pub(crate) struct TableIndex {
    /// Where the first row begins.
    pub(crate) start: usize,
    /// How many rows there are.
    pub(crate) rows: u32,
    /// How each row is laid out.
    pub(crate) layout: RowLayout,
}

/// Where the rows of each table lie.
pub(crate) fn index_tables(stream: &[u8], header: &Header) -> Result<[TableIndex; 45], TableFault>
    requires header { IsHeaderOf stream.now header.now }
    requires known { IsKnown stream.now }
    ensures indexed { IfOk result (IsIndexed stream.now) }
    ensures fault { IfErr result (IsRowFault stream.now) }
{
    let mut indexes = [NOTHING; 45];
    let mut start = header.start;
    for table in 0..TABLES {
        let rows = header.counts[usize::from(table)];
        let layout = row_layout(columns(table), &header.counts, header.heaps);
        let size = usize::from(layout.size);
        let room = stream.len() - start;
        let length = rows as usize * size;
        if length > room {
            return Err(TableFault {
                rule: 7,
                table,
                row: (room / size) as u32 + 1,
            });
        }
        indexes[usize::from(table)] = TableIndex {
            start,
            rows,
            layout,
        };
        start += length;
    }
    Ok(indexes)
}

/// A table that hasn't been looked at yet.
const NOTHING: TableIndex = TableIndex {
    start: 0,
    rows: 0,
    layout: RowLayout {
        size: 0,
        places: [0; 9],
        widths: [0; 9],
    },
};
