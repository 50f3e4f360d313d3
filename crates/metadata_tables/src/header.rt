ghost use Rattle.std.specs.Prelude.{◌≡◌, ◌+◌, ◌<◌, ◌≤◌, ℕ, length, drop, slice_index, IfOk, IfErr, ◌⊎◌};
ghost use Rattle.metadata_tables.specs.Stream.{header_size, present, row_count};
ghost use Rattle.metadata_tables.specs.Faults.{IsForeign, IsHeaderFault, IsProfileFault};
ghost use Rattle.metadata_tables.specs.Header.{IsHeaderOf, IsKnown};

use crate::TableFault;
use crate::number::number_at;
use crate::schema::PROFILE;
use byteorder::{ByteOrder, LittleEndian};

/// What the header of a stream says.
#[derive(Clone, Copy)]
pub(crate) struct Header {
    /// Where the rows begin.
    pub(crate) start: usize,
    /// The byte of heap sizes.
    pub(crate) heaps: u8,
    /// The row counts, by table.
    pub(crate) counts: [u32; 45],
}

/// Reads the header and the row counts.
pub(crate) fn read_header(stream: &[u8]) -> Result<Header, TableFault>
    ensures header { IfOk result (IsHeaderOf stream.now) }
    ensures known { IfOk result (λ _. IsKnown stream.now) }
    ensures fault { IfErr result (λ fault. IsHeaderFault stream.now fault ⊎ IsProfileFault stream.now fault) }
{
    if stream.len() < 24 {
        return Err(cut_header());
    }
    let present = present_tables(stream);
    let start = 24 + 4 * present.count_ones() as usize;
    if stream.len() < start {
        return Err(cut_header());
    }
    let foreign = present & !PROFILE;
    if foreign != 0 {
        return Err(TableFault {
            rule: 6,
            table: foreign.trailing_zeros() as u8,
            row: 0,
        });
    }
    Ok(Header {
        start,
        heaps: stream[6],
        counts: row_counts(stream, present),
    })
}

/// The tables that are present, a bit for each.
#[tactic(auto, unfolding(crate::specs::Stream::present))]
fn present_tables(stream: &[u8]) -> u64
    requires { 24 ≤ length stream.now }
    ensures { result ≡ present stream.now }
{
    LittleEndian::read_u64(&stream[8..])
}

/// The fault of a header that can't be read whole.
fn cut_header() -> TableFault
    ensures rule { result.rule ≡ 6 }
    ensures table { result.table ≡ 0 }
    ensures row { result.row ≡ 0 }
{
    TableFault {
        rule: 6,
        table: 0,
        row: 0,
    }
}

/// The row counts of the tables, which stand behind the header in the order of the tables that are present.
fn row_counts(stream: &[u8], mask: u64) -> [u32; 45]
    requires tables { mask ≡ present stream.now }
    requires room { header_size stream.now ≤ length stream.now }
    ensures there { length result ≡ 45 }
    ensures counts { (table : ℕ) → table < 45 → slice_index result table ≡ row_count stream.now table }
{
    let mut counts = [0; 45];
    let mut at = 24;
    for table in 0..45 {
        let mut count = 0;
        if (mask >> table) % 2 == 1 {
            count = number_at(stream, at, 4);
            at += 4;
        }
        counts[table] = count;
    }
    counts
}
