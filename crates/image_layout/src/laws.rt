//! Laws of images that are laid out, for the proofs of crates above. None of these functions does anything when it is called.
ghost use Rattle.image_layout.specs.Laws.{TablesAreRead, HeapsAreRead};

use heaps::contents_stay;
use metadata_tables::longer_stream;

/// The stream of tables of a laid-out image says the rows that were written (ECMA-335 II.24.2.6).
pub fn tables_are_read()
    ensures { TablesAreRead }
{
    longer_stream();
}

/// The heaps of a laid-out image hold what was written, at the same indexes (ECMA-335 II.24.2.3, II.24.2.4).
pub fn heaps_are_read()
    ensures { HeapsAreRead }
{
    contents_stay();
}
