//! Laws of demands on the order of rows, for the proofs of crates above. None of these functions does anything when it is called.
ghost use Rattle.laws_image_reading.specs.order.OnRows.{ManifestHolds, OrderHolds, RunsHold, ScopesHold};

use image_layout::tables_are_read;
use laws_image_parts::{laid_out_is_written, paths_are_read, rows_are_read, runs_are_read};
use metadata_tables::indexes_fit;

/// There is one module, one assembly and at least one type, and the first type is `<Module>`, which has no base, properties, events,
/// interfaces, attributes and generic parameters, and is in no nesting (ECMA-335 II.22.2, II.22.30, II.22.37).
pub fn manifest_holds()
    ensures { ManifestHolds }
{
    laid_out_is_written();
    rows_are_read();
    paths_are_read();
}

/// Runs rise, each field, method, parameter, property and event lies in a run, no type has two rows in EventMap or PropertyMap, and
/// the numbers of a method's parameters rise (ECMA-335 II.22.12, II.22.26, II.22.33, II.22.35, II.22.37).
pub fn runs_hold()
    ensures { RunsHold }
{
    indexes_fit();
    tables_are_read();
    rows_are_read();
    runs_are_read();
}

/// Each table that is sorted by columns stands in their order (ECMA-335 II.22).
pub fn order_holds()
    ensures { OrderHolds }
{
    tables_are_read();
    rows_are_read();
}

/// Each type that is referred to lies in an extern, and each nested type stands once, behind its encloser, neither too deep (ECMA-335
/// II.22.32, II.22.38).
pub fn scopes_hold()
    ensures { ScopesHold }
{
    laid_out_is_written();
    rows_are_read();
    paths_are_read();
}
