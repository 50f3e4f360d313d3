//! Laws of demands on images, for the proofs of crates above. None of these functions does anything when it is called.
ghost use Rattle.laws_image_reading.specs.kinds.Met.{AccessorsAreMet, AttributesAreMet, BasesAreMet, DistinctIsMet, HeaderIsMet};

use crate::demands_laws::bodies_meet_demands;
use heaps::one_content_at_an_index;
use laws_image_parts::{
    enclosers_are_read, laid_out_is_written, owned_are_read, parts_are_read, paths_are_read,
    rows_are_read, runs_are_read,
};
use laws_writable_trees::laws::types_are_declarable;
use metadata_tables::indexes_fit;
use sig_codec::{bytes_spell_one_signature, shortest_is_read, written_is_read};
use type_terms::orders_are_total;

/// No two types have one path; no two fields, methods or properties of a type one name and one signature, and no two of its
/// events one name (ECMA-335 II.22.13, II.22.15, II.22.26, II.22.34, II.22.37).
pub fn none_stands_twice()
    ensures { DistinctIsMet }
{
    orders_are_total();
    one_content_at_an_index();
    written_is_read();
    shortest_is_read();
    bytes_spell_one_signature();
    indexes_fit();
    types_are_declarable();
    laid_out_is_written();
    paths_are_read();
    rows_are_read();
    runs_are_read();
}

/// The code of methods is IL or the runtime's, and managed; the headers of bodies are known (ECMA-335 II.23.1.11, II.25.4).
pub fn headers_are_known()
    ensures { HeaderIsMet }
{
    indexes_fit();
    laid_out_is_written();
    rows_are_read();
    runs_are_read();
    parts_are_read();
    bodies_meet_demands();
}

/// Attributes stand at what may have them, and each names a method (ECMA-335 II.22.10).
pub fn attributes_are_known()
    ensures { AttributesAreMet }
{
    laid_out_is_written();
    rows_are_read();
}

/// Interfaces have no base, and every other type has one but for `<Module>` and `System.Object` (ECMA-335 II.22.37).
pub fn bases_are_right()
    ensures { BasesAreMet }
{
    laid_out_is_written();
    rows_are_read();
    runs_are_read();
    parts_are_read();
    enclosers_are_read();
}

/// Accessors are methods of the type whose property or event they serve (ECMA-335 II.22.28).
pub fn accessors_are_own()
    ensures { AccessorsAreMet }
{
    indexes_fit();
    laid_out_is_written();
    rows_are_read();
    runs_are_read();
    owned_are_read();
}
