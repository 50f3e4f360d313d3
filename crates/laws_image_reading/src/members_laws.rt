//! Laws of demands on members, for the proofs of crates above. None of these functions does anything when it is called.
ghost use Rattle.laws_image_reading.specs.members.Demands.{SignaturesHold, ValuesHold};

use heaps::one_content_at_an_index;
use laws_image_parts::{
    code_is_read, constants_are_read, items_are_read, laid_out_is_written, members_are_owned,
    owned_are_read, parents_are_read, paths_are_read, rows_are_read, runs_are_read,
};
use metadata_tables::indexes_fit;
use sig_codec::{bytes_spell_one_signature, shortest_is_read, written_is_read};

/// Fields, methods, properties and rows of references in use have signatures of their kinds, in bounds, and overrides and
/// instances are those of methods (ECMA-335 II.22, II.23.2).
pub fn signatures_hold()
    ensures { SignaturesHold }
{
    laid_out_is_written();
    indexes_fit();
    rows_are_read();
    runs_are_read();
    members_are_owned();
    written_is_read();
    shortest_is_read();
}

/// Generic parameters, layouts, constants, offsets and data, accessors, overrides and instances are as they must be (ECMA-335
/// II.22.8, II.22.9, II.22.13, II.22.16, II.22.18, II.22.20, II.22.26 to II.22.29).
pub fn values_hold()
    ensures { ValuesHold }
{
    laid_out_is_written();
    one_content_at_an_index();
    written_is_read();
    shortest_is_read();
    bytes_spell_one_signature();
    indexes_fit();
    rows_are_read();
    runs_are_read();
    items_are_read();
    owned_are_read();
    constants_are_read();
    code_is_read();
    paths_are_read();
    members_are_owned();
    parents_are_read();
}
