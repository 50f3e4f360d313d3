//! Laws of tidy images, for the proofs of crates above. None of these functions does anything when it is called.
ghost use Rattle.laws_image_parts.specs.tidy.Short.{SignaturesAreShort};
ghost use Rattle.laws_image_parts.specs.tidy.Tidy.{ImagesAreTidy};

use crate::bodies_laws::{bodies_are_read, loaded_are_tidy};
use crate::laws::{rows_are_read, runs_are_read};
use crate::names_laws::laid_out_is_written;
use crate::namings_laws::namings_are_read;
use crate::tidiness_laws::{
    contents_stand_once, entries_are_short, fields_are_written, rows_stand_once,
};
use metadata_tables::indexes_fit;
use sig_codec::written_is_read;

/// Each signature in use has its numbers in their shortest forms (ECMA-335 II.23.2).
pub fn signatures_are_short()
    ensures { SignaturesAreShort }
{
    indexes_fit();
    written_is_read();
    rows_are_read();
    runs_are_read();
}

/// A laid-out image whose manifest is well formed is tidy where its references hold nothing twice, and nothing that a reader
/// doesn't take (ECMA-335 II.22, II.23.2, II.24, II.25).
pub fn images_are_tidy()
    ensures { ImagesAreTidy }
{
    laid_out_is_written();
    namings_are_read();
    bodies_are_read();
    loaded_are_tidy();
    rows_stand_once();
    contents_stand_once();
    entries_are_short();
    fields_are_written();
    signatures_are_short();
}
