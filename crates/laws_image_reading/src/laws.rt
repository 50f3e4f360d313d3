//! Laws of what an image reads as, for the proofs of crates above. None of these functions does anything when it is called.
ghost use Rattle.laws_image_reading.specs.Laws.{DemandsHold, ImagesAreRead};

use crate::cells_laws::{entries_hold, indexes_hold, tables_open};
use crate::demands_laws::bodies_meet_demands;
use crate::kinds_laws::{
    accessors_are_own, attributes_are_known, bases_are_right, headers_are_known, none_stands_twice,
};
use crate::members_laws::{signatures_hold, values_hold};
use crate::order_laws::{manifest_holds, order_holds, runs_hold, scopes_hold};
use crate::parts_laws::assemblies_are_read;
use laws_image_parts::{laid_out_is_written, namings_are_read};

/// Each row of the image meets each demand, by a namer that tells what tokens name and gives back what was given one (ECMA-335
/// II.22 to II.25).
pub fn demands_hold()
    ensures { DemandsHold }
{
    indexes_hold();
    entries_hold();
    manifest_holds();
    runs_hold();
    order_holds();
    scopes_hold();
    signatures_hold();
    none_stands_twice();
    values_hold();
    headers_are_known();
    bodies_meet_demands();
    attributes_are_known();
    bases_are_right();
    accessors_are_own();
}

/// No demand on the image fails, and each part of the assembly is what the image gives (ECMA-335 II.22 to II.25).
pub fn images_are_read()
    ensures { ImagesAreRead }
{
    laid_out_is_written();
    tables_open();
    namings_are_read();
    demands_hold();
    assemblies_are_read();
}
