//! Laws of demands on images, for the proofs of crates above. None of these functions does anything when it is called.
ghost use Rattle.laws_image_reading.specs.demands.OnBodies.{BodiesMeetDemands};

use image_layout::tables_are_read;
use laws_image_parts::{bodies_are_read, rows_are_read};
use metadata_tables::indexes_fit;

/// Headers, instructions, clauses and tokens of bodies are as they must be, by a namer that tells what tokens name and gives back what
/// was given one (ECMA-335 II.25.4, III.1.9).
pub fn bodies_meet_demands()
    ensures { BodiesMeetDemands }
{
    indexes_fit();
    tables_are_read();
    rows_are_read();
    bodies_are_read();
}
