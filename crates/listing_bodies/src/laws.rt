//! What the bodies of methods of a listing are read as: laws, each as the contract of a function that does nothing when it is called.
ghost use Rattle.listing_bodies.specs.Laws.{BodiesAreRead, LinesLack};

use listing_constants::laws::{constants_are_read, labels_are_read, strings_are_read};
use listing_formed::laws::formed_are_read;
use listing_reading::laws::searches_pass;
use listing_rows::laws::{pieces_are_read, segments_are_read, walks_pass};
use listing_values::laws::{labels_differ, numbers_are_read};

/// The lines of a body are read as the body: its instructions with their operands, each label as the number of the instruction behind
/// it, locals, and exception clauses (ECMA-335 II.15.4.1, II.19, III.1.7).
pub fn bodies_are_read()
    ensures { BodiesAreRead }
{
    numbers_are_read();
    labels_differ();
    labels_are_read();
    strings_are_read();
    constants_are_read();
    formed_are_read();
    searches_pass();
    walks_pass();
    segments_are_read();
    pieces_are_read();
}

/// The lines of a body hold nothing that can't stand in them (ECMA-335 II.15.4.1).
pub fn lines_lack()
    ensures { LinesLack }
{
    pieces_are_read();
    searches_pass();
}
