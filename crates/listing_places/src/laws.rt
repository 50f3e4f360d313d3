//! Which types a listing declares: laws, each as the contract of a function that does nothing when it is called.
ghost use Rattle.listing_places.specs.Laws.{PlacesAreRead, SizesAreKnown};

use listing_class_heads::laws::class_heads_are_read;
use listing_classes::laws::{class_bodies_are_read, class_members_are_read};
use listing_data::laws::types_stand;
use listing_declarations::laws::declarations_are_read;
use listing_growth::laws::canon_is_derived;
use listing_nesting::laws::types_are_formed;
use listing_reading::laws::searches_pass;
use listing_rows::laws::{pieces_are_read, segments_are_read};
use type_places::laws::paths_lead;

/// The types that a listing declares, one after another, have the paths and the layouts of those of the tree (ECMA-335 II.10, II.10.7).
pub fn places_are_read()
    ensures { PlacesAreRead }
{
    canon_is_derived();
    searches_pass();
    segments_are_read();
    pieces_are_read();
    class_heads_are_read();
    class_bodies_are_read();
    class_members_are_read();
    types_are_formed();
    types_stand();
    declarations_are_read();
}

/// A value of a type has as many bytes in a listing as in the tree (ECMA-335 II.16.3).
pub fn sizes_are_known()
    ensures { SizesAreKnown }
{
    paths_lead();
    places_are_read();
}
