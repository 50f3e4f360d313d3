//! How many entry points a listing has: a law, as the contract of a function that does nothing when it is called.
ghost use Rattle.listing_denotes.specs.Entries.{ListingsEnterOnce};

use listing_bodies::laws::lines_lack;
use listing_classes::laws::class_bodies_are_read;
use listing_data::laws::types_stand;
use listing_declarations::laws::declarations_are_read;
use listing_nesting::laws::types_are_formed;
use listing_reading::laws::searches_pass;
use listing_rows::laws::pieces_are_read;

/// A listing has `.entrypoint` as often as methods of the tree say so, which is once at most (ECMA-335 II.15.4.1.2).
pub fn listings_enter_once()
    ensures { ListingsEnterOnce }
{
    searches_pass();
    pieces_are_read();
    lines_lack();
    class_bodies_are_read();
    types_are_formed();
    types_stand();
    declarations_are_read();
}
