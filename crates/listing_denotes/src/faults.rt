//! Which rules a listing doesn't break: laws, each as the contract of a function that does nothing when it is called.
ghost use Rattle.listing_denotes.specs.Faults.{ListingsDeclareOnce, QuietListingsDenote};

use crate::entries::listings_enter_once;
use crate::whole::{faultless_listings_denote, listings_are_read};
use faultless_nodes::laws::nodes_suffice;
use listing_data::laws::{contents_are_held, data_are_there};
use listing_declarations::laws::manifests_are_read;
use listing_growth::laws::canon_is_derived;
use listing_keys::laws::{keys_are_known, keys_differ};
use listing_places::laws::places_are_read;
use listing_reading::laws::searches_pass;
use listing_values::laws::labels_differ;
use members_once::laws::members_are_once;
use type_places::laws::places_differ;

/// A listing declares each type, each member, each assembly, the entry point, the module and all data once, and it declares an assembly
/// (ECMA-335 II.5.4, II.6.2, II.6.3, II.10, II.15.4.1.2, II.16.3, II.22).
pub fn listings_declare_once()
    ensures { ListingsDeclareOnce }
{
    canon_is_derived();
    searches_pass();
    labels_differ();
    contents_are_held();
    data_are_there();
    manifests_are_read();
    keys_are_known();
    keys_differ();
    places_are_read();
    places_differ();
    members_are_once();
    listings_are_read();
    listings_enter_once();
}

/// A listing denotes its assembly where none of its productions breaks a rule (ECMA-335 II.5 to II.19, II.21).
pub fn quiet_listings_denote()
    ensures { QuietListingsDenote }
{
    nodes_suffice();
    listings_declare_once();
    faultless_listings_denote();
}
