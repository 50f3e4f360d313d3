//! What a whole listing says: laws, each as the contract of a function that does nothing when it is called.
ghost use Rattle.listing_denotes.specs.Whole.{FaultlessListingsDenote, ListingsAreRead, ListingsAreSources};

use listing_data::laws::{contents_are_held, data_are_there, types_stand};
use listing_declarations::laws::{
    declarations_are_read, externs_are_named, globals_are_read, manifests_are_read,
};
use listing_growth::laws::canon_is_derived;
use listing_keys::laws::keys_are_known;
use listing_model::laws::grown_is_derived;
use listing_nesting::laws::nested_are_read;
use listing_places::laws::sizes_are_known;
use listing_reading::laws::forests_agree;
use listing_tokens::laws::leaves_are_read;

/// The listing of a well-formed assembly that isn't too heavy, where it is UTF-8, lexes into tokens and is derived from them: it is a
/// source, whose derivation is the canonical source (ECMA-335 II.5).
pub fn listings_are_sources()
    ensures { ListingsAreSources }
{
    canon_is_derived();
    grown_is_derived();
    forests_agree();
    leaves_are_read();
}

/// What such a source says is the assembly: its manifest, the assemblies that it names, its types, and the fields and methods outside of
/// any (ECMA-335 II.5 to II.19, II.21).
pub fn listings_are_read()
    ensures { ListingsAreRead }
{
    contents_are_held();
    data_are_there();
    types_stand();
    declarations_are_read();
    externs_are_named();
    globals_are_read();
    manifests_are_read();
    keys_are_known();
    nested_are_read();
    sizes_are_known();
}

/// So a listing denotes its assembly where it breaks no rule (ECMA-335 II.5 to II.19, II.21).
pub fn faultless_listings_denote()
    ensures { FaultlessListingsDenote }
{
    listings_are_sources();
    listings_are_read();
}
