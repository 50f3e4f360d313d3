//! What the manifest of a listing and the assemblies that it names are read as: laws, each as the contract of a function that does
//! nothing when it is called.
ghost use Rattle.listing_manifests.specs.Laws.{AssembliesAreRead, ExternsAreRead, HeadersAreRead};

use listing_constants::laws::{attributes_are_read, strings_are_read};
use listing_flags::laws::flags_are_read;
use listing_reading::laws::searches_pass;
use listing_rows::laws::{options_are_read, pieces_are_read, segments_are_read};
use listing_values::laws::{bytes_are_read, names_are_read, numbers_are_read};

/// The assemblies that a listing names are read as these: names, versions, flags, keys, cultures and hashes (ECMA-335 II.6.3, II.22.5).
pub fn externs_are_read()
    ensures { ExternsAreRead }
{
    names_are_read();
    numbers_are_read();
    bytes_are_read();
    strings_are_read();
    flags_are_read();
    searches_pass();
    options_are_read();
    segments_are_read();
    pieces_are_read();
}

/// The assembly of a listing is read as this: name, version, flags, key, culture, hash algorithm and attributes (ECMA-335 II.6.2, II.22.2).
pub fn assemblies_are_read()
    ensures { AssembliesAreRead }
{
    names_are_read();
    numbers_are_read();
    bytes_are_read();
    strings_are_read();
    attributes_are_read();
    flags_are_read();
    searches_pass();
    options_are_read();
    segments_are_read();
    pieces_are_read();
}

/// The module's name and the numbers of the headers in the lines of a manifest are read as these (ECMA-335 II.6.2.1, II.25.2.3).
pub fn headers_are_read()
    ensures { HeadersAreRead }
{
    names_are_read();
    numbers_are_read();
    segments_are_read();
    pieces_are_read();
}
