//! Which pieces of a listing break no rule: laws, each as the contract of a function that does nothing when it is called.
ghost use Rattle.listing_denotes.specs.Quiet.{RowsBreakNothing, DataBreakNothing, HeadersBreakNothing, ListingsBreakByDeclarations, DeclarationsDenote};

use crate::faults::quiet_listings_denote;
use faultless_nodes::laws::unasked_break_nothing;
use listing_data::laws::contents_are_held;
use listing_declarations::laws::declarations_are_read;
use listing_reading::laws::searches_pass;
use listing_values::laws::{bytes_are_read, numbers_are_read};

/// A row of a listing breaks no rule where none of its items does, nor does anything in which nothing can stand of which a rule speaks
/// (ECMA-335 II.5 to II.19).
pub fn rows_break_nothing()
    ensures { RowsBreakNothing }
{
    unasked_break_nothing();
    searches_pass();
}

/// The data of a listing break no rule: each has no more bytes than a declaration of data may have (ECMA-335 II.16.3).
pub fn data_break_nothing()
    ensures { DataBreakNothing }
{
    unasked_break_nothing();
    bytes_are_read();
    contents_are_held();
    declarations_are_read();
}

/// The numbers of the headers that a listing says break no rule: each is in its range (ECMA-335 II.5.10, II.25.2.3, II.25.3.3.1).
pub fn headers_break_nothing()
    ensures { HeadersBreakNothing }
{
    numbers_are_read();
}

/// A listing breaks no rule where none of its declarations but data does (ECMA-335 II.5.10).
pub fn listings_break_by_declarations()
    ensures { ListingsBreakByDeclarations }
{
    unasked_break_nothing();
    rows_break_nothing();
    data_break_nothing();
}

/// A listing denotes its assembly where none of its declarations but data breaks a rule (ECMA-335 II.5.10).
pub fn declarations_denote()
    ensures { DeclarationsDenote }
{
    quiet_listings_denote();
    listings_break_by_declarations();
}
