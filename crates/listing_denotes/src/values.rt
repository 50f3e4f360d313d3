//! Which flags, constants and other assemblies of a listing break no rule: laws, each as the contract of a function that does nothing when it is called.
ghost use Rattle.listing_denotes.specs.Values.{NumbersAlone, FlagsBreakNothing, ConstantsBreakNothing, AssembliesBreakNothing, ExternsBreakNothing};

use crate::quiet::rows_break_nothing;
use faultless_nodes::laws::unasked_break_nothing;
use listing_constants::laws::constants_are_read;
use listing_declarations::laws::declarations_are_read;
use listing_rows::laws::segments_are_read;
use listing_values::laws::numbers_are_read;

/// A production of which the rules on numbers alone speak breaks none where its numbers are in their ranges (ECMA-335 II.23.1).
pub fn numbers_alone()
    ensures { NumbersAlone }
{}

/// The flags of types, members, parameters and generic parameters break no rule where they fit their fields (ECMA-335 II.23.1).
pub fn flags_break_nothing()
    ensures { FlagsBreakNothing }
{
    unasked_break_nothing();
    numbers_are_read();
    numbers_alone();
}

/// A constant of a listing breaks no rule (ECMA-335 II.16.2).
pub fn constants_break_nothing()
    ensures { ConstantsBreakNothing }
{
    unasked_break_nothing();
    numbers_are_read();
    numbers_alone();
    constants_are_read();
}

/// The flags of an assembly break no rule (ECMA-335 II.6.2, II.6.3).
pub fn assemblies_break_nothing()
    ensures { AssembliesBreakNothing }
{
    unasked_break_nothing();
    numbers_are_read();
    numbers_alone();
    segments_are_read();
    rows_break_nothing();
}

/// The other assemblies that a listing names break no rule (ECMA-335 II.6.3).
pub fn externs_break_nothing()
    ensures { ExternsBreakNothing }
{
    unasked_break_nothing();
    numbers_are_read();
    numbers_alone();
    assemblies_break_nothing();
    segments_are_read();
    rows_break_nothing();
    declarations_are_read();
}
