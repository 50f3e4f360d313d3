//! Laws of bodies with more bytes behind them, for the proofs of crates above. None of these functions does anything when it is
//! called.
ghost use Rattle.laws_image_parts.specs.in_code.Following.{BodiesMayBeFollowed, MoreMayFollow};
ghost use Rattle.laws_image_parts.specs.in_code.Given.{NamedIsGiven};

/// A header, code and sections that can be read are the same where more bytes follow (ECMA-335 II.25.4.1 to II.25.4.6).
pub fn more_may_follow()
    ensures { MoreMayFollow }
{}

/// Bytes that spell a body spell it with more bytes behind them too (ECMA-335 II.25.4).
pub fn bodies_may_be_followed()
    ensures { BodiesMayBeFollowed }
{
    more_may_follow();
}

/// Each token that a written body names was given to what it names (ECMA-335 II.25.4.3, II.25.4.6, III.1.9).
pub fn named_is_given()
    ensures { NamedIsGiven }
{
    more_may_follow();
}
