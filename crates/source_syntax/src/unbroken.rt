//! Signatures that break no rule of their own can be read: a law, as the contract of a function.

ghost use Rattle.source_syntax.specs.Sound.{UnbrokenIsSound};

/// Where a field's, method's, property's or reference's signature breaks no rule, its types can be read (ECMA-335 II.23.2).
pub fn unbroken_signatures_are_sound()
    ensures { UnbrokenIsSound }
{}
