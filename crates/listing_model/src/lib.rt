//! The canonical source of an assembly (ECMA-335 II.5, II.6): definitions. `canon` is a derivation whose leaves carry the spellings of
//! their tokens, `listing` its text; and laws on such derivations and texts.
#![tactic(auto)]

pub mod laws;
