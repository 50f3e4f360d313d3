//! What follows of the definitions: laws, each as the contract of a function that does nothing when it is called.
ghost use Rattle.listing_growth.specs.Laws.{CanonStands, FlagsStand, MembersStand, ReferencesStand, TermsStand, ValuesStand};

/// Types and owners, as a listing writes them, are derived from the nonterminals for types and for what may be a name or a type
/// (ECMA-335 II.7.1).
#[tactic(auto, using(crate::proofs::Types::terms_stand))]
pub fn terms_stand()
    ensures { TermsStand }
{}

/// References to methods and to fields are derived from theirs (ECMA-335 II.10.5, II.15.3, II.16).
#[tactic(auto, using(crate::proofs::References::references_stand))]
pub fn references_stand()
    ensures { ReferencesStand }
{}

/// Constants, attributes and data are derived from theirs (ECMA-335 II.16.2, II.16.3, II.21).
#[tactic(auto, using(crate::proofs::Values::values_stand))]
pub fn values_stand()
    ensures { ValuesStand }
{}

/// The rows of flags of types, members, parameters and assemblies are derived from theirs, whatever the number (ECMA-335 II.23.1).
#[tactic(auto, using(crate::proofs::Flags::flags_stand))]
pub fn flags_stand()
    ensures { FlagsStand }
{}

/// Generic parameters and fields are derived from theirs (ECMA-335 II.10.1.7, II.16).
#[tactic(auto, using(crate::proofs::Members::members_stand))]
pub fn members_stand()
    ensures { MembersStand }
{}

/// The canonical source of a well-formed assembly is derived from the nonterminal of sources, where its values are such as a tree
/// in memory holds (ECMA-335 II.5, II.6).
#[tactic(auto, using(crate::proofs::Canon::canon_stands))]
pub fn canon_is_derived()
    ensures { CanonStands }
{}
