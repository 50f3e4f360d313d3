//! The demand on signatures (I14), decided for each row: each signature in use is spelled whole, by the kind that its column wants, with
//! its numbers in bounds; a sentinel stands in a MemberRef alone; a MemberRef in a MethodSpec or MethodImpl row has a method's signature
//! (II.22, II.23.2).
#![tactic(auto)]

mod declared;
mod first;
mod name_facts;
mod named;
mod references;
mod signatures;

pub use first::first_unmet_signature;
pub use name_facts::NameFacts;
pub use signatures::Signatures;
