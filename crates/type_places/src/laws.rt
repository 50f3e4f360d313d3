//! Where paths lead in a tree: laws, each as the contract of a function that does nothing when it is called.
ghost use Rattle.type_places.specs.Laws.{PathsLead, PlacesDiffer};

/// The first type of a path, in the order in which a source declares types, is the type that the path leads to (ECMA-335 II.5.3, II.10).
#[tactic(auto, using(crate::proofs::Leads::paths_lead))]
pub fn paths_lead()
    ensures { PathsLead }
{}

/// No two types of a tree have one path, and none has that of `<Module>` (ECMA-335 II.10.8, II.22.37).
#[tactic(auto, using(crate::proofs::Differ::places_differ))]
pub fn places_differ()
    ensures { PlacesDiffer }
{}
