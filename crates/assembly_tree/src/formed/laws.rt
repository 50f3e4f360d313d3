ghost use Rattle.assembly_tree.specs.WellFormedFacts.{NamesAssemblies, NamesHeads, NamesTypes, NamesFields, NamesMethods, NamesProperties, NamesEvents, NamesSignatures, NamesMethodRefs, NamesFieldRefs, NamesBodies};

/// A part of a tree is well formed exactly where it meets each of its conditions, which the records of the definitions
/// name. It does nothing when it is called.
#[tactic(auto, using(crate::proofs::FormedFacts::assemblies_named, crate::proofs::FormedFacts::heads_named, crate::proofs::FormedFacts::types_named, crate::proofs::FormedFacts::fields_named, crate::proofs::FormedFacts::methods_named, crate::proofs::FormedFacts::properties_named, crate::proofs::FormedFacts::events_named, crate::proofs::FormedFacts::signatures_named, crate::proofs::FormedFacts::method_refs_named, crate::proofs::FormedFacts::field_refs_named, crate::proofs::FormedFacts::bodies_named))]
pub fn conditions_are_named()
    ensures assemblies { NamesAssemblies }
    ensures heads { NamesHeads }
    ensures types { NamesTypes }
    ensures fields { NamesFields }
    ensures methods { NamesMethods }
    ensures properties { NamesProperties }
    ensures events { NamesEvents }
    ensures signatures { NamesSignatures }
    ensures method_refs { NamesMethodRefs }
    ensures field_refs { NamesFieldRefs }
    ensures bodies { NamesBodies }
{}
