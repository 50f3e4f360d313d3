ghost use Rattle.tree_names.specs.Laws.{FormedFields, FormedManifests, FormedMethods, FormedNested, FormedOwn, FormedOwners, FormedTypes, NamesOfFields, NamesOfManifests, NamesOfMethods, NamesOfOwners, NamesOfTypedefs, NamesOfTypes, OwnersKeepForm, TypesKeepForm};

/// A called type is as deep as the type, and has as many nodes. It does nothing when it is called.
pub fn terms_keep_their_form()
    ensures types { TypesKeepForm }
    ensures owners { OwnersKeepForm }
{}

/// The names in a called part are what the names in the part are called, in order; those of a declared type, whose interfaces
/// are put in order again, are the same names. It does nothing when it is called.
pub fn names_are_called()
    ensures types { NamesOfTypes }
    ensures owners { NamesOfOwners }
    ensures fields { NamesOfFields }
    ensures methods { NamesOfMethods }
    ensures manifests { NamesOfManifests }
    ensures typedefs { NamesOfTypedefs }
{}

/// Where names that stand well in one assembly are called what stands well in another one, and what has a size in data keeps it,
/// a part that meets its conditions in the first one, called, meets them in the second: a type that is declared, as far as no
/// two of its members are equal then. It does nothing when it is called.
pub fn what_is_called_is_formed()
    ensures types { FormedTypes }
    ensures owners { FormedOwners }
    ensures fields { FormedFields }
    ensures methods { FormedMethods }
    ensures manifests { FormedManifests }
    ensures own { FormedOwn }
    ensures nested { FormedNested }
{}
