ghost use Rattle.std.specs.Prelude.{◌↔◌, ℕ, List};
ghost use Rattle.body_codec.specs.Names.{NameMap};
ghost use Rattle.image_model.specs.Terms.{HasSignatures};
ghost use Rattle.signature_facts.specs.Facts.{Naming};
ghost use Rattle.signature_facts.specs.Owners.{AreFacts, AreBounded};
ghost use Rattle.signature_facts.specs.Scanning.{OwnersFacts};
ghost use Rattle.signature_bounds.specs.Bounded.{HasBounded};

/// Where a map tells the facts of what tokens name, a row's signature is as I14 asks exactly where the facts that a scan of its blob
/// finds are in bounds. It does nothing when it is called.
pub fn bounds_are_signatures()
    ensures { (image : List ℕ) (naming : Naming) (names : NameMap) (facts : OwnersFacts) → AreFacts naming names.owners facts → AreBounded names.owners → (table row : ℕ) → HasBounded image facts table row ↔ HasSignatures image names table row }
{}
