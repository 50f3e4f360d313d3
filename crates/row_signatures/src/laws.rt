ghost use Rattle.std.specs.Prelude.{◌↔◌, ℕ, List};
ghost use Rattle.image_model.specs.Tokens.{SignatureNames};
ghost use Rattle.row_signatures.specs.Signed.{RowHolds};

/// The signature of a row holds the tokens in the blob that its signature column leads to. It does nothing when it is called.
pub fn signatures_are_in_blobs()
    ensures { (image : List ℕ) (table row token : ℕ) → SignatureNames image table row token ↔ RowHolds image table row token }
{}
