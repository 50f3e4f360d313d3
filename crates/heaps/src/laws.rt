ghost use Rattle.std.specs.Prelude.{◌≡◌, ◌++◌, ℕ, List};
ghost use Rattle.heaps.specs.Content.{HasText, HasBlob, HasUnits, HasGuid};
ghost use Rattle.heaps.specs.LookUp.{BlobIsComputed};
ghost use Rattle.heaps.specs.Written.{HasShortBlob, HasWrittenUnits};

/// What stands at an index stays where bytes are added behind a heap's bytes.
pub fn contents_stay()
    ensures text { (heap more : List ℕ) (index : ℕ) (text : List ℕ) → HasText heap index text → HasText (heap ++ more) index text }
    ensures blob { (heap more : List ℕ) (index : ℕ) (blob : List ℕ) → HasBlob heap index blob → HasBlob (heap ++ more) index blob }
    ensures units { (heap more : List ℕ) (index : ℕ) (units : List ℕ) → HasUnits heap index units → HasUnits (heap ++ more) index units }
    ensures id { (heap more : List ℕ) (index : ℕ) (id : List ℕ) → HasGuid heap index id → HasGuid (heap ++ more) index id }
    ensures short { (heap more : List ℕ) (index : ℕ) (blob : List ℕ) → HasShortBlob heap index blob → HasShortBlob (heap ++ more) index blob }
    ensures written { (heap more : List ℕ) (index : ℕ) (units : List ℕ) → HasWrittenUnits heap index units → HasWrittenUnits (heap ++ more) index units }
{}

/// At most one content stands at an index.
pub fn one_content_at_an_index()
    ensures text { (heap : List ℕ) (index : ℕ) (text other : List ℕ) → HasText heap index text → HasText heap index other → text ≡ other }
    ensures blob { (heap : List ℕ) (index : ℕ) (blob other : List ℕ) → HasBlob heap index blob → HasBlob heap index other → blob ≡ other }
    ensures units { (heap : List ℕ) (index : ℕ) (units other : List ℕ) → HasUnits heap index units → HasUnits heap index other → units ≡ other }
    ensures id { (heap : List ℕ) (index : ℕ) (id other : List ℕ) → HasGuid heap index id → HasGuid heap index other → id ≡ other }
{}

/// What a writer spells is read.
pub fn written_is_read()
    ensures blob { (heap : List ℕ) (index : ℕ) (blob : List ℕ) → HasShortBlob heap index blob → HasBlob heap index blob }
    ensures units { (heap : List ℕ) (index : ℕ) (units : List ℕ) → HasWrittenUnits heap index units → HasUnits heap index units }
{}

/// The blob at an index can be computed from the heap's bytes: it is `blob_in`.
pub fn blob_is_computed()
    ensures { BlobIsComputed }
{}
