ghost use Rattle.std.specs.Prelude.{◌≡◌, ℕ, List};
ghost use Rattle.assembly_tree.specs.declared.body.Body.{Body};
ghost use Rattle.body_codec.specs.Names.{NameMap, reading};
ghost use Rattle.body_codec.specs.Bodies.{Spells};
ghost use Rattle.body_codec.specs.NamedTokens.{AreNamed};

/// Bytes spell at most one body with the names of a namer, and that by one number of bytes. It does nothing when it is
/// called.
pub fn bytes_spell_one_body()
    ensures { (names : NameMap) (bytes : List ℕ) (body other : Body) (size more : ℕ) → Spells (reading names) bytes body size → Spells (reading names) bytes other more
        → (body ≡ other) × (size ≡ more) }
{}

/// The tokens that bytes name are one list. It does nothing when it is called.
pub fn bytes_name_one_list()
    ensures { (bytes : List ℕ) (tokens others : List ℕ) → AreNamed bytes tokens → AreNamed bytes others → tokens ≡ others }
{}
