ghost use Rattle.std.specs.Prelude.{ℕ, List};
ghost use Rattle.assembly_tree.specs.declared.body.Body.{Body};
ghost use Rattle.body_codec.specs.Back.{NamesBack};
ghost use Rattle.body_codec.specs.Bodies.{Spells};
ghost use Rattle.body_codec.specs.Names.{NameMap, TokenMap, reading, writing};

/// What is spelled with the tokens of a numberer is spelled, as the same body, with the names of any namer that gives back
/// what it numbered. It does nothing when it is called.
#[tactic(auto, using(crate::proofs::Back::body_back))]
pub fn written_is_read()
    ensures { (numbers : TokenMap) (names : NameMap) → NamesBack numbers names → (bytes : List ℕ) (body : Body) (size : ℕ) → Spells (writing numbers) bytes body size → Spells (reading names) bytes body size }
{}
