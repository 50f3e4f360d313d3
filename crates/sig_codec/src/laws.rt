ghost use Rattle.std.specs.Prelude.{◌≡◌, ◌↔◌, ◌++◌, ℕ, List, Option, Some};
ghost use Rattle.type_terms.specs.declared.reference.MethodSig.{MethodSig};
ghost use Rattle.type_terms.specs.declared.term.Owner.{Owner};
ghost use Rattle.type_terms.specs.declared.term.SigType.{SigType};
ghost use Rattle.sig_codec.specs.Tokens.{GivesBack};
ghost use Rattle.sig_codec.specs.Spelling.{reading, shortest, writing, SpellsType};
ghost use Rattle.sig_codec.specs.Reading.{whole_type, whole_method, whole_field, whole_property, whole_locals, whole_instantiation};
ghost use Rattle.sig_codec.specs.Signature.{IsType, SpellsMethod, SpellsField, SpellsProperty, SpellsLocals, SpellsInstantiation, IsMethod, IsField, IsProperty, AreLocals, IsInstantiation};
ghost use Rattle.sig_codec.specs.Spellable.{Renumbers, HasSpelling, MethodHasSpelling, PropertyHasSpelling, LocalsHaveSpelling, InstantiationHasSpelling};

/// No spelling of a type begins another, and none spells two types: of one list of bytes, one front at most spells a type,
/// and one type. So no spelling is a proper prefix of another. It does nothing when it is called.
#[tactic(auto, using(crate::proofs::Unique::no_type_begins))]
pub fn no_type_begins_another()
    ensures { (owners : ℕ → Option Owner) (s t : SigType) (front other after beyond : List ℕ) → SpellsType (reading owners) s front → SpellsType (reading owners) t other
        → front ++ after ≡ other ++ beyond → (front ≡ other) × (s ≡ t) × (after ≡ beyond) }
{}

/// Bytes spell at most one signature of each kind. It does nothing when it is called.
pub fn bytes_spell_one_signature()
    ensures method { (owners : ℕ → Option Owner) (bytes : List ℕ) (s t : MethodSig) → IsMethod owners bytes s → IsMethod owners bytes t → s ≡ t }
    ensures field { (owners : ℕ → Option Owner) (bytes : List ℕ) (s t : SigType) → IsField owners bytes s → IsField owners bytes t → s ≡ t }
    ensures property { (owners : ℕ → Option Owner) (bytes : List ℕ) (s t : MethodSig) → IsProperty owners bytes s → IsProperty owners bytes t → s ≡ t }
    ensures locals { (owners : ℕ → Option Owner) (bytes : List ℕ) (s t : List SigType) → AreLocals owners bytes s → AreLocals owners bytes t → s ≡ t }
    ensures instantiation { (owners : ℕ → Option Owner) (bytes : List ℕ) (s t : List SigType) → IsInstantiation owners bytes s → IsInstantiation owners bytes t → s ≡ t }
{}

/// What the steps of a decoder read from all of some bytes is what these spell, at most 100 deep and with at most 2,097,152
/// nodes, and what they spell so is read. It does nothing when it is called.
pub fn read_is_spelled()
    ensures type_of { (owners : ℕ → Option Owner) (bytes : List ℕ) (t : SigType) → (whole_type owners bytes ≡ Some t) ↔ IsType owners bytes t }
    ensures method { (owners : ℕ → Option Owner) (bytes : List ℕ) (s : MethodSig) → (whole_method owners bytes ≡ Some s) ↔ IsMethod owners bytes s }
    ensures field { (owners : ℕ → Option Owner) (bytes : List ℕ) (t : SigType) → (whole_field owners bytes ≡ Some t) ↔ IsField owners bytes t }
    ensures property { (owners : ℕ → Option Owner) (bytes : List ℕ) (s : MethodSig) → (whole_property owners bytes ≡ Some s) ↔ IsProperty owners bytes s }
    ensures locals { (owners : ℕ → Option Owner) (bytes : List ℕ) (ts : List SigType) → (whole_locals owners bytes ≡ Some ts) ↔ AreLocals owners bytes ts }
    ensures instantiation { (owners : ℕ → Option Owner) (bytes : List ℕ) (ts : List SigType) → (whole_instantiation owners bytes ≡ Some ts) ↔ IsInstantiation owners bytes ts }
{}

/// What is spelled with the tokens of a numberer is spelled, in shortest form, with the owners of any namer that gives back
/// what it numbered. It does nothing when it is called.
#[tactic(auto, using(crate::proofs::Unique::written_type, crate::proofs::Unique::written_method, crate::proofs::Unique::written_field, crate::proofs::Unique::written_property, crate::proofs::Unique::written_locals, crate::proofs::Unique::written_instantiation))]
pub fn written_is_read()
    ensures type_of { (tokens : Owner → Option ℕ) (owners : ℕ → Option Owner) → GivesBack tokens owners → (t : SigType) (bytes : List ℕ) → SpellsType (writing tokens) t bytes → SpellsType (shortest owners) t bytes }
    ensures method { (tokens : Owner → Option ℕ) (owners : ℕ → Option Owner) → GivesBack tokens owners → (s : MethodSig) (bytes : List ℕ) → SpellsMethod (writing tokens) s bytes → SpellsMethod (shortest owners) s bytes }
    ensures field { (tokens : Owner → Option ℕ) (owners : ℕ → Option Owner) → GivesBack tokens owners → (t : SigType) (bytes : List ℕ) → SpellsField (writing tokens) t bytes → SpellsField (shortest owners) t bytes }
    ensures property { (tokens : Owner → Option ℕ) (owners : ℕ → Option Owner) → GivesBack tokens owners → (s : MethodSig) (bytes : List ℕ) → SpellsProperty (writing tokens) s bytes → SpellsProperty (shortest owners) s bytes }
    ensures locals { (tokens : Owner → Option ℕ) (owners : ℕ → Option Owner) → GivesBack tokens owners → (ts : List SigType) (bytes : List ℕ) → SpellsLocals (writing tokens) ts bytes → SpellsLocals (shortest owners) ts bytes }
    ensures instantiation { (tokens : Owner → Option ℕ) (owners : ℕ → Option Owner) → GivesBack tokens owners → (ts : List SigType) (bytes : List ℕ) → SpellsInstantiation (writing tokens) ts bytes → SpellsInstantiation (shortest owners) ts bytes }
{}

/// A spelling whose numbers are shortest is a spelling. It does nothing when it is called.
#[tactic(auto, using(crate::proofs::Unique::short_type, crate::proofs::Unique::short_method, crate::proofs::Unique::short_field, crate::proofs::Unique::short_property, crate::proofs::Unique::short_locals, crate::proofs::Unique::short_instantiation))]
pub fn shortest_is_read()
    ensures type_of { (owners : ℕ → Option Owner) (t : SigType) (bytes : List ℕ) → SpellsType (shortest owners) t bytes → SpellsType (reading owners) t bytes }
    ensures method { (owners : ℕ → Option Owner) (s : MethodSig) (bytes : List ℕ) → SpellsMethod (shortest owners) s bytes → SpellsMethod (reading owners) s bytes }
    ensures field { (owners : ℕ → Option Owner) (t : SigType) (bytes : List ℕ) → SpellsField (shortest owners) t bytes → SpellsField (reading owners) t bytes }
    ensures property { (owners : ℕ → Option Owner) (s : MethodSig) (bytes : List ℕ) → SpellsProperty (shortest owners) s bytes → SpellsProperty (reading owners) s bytes }
    ensures locals { (owners : ℕ → Option Owner) (ts : List SigType) (bytes : List ℕ) → SpellsLocals (shortest owners) ts bytes → SpellsLocals (reading owners) ts bytes }
    ensures instantiation { (owners : ℕ → Option Owner) (ts : List SigType) (bytes : List ℕ) → SpellsInstantiation (shortest owners) ts bytes → SpellsInstantiation (reading owners) ts bytes }
{}

/// What is read with the owners of a namer has a spelling with the tokens of any numberer that has a token, of the same kind
/// of table, for each owner that the namer names. It does nothing when it is called.
#[tactic(auto, using(crate::proofs::Unique::has_type))]
pub fn what_is_read_has_a_spelling()
    ensures type_of { (owners : ℕ → Option Owner) (tokens : Owner → Option ℕ) → Renumbers owners tokens → (t : SigType) (bytes : List ℕ) → SpellsType (reading owners) t bytes → HasSpelling tokens t }
    ensures method { (owners : ℕ → Option Owner) (tokens : Owner → Option ℕ) → Renumbers owners tokens → (s : MethodSig) (bytes : List ℕ) → SpellsMethod (reading owners) s bytes → MethodHasSpelling tokens s }
    ensures property { (owners : ℕ → Option Owner) (tokens : Owner → Option ℕ) → Renumbers owners tokens → (s : MethodSig) (bytes : List ℕ) → SpellsProperty (reading owners) s bytes → PropertyHasSpelling tokens s }
    ensures locals { (owners : ℕ → Option Owner) (tokens : Owner → Option ℕ) → Renumbers owners tokens → (ts : List SigType) (bytes : List ℕ) → SpellsLocals (reading owners) ts bytes → LocalsHaveSpelling tokens ts }
    ensures instantiation { (owners : ℕ → Option Owner) (tokens : Owner → Option ℕ) → Renumbers owners tokens → (ts : List SigType) (bytes : List ℕ) → SpellsInstantiation (reading owners) ts bytes → InstantiationHasSpelling tokens ts }
{}
