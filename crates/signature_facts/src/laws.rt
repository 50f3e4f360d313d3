ghost use Rattle.std.specs.Prelude.{◌≡◌, ℕ, List, map};
ghost use Rattle.type_terms.specs.Depth.{depth, owner_depth, sig_depth, largest};
ghost use Rattle.type_terms.specs.Nodes.{nodes, owner_nodes, list_nodes, sig_nodes};
ghost use Rattle.type_terms.specs.declared.name.TypeName.{TypeName};
ghost use Rattle.type_terms.specs.declared.reference.MethodSig.{MethodSig};
ghost use Rattle.type_terms.specs.declared.term.Owner.{Owner};
ghost use Rattle.type_terms.specs.declared.term.SigType.{SigType};
ghost use Rattle.assembly_tree.specs.Weight.{name_weight, type_weight};
ghost use Rattle.signature_facts.specs.Facts.{Naming, type_facts, owner_facts, types_facts, method_facts};
ghost use Rattle.signature_facts.specs.Sizes.{Sized, type_rank, owner_rank, types_rank, sig_rank, weight_by, owner_weight_by, types_weight_by, sig_weight_by};

/// The depth, the nodes, the rank and the weight among the facts of a term are the term's, up to the last number of 32 bits; and
/// where names weigh what they do in an assembly, so do types. It does nothing when it is called.
pub fn facts_are_sizes()
    ensures type_of { (naming : Naming) (t : SigType) → Sized (type_facts naming t) (depth t) (nodes t) (type_rank t) (weight_by naming.weight t) }
    ensures owner { (naming : Naming) (o : Owner) → Sized (owner_facts naming o).facts (owner_depth o) (owner_nodes o) (owner_rank o) (owner_weight_by naming.weight o) }
    ensures types { (naming : Naming) (ts : List SigType) → Sized (types_facts naming ts).facts (largest (map depth ts)) (list_nodes ts) (types_rank ts) (types_weight_by naming.weight ts) }
    ensures method { (naming : Naming) (s : MethodSig) → Sized (method_facts naming s).facts (sig_depth s) (sig_nodes s) (sig_rank s) (sig_weight_by naming.weight s) }
    ensures weight { (weigh : TypeName → ℕ) → ((n : TypeName) → weigh n ≡ name_weight n) → (t : SigType) → weight_by weigh t ≡ type_weight t }
{}
