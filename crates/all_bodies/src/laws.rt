ghost use Rattle.std.specs.List.{Contains};
ghost use Rattle.assembly_tree.specs.declared.assembly.Assembly.{Assembly};
ghost use Rattle.assembly_tree.specs.declared.body.Body.{Body};
ghost use Rattle.assembly_tree.specs.declared.typedef.MethodPath.{MethodPath};
ghost use Rattle.code_flow.specs.Methods.{Declared, all_methods};
ghost use Rattle.body_verifier.specs.Checking.{HasBody};

/// Each method with a body is among those that are listed. It does nothing when it is called.
#[tactic(auto, using(crate::proofs::Listed::each_listed))]
pub fn each_body_is_listed()
    ensures { (a : Assembly) (path : MethodPath) (d : Declared) (b : Body) → HasBody a path d b → Contains (all_methods a) path }
{}
