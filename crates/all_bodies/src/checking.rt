//! The check of all methods.
ghost use Rattle.std.specs.Prelude.{◌≡◌, List, [], IfOk};
ghost use Rattle.assembly_tree.specs.declared.body.Body.{Body};
ghost use Rattle.assembly_tree.specs.declared.typedef.MethodPath.{MethodPath};
ghost use Rattle.type_order.specs.Worlds.{IsWorldSince};
ghost use Rattle.type_hierarchy.specs.Scopes.{Sources};
ghost use Rattle.type_hierarchy.specs.World.{hierarchy, Stays};
ghost use Rattle.code_flow.specs.Frames.{frame};
ghost use Rattle.code_flow.specs.Methods.{Declared};
ghost use Rattle.code_flow.specs.Paths.{NeverWrong};
ghost use Rattle.body_verifier.specs.Checking.{HasBody};
ghost use Rattle.body_verifier.specs.Reports.{ReportsAll};
ghost use Rattle.body_verifier.specs.declared.report.Failure.{Failure};

use crate::laws::each_body_is_listed;
use crate::places::all_places;
use assembly_tree::Assembly;
use body_verifier::{Report, check_method};
use il_base::Steps;
use il_lists::{Items, NoMemory};
use std::alloc::Global;
use type_order::types::World;
use type_order::{keys_keep_their_types, worlds_go_on};

/// The failures of all methods with a body: of those of `<Module>`, and then of those of the types in preorder, of each by
/// rising offset (ECMA-335 III.1.8). The assembly is the image of that world.
///
/// Where there are none, no path through any body goes wrong. NoMemory where there is no memory.
pub fn check_all(alloc: Global, a: &Assembly, w: &mut World) -> Result<Report, NoMemory>
    ghost sources: { Sources }
    requires image { sources.image ≡ a.now }
    requires world { IsWorldSince sources w.old }
    ensures report { IfOk result (λ failures. ReportsAll a.now (hierarchy w.old) failures) }
    ensures alone { (failures : List Failure) → ReportsAll a.now (hierarchy w.old) failures → IfOk result (λ r. r ≡ failures) }
    ensures right { IfOk result (λ failures. failures ≡ [] → (path : MethodPath) (d : Declared) (b : Body) → HasBody a.now path d b → NeverWrong (frame a.now (hierarchy w.old) d b)) }
    ensures stays { Stays w.old w.new }
{
    each_body_is_listed();
    keys_keep_their_types();
    worlds_go_on();
    let paths = all_places(alloc, a)?;
    let mut report = Items::new(alloc);
    for at in paths.as_slice() {
        let mut steps = Steps::new();
        let found = check_method(alloc, a, w, at, &mut steps)?;
        report.append(found)?;
    }
    Ok(report)
}
