//! The check of a method's body (ECMA-335 III.1.8).
ghost use Rattle.std.specs.Prelude.{◌≡◌, ◌<◌, ◌≤◌, ◌+◌, ◌∷◌, ◌++◌, ◌^◌, ℕ, List, [], length, map, IfOk, OnOk, IsTrue};
ghost use Rattle.std.specs.List.{All, list_all};
ghost use Rattle.assembly_tree.specs.declared.body.Body.{Body as TheBody};
ghost use Rattle.assembly_tree.specs.WellFormedBodies.{is_forward};
ghost use Rattle.type_hierarchy.specs.Indexed.{KnowsTypes};
ghost use Rattle.type_hierarchy.specs.Scopes.{Sources};
ghost use Rattle.type_hierarchy.specs.World.{hierarchy, Stays};
ghost use Rattle.type_order.specs.Worlds.{IsWorldSince};
ghost use Rattle.code_flow.specs.BlockTests.{spans_of};
ghost use Rattle.code_flow.specs.Blocks.{ClausesNest};
ghost use Rattle.body_verifier.specs.Checking.{AreBroken, HasBody, IsFrameOf, IsReady, IsWholeRule, LeadsToBody, broken_at};
ghost use Rattle.body_verifier.specs.Finding.{RisesWithin};
ghost use Rattle.code_flow.specs.Frames.{Frame, frame};
ghost use Rattle.code_flow.specs.Methods.{Declared};
ghost use Rattle.code_flow.specs.Paths.{NeverWrong};
ghost use Rattle.body_verifier.specs.Reports.{Fails, Lists, Reports, is_uninitialised};
ghost use Rattle.stack_rows.specs.RowMeanings.{IsFrameWithin, IsRowWithin};
ghost use Rattle.stack_states.specs.StateMeanings.{IsStateWithin, typing_of};
ghost use Rattle.body_verifier.specs.StepBound.{AreEdges, height, step_bound};
ghost use Rattle.body_verifier.specs.Ways.{AreRows, FlowsApart, IsDepth, IsSetUp, IsSolved, Setup};
ghost use Rattle.body_verifier.specs.declared.report.Failure.{Failure as TheFailure};

use crate::code_marks::code_marks;
use crate::finding::{method_by, parameters_by, path_by};
use crate::laws::{a_body_has_one_least_typing, instructions_are_monotone, paths_are_right};
use crate::report::{Broken, Report, report_of};
use crate::rows::rows_of;
use crate::solving::least_typing;
use crate::stated::stated_of;
use crate::verdicts::verdict;
use assembly_tree::{Assembly, Body, Method, MethodPath};
use code_flow::clauses::{Clauses, nest};
use code_flow::goings::goings_of;
use il_base::Steps;
use il_lists::{Items, NoMemory};
use stack_effects::framing::frame_of;
use stack_rows::frame::CodeFrame;
use stack_rows::row::Row;
use stack_states::state::State;
use std::alloc::Global;
use type_order::types::World;
use type_order::{joins_are_least_upper_bounds, keys_keep_their_types};
use type_terms::Path;

/// Whether a body has locals without init.
fn is_uninitialised(body: &Body) -> bool
    ensures { result ≡ is_uninitialised body.now }
{
    !body.init && 0 < body.locals.len()
}

/// The rule that a whole body breaks whose clauses nest, if it does: its locals have no init (V20), or its method's
/// signature states the type of `this` (V18). Takes no memory.
fn nested_rule(method: &Method, body: &Body) -> Option<u8>
    requires { ClausesNest body.now.clauses }
    ensures { IsWholeRule method.now body.now result }
{
    if is_uninitialised(body) {
        return Some(20);
    }
    if method.sig.explicit_this {
        return Some(18);
    }
    None
}

/// The rule that a whole body breaks, if it does: its clauses don't nest (V16), or one of those. Takes no memory.
fn whole_rule(method: &Method, body: &Body, clauses: &Clauses) -> Option<u8>
    requires spans { clauses.now ≡ map spans_of body.now.clauses }
    requires forward { IsTrue (list_all is_forward body.now.clauses) }
    ensures { IsWholeRule method.now body.now result }
{
    if nest(clauses) {
        return nested_rule(method, body);
    }
    Some(16)
}

/// A rule that a whole body breaks, at its first instruction.
fn alone(alloc: Global, rule: u8) -> Result<Items<Broken>, NoMemory>
    ensures { IfOk result (λ broken. broken ≡ record { at = 0; rule = rule } ∷ []) }
{
    let broken = Items::from_slice(alloc, &[Broken { at: 0, rule }])?;
    Ok(broken)
}

/// The instructions of a body that break a rule, each with the first, by what is known before each.
fn broken_by(
    alloc: Global,
    w: &mut World,
    a: &Assembly,
    frame: &CodeFrame,
    body: &Body,
    clauses: &Clauses,
    rows: &Items<Row>,
    states: &Items<State>,
) -> Result<Items<Broken>, NoMemory>
    requires few { length body.now.code < 2 ^ 32 }
    requires known { KnowsTypes a.now w.old.tables }
    requires frame { IsFrameWithin (length w.old.nodes) frame.now }
    requires all_rows { length rows.now ≡ length body.now.code }
    requires rows { All (IsRowWithin (length w.old.nodes)) rows.now }
    requires all_states { length states.now ≡ length body.now.code }
    requires states { All (IsStateWithin (length w.old.nodes)) states.now }
    ensures ok { (f : Frame) → f.types ≡ hierarchy w.old → IsFrameOf f a.now w.old.nodes frame.now body.now clauses.now → AreRows w.old.nodes rows.now f → IfOk result (λ broken. Lists f (typing_of w.old.nodes states.now) 0 broken) }
    ensures stays { Stays w.old w.new }
{
    let code = body.code.as_slice();
    let marks = code_marks(alloc, code, clauses.as_slice())?;
    let mut broken = Items::new(alloc);
    let count = code.len() as u32;
    for k in 0..count {
        keys_keep_their_types();
        let row = rows.at(k as usize);
        let state = states.at(k as usize);
        let rule = verdict(
            alloc, w, a, frame, code, clauses, &marks, body.bound, k, row, state,
        )?;
        add_broken(&mut broken, k, rule)?;
    }
    Ok(broken)
}

/// Adds instruction `k`, if it breaks a rule.
fn add_broken(broken: &mut Items<Broken>, k: u32, rule: Option<u8>) -> Result<(), NoMemory>
    ensures { OnOk result (broken.new ≡ broken.old ++ broken_at k rule) }
{
    match rule {
        Some(rule) => broken.push(Broken { at: k, rule }),
        None => Ok(()),
    }
}

/// What is known before each instruction of a body whose clauses nest.
fn states_of(
    alloc: Global,
    w: &mut World,
    rows: &Items<Row>,
    body: &Body,
    clauses: &Clauses,
    steps: &mut Steps,
) -> Result<Items<State>, NoMemory>
    ghost at: { Setup }
    requires setup { IsSetUp (hierarchy w.old) at }
    requires ready { IsReady at body.now clauses.now }
    requires rows { AreRows w.old.nodes rows.now at.frame }
    requires count { steps.old ≤ 2 ^ 126 }
    ensures ok { IfOk result (λ states. IsSolved at.frame w.new.nodes states) }
    ensures stays { Stays w.old w.new }
    ensures low { steps.new ≤ steps.old + 2 ^ 126 }
    ensures bound { (pairs : List (ℕ × ℕ)) → AreEdges at.frame pairs → steps.new ≤ steps.old + step_bound (length pairs) (length at.frame.code + 1) at.top }
    ensures shallow { (d : ℕ) (pairs : List (ℕ × ℕ)) → IsDepth at.frame d → FlowsApart at.frame → AreEdges at.frame pairs → IfOk result (λ _. steps.new ≤ steps.old + step_bound (length pairs) d at.top) }
{
    keys_keep_their_types();
    let goings = goings_of(alloc, body.code.as_slice(), clauses)?;
    let stated = stated_of(alloc, w, body.clauses.as_slice())?;
    least_typing(alloc, w, rows, &goings, &stated, steps)
}

/// The instructions of a body that break a rule, each with the first in the least typing. The method is one of the type
/// of that path, which has that many generic parameters.
fn broken_instructions(
    alloc: Global,
    a: &Assembly,
    w: &mut World,
    path: &Path,
    parameters: u32,
    method: &Method,
    body: &Body,
    clauses: &Clauses,
    steps: &mut Steps,
) -> Result<Items<Broken>, NoMemory>
    ghost at: { Setup }
    requires setup { IsSetUp (hierarchy w.old) at }
    requires ready { IsReady at body.now clauses.now }
    requires frame { at.frame ≡ frame a.now (hierarchy w.old) (record { path = path.now; parameters = parameters; method = method.now }) body.now }
    requires count { steps.old ≤ 2 ^ 126 }
    requires known { KnowsTypes a.now w.old.tables }
    ensures ok { IfOk result (AreBroken at.frame) }
    ensures stays { Stays w.old w.new }
    ensures low { steps.new ≤ steps.old + 2 ^ 126 }
    ensures bound { (pairs : List (ℕ × ℕ)) → AreEdges at.frame pairs → steps.new ≤ steps.old + step_bound (length pairs) (length at.frame.code + 1) at.top }
    ensures shallow { (pairs : List (ℕ × ℕ)) → AreEdges at.frame pairs → IfOk result (λ broken. broken ≡ [] → steps.new ≤ steps.old + step_bound (length pairs) at.frame.bound at.top) }
{
    keys_keep_their_types();
    let frame = frame_of(alloc, w, path, parameters, method, body)?;
    let rows = rows_of(alloc, w, &frame, body.code.as_slice())?;
    let states = states_of(alloc, w, &rows, body, clauses, steps)?;
    broken_by(alloc, w, a, &frame, body, clauses, &rows, &states)
}

/// The instructions that break a rule in the body of a method, which stands at that place; where the whole body breaks
/// one, the first.
fn broken_in(
    alloc: Global,
    a: &Assembly,
    w: &mut World,
    at: &MethodPath,
    method: &Method,
    body: &Body,
    steps: &mut Steps,
) -> Result<Items<Broken>, NoMemory>
    ghost sources: { Sources }
    requires image { sources.image ≡ a.now }
    requires world { IsWorldSince sources w.old }
    requires found { (d : Declared) × HasBody a.now at.now d body.now × (d.method ≡ method.now) }
    requires count { steps.old ≤ 2 ^ 126 }
    ensures ok { (d : Declared) → HasBody a.now at.now d body.now → IfOk result (λ broken. Fails a.now (hierarchy w.old) d body.now broken) }
    ensures rising { IfOk result (RisesWithin body.now.code 0) }
    ensures stays { Stays w.old w.new }
    ensures low { steps.new ≤ steps.old + 2 ^ 126 }
    ensures bound { (d : Declared) (pairs : List (ℕ × ℕ)) → HasBody a.now at.now d body.now → AreEdges (frame a.now (hierarchy w.old) d body.now) pairs → steps.new ≤ steps.old + step_bound (length pairs) (length body.now.code + 1) (height sources) }
    ensures shallow { (d : Declared) (pairs : List (ℕ × ℕ)) → HasBody a.now at.now d body.now → AreEdges (frame a.now (hierarchy w.old) d body.now) pairs → IfOk result (λ r. r ≡ [] → steps.new ≤ steps.old + step_bound (length pairs) body.now.bound (height sources)) }
{
    joins_are_least_upper_bounds();
    instructions_are_monotone();
    let clauses = Clauses::of(alloc, body.clauses.as_slice())?;
    match whole_rule(method, body, &clauses) {
        Some(rule) => alone(alloc, rule),
        None => {
            let places = at.types.as_slice();
            let path = path_by(alloc, a, places)?;
            let parameters = parameters_by(a, places);
            broken_instructions(
                alloc, a, w, &path, parameters, method, body, &clauses, steps,
            )
        }
    }
}

/// The failures of a method with that body, which stands at that place.
fn check_body(
    alloc: Global,
    a: &Assembly,
    w: &mut World,
    at: &MethodPath,
    method: &Method,
    body: &Body,
    steps: &mut Steps,
) -> Result<Report, NoMemory>
    ghost sources: { Sources }
    requires image { sources.image ≡ a.now }
    requires world { IsWorldSince sources w.old }
    requires found { (d : Declared) × HasBody a.now at.now d body.now × (d.method ≡ method.now) }
    requires count { steps.old ≤ 2 ^ 126 }
    ensures ok { IfOk result (λ failures. Reports a.now (hierarchy w.old) at.now failures) }
    ensures stays { Stays w.old w.new }
    ensures low { steps.new ≤ steps.old + 2 ^ 126 }
    ensures bound { (d : Declared) (pairs : List (ℕ × ℕ)) → HasBody a.now at.now d body.now → AreEdges (frame a.now (hierarchy w.old) d body.now) pairs → steps.new ≤ steps.old + step_bound (length pairs) (length body.now.code + 1) (height sources) }
    ensures shallow { (d : Declared) (pairs : List (ℕ × ℕ)) → HasBody a.now at.now d body.now → AreEdges (frame a.now (hierarchy w.old) d body.now) pairs → IfOk result (λ r. r ≡ [] → steps.new ≤ steps.old + step_bound (length pairs) body.now.bound (height sources)) }
{
    let broken = broken_in(alloc, a, w, at, method, body, steps)?;
    report_of(alloc, at, body.code.as_slice(), broken.as_slice())
}

/// The failures of a method with a body: for each instruction that control reaches the first rule that it breaks in the
/// least typing, by rising offset (ECMA-335 III.1.8). The assembly is the image of that world.
///
/// Where there are none, no path through the body goes wrong. `steps` counts the joins and the parents that are asked for:
/// for each two instructions with an edge one for each value and for each time that what is known can change; where there
/// are no failures, of no more values than the body's bound says. It rises by 2^126 at most, so that it never runs out.
pub fn check_method(
    alloc: Global,
    a: &Assembly,
    w: &mut World,
    at: &MethodPath,
    steps: &mut Steps,
) -> Result<Report, NoMemory>
    ghost sources: { Sources }
    requires image { sources.image ≡ a.now }
    requires world { IsWorldSince sources w.old }
    requires body { LeadsToBody a.now at.now }
    requires count { steps.old ≤ 2 ^ 126 }
    ensures report { IfOk result (λ failures. Reports a.now (hierarchy w.old) at.now failures) }
    ensures alone { (failures : List TheFailure) → Reports a.now (hierarchy w.old) at.now failures → IfOk result (λ r. r ≡ failures) }
    ensures paths { (d : Declared) (b : TheBody) → HasBody a.now at.now d b → IfOk result (λ failures. failures ≡ [] → NeverWrong (frame a.now (hierarchy w.old) d b)) }
    ensures stays { Stays w.old w.new }
    ensures low { steps.new ≤ steps.old + 2 ^ 126 }
    ensures steps { (d : Declared) (b : TheBody) (pairs : List (ℕ × ℕ)) → HasBody a.now at.now d b → AreEdges (frame a.now (hierarchy w.old) d b) pairs → steps.new ≤ steps.old + step_bound (length pairs) (length b.code + 1) (height sources) }
    ensures shallow { (d : Declared) (b : TheBody) (pairs : List (ℕ × ℕ)) → HasBody a.now at.now d b → AreEdges (frame a.now (hierarchy w.old) d b) pairs → IfOk result (λ failures. failures ≡ [] → steps.new ≤ steps.old + step_bound (length pairs) b.bound (height sources)) }
{
    a_body_has_one_least_typing();
    paths_are_right();
    match method_by(a, at) {
        Some(method) => match &method.body {
            Some(body) => check_body(alloc, a, w, at, method, body, steps),
            None => Ok(Items::new(alloc)),
        },
        None => Ok(Items::new(alloc)),
    }
}
