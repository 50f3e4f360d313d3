//! The stacks that edges state.
ghost use Rattle.std.specs.Prelude.{◌≡◌, [], ◌∷◌, map, IfOk};
ghost use Rattle.std.specs.List.{AllZip};
ghost use Rattle.type_hierarchy.specs.World.{hierarchy, Stays};
ghost use Rattle.type_hierarchy.specs.Stack.{boxed_of};
ghost use Rattle.code_flow.specs.Frames.{Frame, owner_in};
ghost use Rattle.code_flow.specs.Edges.{any_object};
ghost use Rattle.code_flow.specs.Goings.{found_by};
ghost use Rattle.body_verifier.specs.Stating.{IsStack, found_at};
ghost use Rattle.body_verifier.specs.Ways.{brought, AreStatedFor};

use assembly_tree::{Clause, ClauseKind};
use code_flow::goings::Carried;
use il_lists::{Items, NoMemory};
use stack_states::stack::Stack;
use stack_states::state::State;
use std::alloc::Global;
use type_order::types::World;
use type_order::{StackType, boxed_of, owner_key, primitive_key};
use type_terms::{Owner, Prim};

/// The stacks that edges state, whatever their instructions leave (ECMA-335 I.12.4.2.8).
#[derive(Drop)]
pub(crate) struct Stated {
    /// The empty stack.
    pub nothing: State,
    /// That with an object on it.
    pub object: State,
    /// For each clause, what is on the stack where it catches something.
    pub caught: Items<State>,
}

impl Stated {
    /// What comes along an edge of an instruction that leaves `after`.
    pub(crate) fn along<'a>(&'a self, carries: Carried, after: &'a State) -> &'a State
        ensures { result.now ≡ brought self.now carries after.now }
    {
        match carries {
            Carried::Flowing => after,
            Carried::Nothing => &self.nothing,
            Carried::Object => &self.object,
            Carried::Caught(clause) => match self.caught.get(clause as usize) {
                Some(caught) => caught,
                None => &self.nothing,
            },
        }
    }
}

/// The stack with that value alone.
fn holding(alloc: Global, value: StackType) -> Result<State, NoMemory>
    ensures { IfOk result (λ s. s ≡ State.Stack (value ∷ [])) }
{
    let mut stack = Stack::new();
    stack.push(alloc, value)?;
    Ok(State::Stack(stack))
}

/// The stack with an object of any type on it.
fn holding_object(alloc: Global, w: &mut World) -> Result<State, NoMemory>
    ensures ok { IfOk result (λ s. IsStack w.new.nodes s any_object) }
    ensures stays { Stays w.old w.new }
{
    let key = primitive_key(w, Prim::Object)?;
    let state = holding(alloc, StackType::Ref(key))?;
    Ok(state)
}

/// The stack with an object on it that a catch of that type finds: for a value type the boxed value.
fn holding_caught(alloc: Global, w: &mut World, owner: &Owner) -> Result<State, NoMemory>
    ensures ok { IfOk result (λ s. IsStack w.new.nodes s (boxed_of (owner_in (hierarchy w.old) owner.now) ∷ [])) }
    ensures stays { Stays w.old w.new }
{
    let key = owner_key(w, owner)?;
    let object = boxed_of(w, &key)?;
    let state = holding(alloc, object)?;
    Ok(state)
}

/// What is on the stack where a clause of that kind catches something.
fn caught_by(alloc: Global, w: &mut World, kind: &ClauseKind) -> Result<State, NoMemory>
    ensures ok { (f : Frame) → f.types ≡ hierarchy w.old → IfOk result (λ s. IsStack w.new.nodes s (found_by f kind.now)) }
    ensures stays { Stays w.old w.new }
{
    match kind {
        ClauseKind::Catch(owner) => holding_caught(alloc, w, owner),
        ClauseKind::Filter(_) => Ok(State::Stack(Stack::new())),
        ClauseKind::Finally => Ok(State::Stack(Stack::new())),
        ClauseKind::Fault => Ok(State::Stack(Stack::new())),
    }
}

/// The same for each clause.
fn all_caught(alloc: Global, w: &mut World, clauses: &[Clause]) -> Result<Items<State>, NoMemory>
    ensures ok { (f : Frame) → f.types ≡ hierarchy w.old → IfOk result (λ all. AllZip (IsStack w.new.nodes) all (map (found_at f) clauses.now)) }
    ensures stays { Stays w.old w.new }
{
    let mut all = Items::with_capacity(alloc, clauses.len())?;
    for clause in clauses {
        let caught = caught_by(alloc, w, &clause.kind)?;
        all.push(caught)?;
    }
    Ok(all)
}

/// The stacks that the edges of a body with these clauses state.
pub(crate) fn stated_of(
    alloc: Global,
    w: &mut World,
    clauses: &[Clause],
) -> Result<Stated, NoMemory>
    ensures ok { (f : Frame) → f.types ≡ hierarchy w.old → f.clauses ≡ clauses.now → IfOk result (λ s. AreStatedFor w.new.nodes s f) }
    ensures stays { Stays w.old w.new }
{
    let object = holding_object(alloc, w)?;
    let caught = all_caught(alloc, w, clauses)?;
    Ok(Stated {
        nothing: State::Stack(Stack::new()),
        object,
        caught,
    })
}
