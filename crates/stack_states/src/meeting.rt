//! Whether an operand meets what an instruction asks of it.
ghost use Rattle.std.specs.Prelude.{◌≡◌, ◌↔◌, ◌<◌, ◌||◌, ◌⊎◌, List, length, IsTrue, IfOk};
ghost use Rattle.sig_pool.specs.declared.node.Node.{Node};
ghost use Rattle.sig_pool.specs.Terms.{term_of};
ghost use Rattle.type_hierarchy.specs.Meaning.{meant, IsWithin};
ghost use Rattle.type_hierarchy.specs.Pooled.{HasOption};
ghost use Rattle.type_hierarchy.specs.World.{hierarchy, Stays};
ghost use Rattle.code_flow.specs.Demands.{is_integer, is_object, is_pointer, if_reference, referent, object_element, vector, vector_of, object_vector, HasWrongKind, FailsToAssign, IsUnassignable};
ghost use Rattle.stack_rows.specs.RowMeanings.{demand_meant, IsDemandWithin};

use crate::alike::same_type;
use crate::pairs::is_comparable;
use il_lists::NoMemory;
use sig_pool::SigPool;
use stack_rows::kinds::{is_bad, is_index, is_integer, is_null, is_number, is_object, is_pointer};
use stack_rows::row::Demand;
use stack_rows::type_kinds::is_reference;
use type_order::types::World;
use type_order::{StackType, TypeKey, assignable, element_of, id_of, pointer_to};

/// What a managed pointer to a reference type points to; None for anything else. Takes no memory.
pub fn referent(pool: &SigPool, s: &StackType) -> Option<TypeKey>
    requires { IsWithin (length pool.now) s.now }
    ensures { HasOption pool.now result (referent (meant pool.now s.now)) }
{
    match s {
        StackType::Ptr(key) => if_reference(pool, *key),
        StackType::I4 => None,
        StackType::I8 => None,
        StackType::N => None,
        StackType::F => None,
        StackType::Null => None,
        StackType::Bad => None,
        StackType::Ref(_) => None,
        StackType::Boxed(_) => None,
        StackType::Val(_) => None,
    }
}

/// A key where its type is a reference type.
fn if_reference(pool: &SigPool, key: TypeKey) -> Option<TypeKey>
    requires { key < length pool.now }
    ensures { HasOption pool.now result (if_reference (term_of pool.now key)) }
{
    if is_reference(pool, id_of(&key)) {
        Some(key)
    } else {
        None
    }
}

/// The element of a vector of a reference type; None for anything else.
pub fn object_element(w: &mut World, s: &StackType) -> Result<Option<TypeKey>, NoMemory>
    requires { IsWithin (length w.old.nodes) s.now }
    ensures ok { IfOk result (λ r. HasOption w.new.nodes r (object_element (meant w.old.nodes s.now))) }
    ensures stays { Stays w.old w.new }
{
    match element_of(w, s)? {
        Some(key) => Ok(if_reference(w.pool(), key)),
        None => Ok(None),
    }
}

/// Whether it is tested for null, zero or false.
fn is_condition(t: &StackType) -> bool
    ensures { (ns : List Node) → result ≡ (is_integer (meant ns t.now) || is_object (meant ns t.now) || is_pointer (meant ns t.now)) }
{
    is_integer(t) || is_object(t) || is_pointer(t)
}

/// Whether it is one of the two.
fn is_one_of(pool: &SigPool, s: &StackType, t: &StackType, u: &StackType) -> bool
    requires s { IsWithin (length pool.now) s.now }
    requires t { IsWithin (length pool.now) t.now }
    requires u { IsWithin (length pool.now) u.now }
    ensures { IsTrue result ↔ ((meant pool.now s.now ≡ meant pool.now t.now) ⊎ (meant pool.now s.now ≡ meant pool.now u.now)) }
{
    same_type(pool, s, t) || same_type(pool, s, u)
}

/// Whether it is neither null nor a vector.
fn is_no_vector(w: &mut World, s: &StackType) -> Result<bool, NoMemory>
    requires { IsWithin (length w.old.nodes) s.now }
    ensures ok { IfOk result (λ r. IsTrue r ↔ HasWrongKind (hierarchy w.old) vector (meant w.old.nodes s.now)) }
    ensures stays { Stays w.old w.new }
{
    match element_of(w, s)? {
        Some(_) => Ok(false),
        None => Ok(!is_null(s)),
    }
}

/// Whether it is neither null nor a vector of elements with that verification type.
fn is_no_vector_of(w: &mut World, s: &StackType, of: TypeKey) -> Result<bool, NoMemory>
    requires s { IsWithin (length w.old.nodes) s.now }
    requires of { of < length w.old.nodes }
    ensures ok { IfOk result (λ r. IsTrue r ↔ HasWrongKind (hierarchy w.old) (vector_of (term_of w.old.nodes of)) (meant w.old.nodes s.now)) }
    ensures stays { Stays w.old w.new }
{
    match element_of(w, s)? {
        Some(key) => {
            let pointer = pointer_to(w, &key)?;
            Ok(!same_type(w.pool(), &pointer, &StackType::Ptr(of)))
        }
        None => Ok(!is_null(s)),
    }
}

/// Whether it is neither null nor a vector of a reference type.
fn is_no_object_vector(w: &mut World, s: &StackType) -> Result<bool, NoMemory>
    requires { IsWithin (length w.old.nodes) s.now }
    ensures ok { IfOk result (λ r. IsTrue r ↔ HasWrongKind (hierarchy w.old) object_vector (meant w.old.nodes s.now)) }
    ensures stays { Stays w.old w.new }
{
    match element_of(w, s)? {
        Some(key) => Ok(!is_reference(w.pool(), id_of(&key))),
        None => Ok(!is_null(s)),
    }
}

/// Whether an operand isn't of the kind that is demanded (ECMA-335 III.1.5).
pub fn is_wrong(w: &mut World, demand: Demand, s: &StackType) -> Result<bool, NoMemory>
    requires demand { IsDemandWithin (length w.old.nodes) demand }
    requires s { IsWithin (length w.old.nodes) s.now }
    ensures ok { IfOk result (λ r. IsTrue r ↔ HasWrongKind (hierarchy w.old) (demand_meant w.old.nodes demand) (meant w.old.nodes s.now)) }
    ensures stays { Stays w.old w.new }
{
    match demand {
        Demand::Nothing => Ok(false),
        Demand::Any => Ok(is_bad(s)),
        Demand::Number => Ok(!is_number(s)),
        Demand::Integer => Ok(!is_integer(s)),
        Demand::Index => Ok(!is_index(s)),
        Demand::Object => Ok(!is_object(s)),
        Demand::Condition => Ok(!is_condition(s)),
        Demand::Comparable => Ok(!is_comparable(s)),
        Demand::Exactly(t) => Ok(!same_type(w.pool(), s, &t)),
        Demand::OneOf(t, u) => Ok(!is_one_of(w.pool(), s, &t, &u)),
        Demand::To(_) => Ok(is_bad(s)),
        Demand::ObjectPointer => Ok(referent(w.pool(), s).is_none()),
        Demand::Vector => is_no_vector(w, s),
        Demand::VectorOf(of) => is_no_vector_of(w, s, of),
        Demand::ObjectVector => is_no_object_vector(w, s),
    }
}

/// Whether a value, which isn't Bad, isn't assignable to a type (ECMA-335 III.1.8.1.2.3).
pub fn is_unassignable(w: &mut World, s: &StackType, t: &StackType) -> Result<bool, NoMemory>
    requires s { IsWithin (length w.old.nodes) s.now }
    requires t { IsWithin (length w.old.nodes) t.now }
    ensures ok { IfOk result (λ r. IsTrue r ↔ IsUnassignable (hierarchy w.old) (meant w.old.nodes t.now) (meant w.old.nodes s.now)) }
    ensures stays { Stays w.old w.new }
{
    if is_bad(s) {
        return Ok(false);
    }
    let fits = assignable(w, s, t)?;
    Ok(!fits)
}

/// Whether an operand, of the kind that is demanded, isn't assignable to what is.
pub fn fails_to_assign(w: &mut World, demand: Demand, s: &StackType) -> Result<bool, NoMemory>
    requires demand { IsDemandWithin (length w.old.nodes) demand }
    requires s { IsWithin (length w.old.nodes) s.now }
    ensures ok { IfOk result (λ r. IsTrue r ↔ FailsToAssign (hierarchy w.old) (demand_meant w.old.nodes demand) (meant w.old.nodes s.now)) }
    ensures stays { Stays w.old w.new }
{
    match demand {
        Demand::To(t) => is_unassignable(w, s, &t),
        Demand::Nothing
        | Demand::Any
        | Demand::Number
        | Demand::Integer
        | Demand::Index
        | Demand::Object
        | Demand::Condition
        | Demand::Comparable
        | Demand::Exactly(_)
        | Demand::OneOf(_, _)
        | Demand::ObjectPointer
        | Demand::Vector
        | Demand::VectorOf(_)
        | Demand::ObjectVector => Ok(false),
    }
}
