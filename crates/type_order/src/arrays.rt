//! The elements of vectors and arrays.
ghost use Rattle.std.specs.Prelude.{◌≡◌, ◌↔◌, ◌<◌, length, IsTrue, IfOk, IfSome, IfNone};
ghost use Rattle.type_terms.specs.declared.term.SigType.{SigType};
ghost use Rattle.sig_pool.specs.Pool.{Extends};
ghost use Rattle.sig_pool.specs.Terms.{term_of};
ghost use Rattle.type_order.specs.Arrays.{elements_at, IsPairOf};
ghost use Rattle.type_hierarchy.specs.Hierarchy.{elements};
ghost use Rattle.type_order.specs.Keys.{vector_elements};
ghost use Rattle.type_hierarchy.specs.Pooled.{HasOption};
ghost use Rattle.type_hierarchy.specs.Relations.{AreAlike};
ghost use Rattle.type_hierarchy.specs.Stack.{reduced_type};
ghost use Rattle.type_hierarchy.specs.Tables.{hierarchy_in};

use crate::stack::{is_reference, reduced_id};
use il_lists::NoMemory;
use sig_pool::{Node, SigId, SigPool};
use type_hierarchy::tables::Tables;

/// The element of an array, with the array's rank; of a vector it has none.
#[derive(Clone, Copy, Drop)]
pub struct Element {
    pub rank: Option<u32>,
    pub of: SigId,
}

/// The elements of two arrays, and whether both are reference types.
#[derive(Clone, Copy, Drop)]
pub struct Pair {
    pub from: SigId,
    pub to: SigId,
    pub references: bool,
}

/// The element of the type of `id`; None exactly where it is neither a vector nor an array.
pub fn element_of_id(pool: &SigPool, id: SigId) -> Option<Element>
    requires { id < length pool.now }
    ensures is { elements_at pool.now result ≡ elements (term_of pool.now id) }
    ensures below { IfSome result (λ e. e.of < id) }
{
    match pool.node(id) {
        Node::SzArray(of) => Some(Element {
            rank: None,
            of: *of,
        }),
        Node::Array { of, rank, .. } => Some(Element {
            rank: Some(*rank),
            of: *of,
        }),
        Node::Prim(_) => None,
        Node::Class(_) => None,
        Node::Value(_) => None,
        Node::Inst { .. } => None,
        Node::Var(_) => None,
        Node::MVar(_) => None,
        Node::ByRef(_) => None,
        Node::Pointer(_) => None,
        Node::Mod { .. } => None,
        Node::Pinned(_) => None,
    }
}

/// The elements of two types, where both are vectors or both arrays of one rank.
pub fn alike(pool: &SigPool, a: SigId, b: SigId) -> Option<Pair>
    requires a { a < length pool.now }
    requires b { b < length pool.now }
    ensures some { IfSome result (λ e. IsPairOf pool.now a b e) }
    ensures none { IfNone result ((s t : SigType) → AreAlike (term_of pool.now a) (term_of pool.now b) s t → ⊥) }
{
    let left = element_of_id(pool, a)?;
    let right = element_of_id(pool, b)?;
    if left.rank == right.rank {
        Some(Pair {
            from: left.of,
            to: right.of,
            references: is_reference(pool, left.of) && is_reference(pool, right.of),
        })
    } else {
        None
    }
}

/// Whether two types reduce to one.
pub fn is_reduced_alike(
    tables: &Tables,
    pool: &mut SigPool,
    a: SigId,
    b: SigId,
) -> Result<bool, NoMemory>
    requires tables { length tables.now.names ≡ length tables.now.entries }
    requires a { a < length pool.old }
    requires b { b < length pool.old }
    ensures ok { IfOk result (λ r. IsTrue r ↔ (reduced_type (hierarchy_in tables.now) (term_of pool.old a) ≡ reduced_type (hierarchy_in tables.now) (term_of pool.old b))) }
    ensures extends { Extends pool.old pool.new }
{
    let left = reduced_id(tables, pool, a)?;
    let right = reduced_id(tables, pool, b)?;
    Ok(pool.same(left, right))
}

/// The id of the element of the type of `id`; None exactly where it isn't a vector.
pub fn vector_element_id(pool: &SigPool, id: SigId) -> Option<SigId>
    requires { id < length pool.now }
    ensures { HasOption pool.now result (vector_elements (elements (term_of pool.now id))) }
{
    match element_of_id(pool, id) {
        Some(element) => match element.rank {
            None => Some(element.of),
            Some(_) => None,
        },
        None => None,
    }
}
