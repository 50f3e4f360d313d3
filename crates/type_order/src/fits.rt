//! Whether a value of one stack type may stand where another is wanted.
ghost use Rattle.std.specs.Prelude.{◌≡◌, ◌↔◌, ◌<◌, length, IsTrue, IfOk};
ghost use Rattle.sig_pool.specs.Pool.{Extends};
ghost use Rattle.sig_pool.specs.Terms.{term_of};
ghost use Rattle.type_order.specs.Arrays.{IsObjectOrUp, IsPairOf};
ghost use Rattle.type_order.specs.Answers.{Answers, is_bad};
ghost use Rattle.type_hierarchy.specs.Meaning.{meant, IsWithin};
ghost use Rattle.type_hierarchy.specs.Relations.{Assignable};
ghost use Rattle.type_hierarchy.specs.Stack.{ref, boxed};
ghost use Rattle.type_hierarchy.specs.Tables.{hierarchy_in};
ghost use Rattle.type_order.specs.Found.{Knows};

use crate::above::is_above;
use crate::arrays::{Pair, alike, is_reduced_alike};
use crate::found::{Found, found_parent};
use crate::joining::{is_equal, is_null};
use crate::led::is_led;
use crate::stack::is_object;
use il_lists::NoMemory;
use sig_pool::{SigId, SigPool};
use std::alloc::Global;
use type_hierarchy::stack_type::StackType;
use type_hierarchy::tables::Tables;

/// Whether the type of `b` is Object or above that of `a`.
fn is_object_or_above(
    alloc: Global,
    tables: &Tables,
    pool: &mut SigPool,
    found: &mut Found,
    a: SigId,
    b: SigId,
) -> Result<bool, NoMemory>
    requires tables { length tables.now.names ≡ length tables.now.entries }
    requires a { a < length pool.old }
    requires b { b < length pool.old }
    requires known { Knows (hierarchy_in tables.now) pool.old found.old }
    ensures ok { IfOk result (λ r. IsTrue r ↔ IsObjectOrUp (hierarchy_in tables.now) (term_of pool.old a) (term_of pool.old b)) }
    ensures extends { Extends pool.old pool.new }
    ensures known { Knows (hierarchy_in tables.now) pool.new found.new }
{
    if is_object(pool, b) {
        return Ok(true);
    }
    is_above(alloc, tables, pool, found, a, b)
}

/// Whether a reference to one type may stand where one to another is wanted: known, or as it is with their
/// elements.
#[derive(Clone, Copy, Drop)]
enum Answer {
    Known(bool),
    AsElements(Pair),
}

/// The answer for two arrays that are alike.
fn compare_arrays(
    alloc: Global,
    tables: &Tables,
    pool: &mut SigPool,
    found: &mut Found,
    a: SigId,
    b: SigId,
    pair: Pair,
) -> Result<Answer, NoMemory>
    requires tables { length tables.now.names ≡ length tables.now.entries }
    requires a { a < length pool.old }
    requires b { b < length pool.old }
    requires known { Knows (hierarchy_in tables.now) pool.old found.old }
    requires pair { IsPairOf pool.old a b pair }
    ensures ok { IfOk result (λ r. Answers (hierarchy_in tables.now) pool.old a b r) }
    ensures extends { Extends pool.old pool.new }
    ensures known { Knows (hierarchy_in tables.now) pool.new found.new }
{
    let references = pair.references;
    let reduced = is_reduced_alike(tables, pool, pair.from, pair.to)?;
    if reduced {
        return Ok(Answer::Known(true));
    }
    let above = is_object_or_above(alloc, tables, pool, found, a, b)?;
    if above {
        return Ok(Answer::Known(true));
    }
    if references {
        Ok(Answer::AsElements(pair))
    } else {
        Ok(Answer::Known(false))
    }
}

/// The answer for two types.
fn compare(
    alloc: Global,
    tables: &Tables,
    pool: &mut SigPool,
    found: &mut Found,
    a: SigId,
    b: SigId,
) -> Result<Answer, NoMemory>
    requires tables { length tables.now.names ≡ length tables.now.entries }
    requires a { a < length pool.old }
    requires b { b < length pool.old }
    requires known { Knows (hierarchy_in tables.now) pool.old found.old }
    ensures ok { IfOk result (λ r. Answers (hierarchy_in tables.now) pool.old a b r) }
    ensures extends { Extends pool.old pool.new }
    ensures known { Knows (hierarchy_in tables.now) pool.new found.new }
{
    match alike(pool, a, b) {
        Some(pair) => compare_arrays(alloc, tables, pool, found, a, b, pair),
        None => {
            let fits = is_object_or_above(alloc, tables, pool, found, a, b)?;
            Ok(Answer::Known(fits))
        }
    }
}

/// Whether a reference to the type of `a` may stand where one to that of `b` is wanted.
fn reference_fits(
    alloc: Global,
    tables: &Tables,
    pool: &mut SigPool,
    found: &mut Found,
    a: SigId,
    b: SigId,
) -> Result<bool, NoMemory>
    requires tables { length tables.now.names ≡ length tables.now.entries }
    requires a { a < length pool.old }
    requires b { b < length pool.old }
    requires known { Knows (hierarchy_in tables.now) pool.old found.old }
    ensures ok { IfOk result (λ r. IsTrue r ↔ Assignable (hierarchy_in tables.now) (ref (term_of pool.old a)) (ref (term_of pool.old b))) }
    ensures extends { Extends pool.old pool.new }
    ensures known { Knows (hierarchy_in tables.now) pool.new found.new }
{
    let mut from = a;
    let mut to = b;
    'elements: loop {
        match compare(alloc, tables, pool, found, from, to)? {
            Answer::Known(fits) => return Ok(fits),
            Answer::AsElements(pair) => {
                from = pair.from;
                to = pair.to;
            }
        }
    }
}

/// Whether a boxed value of the type of `a` may stand where a reference to that of `b` is wanted.
fn boxed_fits(
    alloc: Global,
    tables: &Tables,
    pool: &mut SigPool,
    found: &mut Found,
    a: SigId,
    b: SigId,
) -> Result<bool, NoMemory>
    requires tables { length tables.now.names ≡ length tables.now.entries }
    requires a { a < length pool.old }
    requires b { b < length pool.old }
    requires known { Knows (hierarchy_in tables.now) pool.old found.old }
    ensures ok { IfOk result (λ r. IsTrue r ↔ Assignable (hierarchy_in tables.now) (boxed (term_of pool.old a)) (ref (term_of pool.old b))) }
    ensures extends { Extends pool.old pool.new }
    ensures known { Knows (hierarchy_in tables.now) pool.new found.new }
{
    if is_object(pool, b) {
        return Ok(true);
    }
    let led = is_led(alloc, tables, pool, found, a, b)?;
    if led {
        return Ok(true);
    }
    match found_parent(alloc, tables, pool, found, a)? {
        Some(parent) => is_above(alloc, tables, pool, found, parent, b),
        None => Ok(false),
    }
}

/// Whether a value of the first type may stand where a reference to the type of `to` is wanted.
fn fits_reference(
    alloc: Global,
    tables: &Tables,
    pool: &mut SigPool,
    found: &mut Found,
    s: &StackType,
    to: SigId,
) -> Result<bool, NoMemory>
    requires tables { length tables.now.names ≡ length tables.now.entries }
    requires s { IsWithin (length pool.old) s.now }
    requires to { to < length pool.old }
    requires known { Knows (hierarchy_in tables.now) pool.old found.old }
    ensures ok { IfOk result (λ r. IsTrue r ↔ Assignable (hierarchy_in tables.now) (meant pool.old s.now) (ref (term_of pool.old to))) }
    ensures extends { Extends pool.old pool.new }
    ensures known { Knows (hierarchy_in tables.now) pool.new found.new }
{
    match s {
        StackType::Ref(key) => reference_fits(alloc, tables, pool, found, key.id(), to),
        StackType::Boxed(key) => boxed_fits(alloc, tables, pool, found, key.id(), to),
        StackType::Null => Ok(true),
        StackType::I4 => Ok(false),
        StackType::I8 => Ok(false),
        StackType::N => Ok(false),
        StackType::F => Ok(false),
        StackType::Val(_) => Ok(false),
        StackType::Ptr(_) => Ok(false),
        StackType::Bad => Ok(false),
    }
}

/// Whether a stack type is Bad.
fn is_bad(t: &StackType) -> bool
    ensures { result ≡ is_bad t.now }
{
    matches!(t, StackType::Bad)
}

/// Whether a value of the first type may stand where the second is wanted.
pub fn is_assignable(
    alloc: Global,
    tables: &Tables,
    pool: &mut SigPool,
    found: &mut Found,
    s: &StackType,
    t: &StackType,
) -> Result<bool, NoMemory>
    requires tables { length tables.now.names ≡ length tables.now.entries }
    requires s { IsWithin (length pool.old) s.now }
    requires t { IsWithin (length pool.old) t.now }
    requires known { Knows (hierarchy_in tables.now) pool.old found.old }
    ensures ok { IfOk result (λ r. IsTrue r ↔ Assignable (hierarchy_in tables.now) (meant pool.old s.now) (meant pool.old t.now)) }
    ensures extends { Extends pool.old pool.new }
    ensures known { Knows (hierarchy_in tables.now) pool.new found.new }
{
    if is_equal(pool, s, t) {
        return Ok(!is_bad(s));
    }
    match t {
        StackType::Ref(key) => fits_reference(alloc, tables, pool, found, s, key.id()),
        StackType::Boxed(_) => Ok(is_null(s)),
        StackType::I4 => Ok(false),
        StackType::I8 => Ok(false),
        StackType::N => Ok(false),
        StackType::F => Ok(false),
        StackType::Null => Ok(false),
        StackType::Val(_) => Ok(false),
        StackType::Ptr(_) => Ok(false),
        StackType::Bad => Ok(false),
    }
}
