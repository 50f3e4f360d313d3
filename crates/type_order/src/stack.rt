//! What the values of a type are on the stack.
ghost use Rattle.std.specs.Prelude.{◌≡◌, ◌↔◌, ◌<◌, length, IsTrue, IfOk};
ghost use Rattle.std.specs.Option.{option_copied};
ghost use Rattle.sig_pool.specs.Pool.{Extends, Has};
ghost use Rattle.sig_pool.specs.Terms.{term_of};
ghost use Rattle.type_hierarchy.specs.Hierarchy.{object, underlying, declared_underlying, instance_underlying};
ghost use Rattle.type_hierarchy.specs.Stack.{is_reference, is_reference_primitive, verified, signed, primitive, counts_as, verification_type, reduced_type};
ghost use Rattle.type_hierarchy.specs.Tables.{hierarchy_in, declaration_in};

use il_lists::NoMemory;
use sig_pool::{Node, SigId, SigPool};
use type_hierarchy::core_types::intern;
use type_hierarchy::tables::{Declared, Tables};
use type_terms::{Prim, SigType};

/// The type that the values of an enum have. Takes no memory.
pub fn underlying(tables: &Tables, pool: &SigPool, id: SigId) -> Option<Prim>
    requires tables { length tables.now.names ≡ length tables.now.entries }
    requires id { id < length pool.now }
    ensures { result ≡ underlying (hierarchy_in tables.now) (term_of pool.now id) }
{
    match pool.node(id) {
        Node::Value(name) => {
            let known = tables.known(name);
            declared_underlying(known.declared)
        }
        Node::Inst { value, name, .. } => {
            let known = tables.known(name);
            instance_underlying(*value, known.declared)
        }
        Node::Prim(_) => None,
        Node::Class(_) => None,
        Node::Var(_) => None,
        Node::MVar(_) => None,
        Node::SzArray(_) => None,
        Node::Array { .. } => None,
        Node::ByRef(_) => None,
        Node::Pointer(_) => None,
        Node::Mod { .. } => None,
        Node::Pinned(_) => None,
    }
}

fn declared_underlying(declared: Option<&Declared>) -> Option<Prim>
    ensures { result ≡ declared_underlying (declaration_in (option_copied declared.entry)) }
{
    match declared {
        Some(declared) => declared.underlying,
        None => None,
    }
}

fn instance_underlying(value: bool, declared: Option<&Declared>) -> Option<Prim>
    ensures { result ≡ instance_underlying value (declaration_in (option_copied declared.entry)) }
{
    if value {
        declared_underlying(declared)
    } else {
        None
    }
}

/// Whether the type is a reference type. Takes no memory.
pub fn is_reference(pool: &SigPool, id: SigId) -> bool
    requires { id < length pool.now }
    ensures { result ≡ is_reference (term_of pool.now id) }
{
    match pool.node(id) {
        Node::Prim(prim) => is_reference_primitive(*prim),
        Node::Inst { value, .. } => !*value,
        Node::Class(_) => true,
        Node::SzArray(_) => true,
        Node::Array { .. } => true,
        Node::Value(_) => false,
        Node::Var(_) => false,
        Node::MVar(_) => false,
        Node::ByRef(_) => false,
        Node::Pointer(_) => false,
        Node::Mod { .. } => false,
        Node::Pinned(_) => false,
    }
}

fn is_reference_primitive(prim: Prim) -> bool
    ensures { result ≡ is_reference_primitive prim }
{
    match prim {
        Prim::Str | Prim::Object => true,
        Prim::Void
        | Prim::Bool
        | Prim::Char
        | Prim::I1
        | Prim::U1
        | Prim::I2
        | Prim::U2
        | Prim::I4
        | Prim::U4
        | Prim::I8
        | Prim::U8
        | Prim::R4
        | Prim::R8
        | Prim::TypedRef
        | Prim::NInt
        | Prim::NUint => false,
    }
}

/// What a primitive type is verified as.
fn verified(prim: Prim) -> Prim
    ensures { result ≡ verified prim }
{
    match prim {
        Prim::Bool | Prim::U1 => Prim::I1,
        Prim::Char | Prim::U2 => Prim::I2,
        Prim::U4 => Prim::I4,
        Prim::U8 => Prim::I8,
        Prim::NUint => Prim::NInt,
        Prim::Void => Prim::Void,
        Prim::I1 => Prim::I1,
        Prim::I2 => Prim::I2,
        Prim::I4 => Prim::I4,
        Prim::I8 => Prim::I8,
        Prim::R4 => Prim::R4,
        Prim::R8 => Prim::R8,
        Prim::Str => Prim::Str,
        Prim::Object => Prim::Object,
        Prim::TypedRef => Prim::TypedRef,
        Prim::NInt => Prim::NInt,
    }
}

/// The signed type of an unsigned one; any other stays.
fn signed(prim: Prim) -> Prim
    ensures { result ≡ signed prim }
{
    match prim {
        Prim::U1 => Prim::I1,
        Prim::U2 => Prim::I2,
        Prim::U4 => Prim::I4,
        Prim::U8 => Prim::I8,
        Prim::NUint => Prim::NInt,
        Prim::Bool => Prim::Bool,
        Prim::Char => Prim::Char,
        Prim::Void => Prim::Void,
        Prim::I1 => Prim::I1,
        Prim::I2 => Prim::I2,
        Prim::I4 => Prim::I4,
        Prim::I8 => Prim::I8,
        Prim::R4 => Prim::R4,
        Prim::R8 => Prim::R8,
        Prim::Str => Prim::Str,
        Prim::Object => Prim::Object,
        Prim::TypedRef => Prim::TypedRef,
        Prim::NInt => Prim::NInt,
    }
}

/// The primitive type that a type counts as: itself, or of an enum its underlying type; None where it
/// counts as itself alone.
fn counts_as(tables: &Tables, pool: &SigPool, id: SigId) -> Option<Prim>
    requires tables { length tables.now.names ≡ length tables.now.entries }
    requires id { id < length pool.now }
    ensures { result ≡ counts_as (hierarchy_in tables.now) (term_of pool.now id) }
{
    match underlying(tables, pool, id) {
        Some(prim) => Some(prim),
        None => primitive(pool, id),
    }
}

/// The primitive type that a type is.
fn primitive(pool: &SigPool, id: SigId) -> Option<Prim>
    requires { id < length pool.now }
    ensures { result ≡ primitive (term_of pool.now id) }
{
    match pool.node(id) {
        Node::Prim(prim) => Some(*prim),
        Node::Value(_) => None,
        Node::Inst { .. } => None,
        Node::Class(_) => None,
        Node::Var(_) => None,
        Node::MVar(_) => None,
        Node::SzArray(_) => None,
        Node::Array { .. } => None,
        Node::ByRef(_) => None,
        Node::Pointer(_) => None,
        Node::Mod { .. } => None,
        Node::Pinned(_) => None,
    }
}

/// Whether the type of `id` is Object. Takes no memory.
pub fn is_object(pool: &SigPool, id: SigId) -> bool
    requires { id < length pool.now }
    ensures { IsTrue result ↔ (term_of pool.now id ≡ object) }
{
    match primitive(pool, id) {
        Some(prim) => prim == Prim::Object,
        None => false,
    }
}

/// The id of the verification type.
pub fn verification_id(tables: &Tables, pool: &mut SigPool, id: SigId) -> Result<SigId, NoMemory>
    requires tables { length tables.now.names ≡ length tables.now.entries }
    requires id { id < length pool.old }
    ensures ok { IfOk result (λ r. Has pool.new r (verification_type (hierarchy_in tables.now) (term_of pool.old id))) }
    ensures extends { Extends pool.old pool.new }
{
    match counts_as(tables, pool, id) {
        Some(prim) => intern(pool, SigType::Prim(verified(prim))),
        None => Ok(id),
    }
}

/// The id of the reduced type.
pub fn reduced_id(tables: &Tables, pool: &mut SigPool, id: SigId) -> Result<SigId, NoMemory>
    requires tables { length tables.now.names ≡ length tables.now.entries }
    requires id { id < length pool.old }
    ensures ok { IfOk result (λ r. Has pool.new r (reduced_type (hierarchy_in tables.now) (term_of pool.old id))) }
    ensures extends { Extends pool.old pool.new }
{
    match counts_as(tables, pool, id) {
        Some(prim) => intern(pool, SigType::Prim(signed(prim))),
        None => Ok(id),
    }
}
