//! The types that stand in a pool, as trees.
ghost use Rattle.std.specs.Prelude.{◌≡◌, ◌<◌, length, map, IfOk};
ghost use Rattle.sig_pool.specs.Terms.{owner_children, AllBelow, owner_of, terms, term_of};
ghost use Rattle.sig_pool.specs.Replaced.{terms_at};

use il_lists::{Boxed, Copies, Items, NoMemory};
use sig_pool::{Node, NodeOwner, SigId, SigPool};
use std::alloc::Global;
use type_terms::{Owner, SigType, Types};

/// The type of an id.
#[cycle(term)]
pub fn term_at(alloc: Global, pool: &SigPool, id: SigId) -> Result<SigType, NoMemory>
    requires { id < length pool.now }
    ensures { IfOk result (λ t. t ≡ term_of pool.now id) }
{
    match pool.node(id) {
        Node::Prim(prim) => Ok(SigType::Prim(*prim)),
        Node::Class(name) => {
            let name = name.copy(alloc)?;
            Ok(SigType::Class(name))
        }
        Node::Value(name) => {
            let name = name.copy(alloc)?;
            Ok(SigType::Value(name))
        }
        Node::Inst { value, name, args } => {
            let name = name.copy(alloc)?;
            let args = all_terms_at(alloc, pool, args.as_slice())?;
            let named = Boxed::new(alloc, name)?;
            let given = Boxed::new(alloc, args)?;
            Ok(SigType::Inst {
                value: *value,
                name: named,
                args: given,
            })
        }
        Node::Var(number) => Ok(SigType::Var(*number)),
        Node::MVar(number) => Ok(SigType::MVar(*number)),
        Node::SzArray(of) => {
            let of = boxed_term_at(alloc, pool, *of)?;
            Ok(SigType::SzArray(of))
        }
        Node::Array {
            of,
            rank,
            sizes,
            lower,
        } => {
            let sizes = sizes.copy(alloc)?;
            let lower = lower.copy(alloc)?;
            let of = boxed_term_at(alloc, pool, *of)?;
            let extents = Boxed::new(alloc, sizes)?;
            let bounds = Boxed::new(alloc, lower)?;
            Ok(SigType::Array {
                of,
                rank: *rank,
                sizes: extents,
                lower: bounds,
            })
        }
        Node::ByRef(of) => {
            let of = boxed_term_at(alloc, pool, *of)?;
            Ok(SigType::ByRef(of))
        }
        Node::Pointer(of) => {
            let of = boxed_term_at(alloc, pool, *of)?;
            Ok(SigType::Pointer(of))
        }
        Node::Mod { required, by, of } => {
            let by = boxed_owner_at(alloc, pool, by)?;
            let of = boxed_term_at(alloc, pool, *of)?;
            Ok(SigType::Mod {
                required: *required,
                by,
                of,
            })
        }
        Node::Pinned(of) => {
            let of = boxed_term_at(alloc, pool, *of)?;
            Ok(SigType::Pinned(of))
        }
    }
}

#[cycle(term)]
fn boxed_term_at(alloc: Global, pool: &SigPool, id: SigId) -> Result<Boxed<SigType>, NoMemory>
    requires { id < length pool.now }
    ensures { IfOk result (λ t. t ≡ term_of pool.now id) }
{
    let of = term_at(alloc, pool, id)?;
    Boxed::new(alloc, of)
}

/// What a modifier names.
#[cycle(term)]
fn boxed_owner_at(
    alloc: Global,
    pool: &SigPool,
    owner: &NodeOwner,
) -> Result<Boxed<Owner>, NoMemory>
    requires { AllBelow (length pool.now) (owner_children owner.now) }
    ensures { IfOk result (λ o. o ≡ owner_of (terms pool.now) owner.now) }
{
    match owner {
        NodeOwner::Name(name) => {
            let name = name.copy(alloc)?;
            Boxed::new(alloc, Owner::Name(name))
        }
        NodeOwner::Spec(id) => {
            let of = term_at(alloc, pool, *id)?;
            Boxed::new(alloc, Owner::Spec(of))
        }
    }
}

/// The types of ids, in their order.
#[cycle(term)]
fn all_terms_at(alloc: Global, pool: &SigPool, ids: &[SigId]) -> Result<Types, NoMemory>
    requires { AllBelow (length pool.now) ids.now }
    ensures { IfOk result (λ ts. ts ≡ terms_at pool.now ids.now) }
{
    let mut all = Items::with_capacity(alloc, ids.len())?;
    for id in ids {
        let t = term_at(alloc, pool, *id)?;
        all.push(t)?;
    }
    Ok(all)
}
