ghost use Rattle.std.specs.Prelude.{◌≡◌, nat_le, nat_lt, ◌&&◌, length};
ghost use Rattle.std.specs.List.{list_all};
ghost use Rattle.type_terms.specs.Depth.{owner_depth};
ghost use Rattle.assembly_tree.specs.WellFormedTerms.{is_size, is_lower_bound, is_shape, is_variable, is_made_well, is_owner_made_well, is_type, is_owner};

use super::formed_parts::Formed;
use crate::Assembly;
use il_lists::{Numbers, Signed};
use type_terms::{Owner, SigType, fits};

impl Formed for SigType {
    ghost formed = { is_type };

    #[tactic(auto, unfolding(crate::specs::WellFormedTerms::is_type))]
    fn is_formed(&self, a: &Assembly) -> bool {
        fits(self) && is_made_well(a, self)
    }
}

impl Formed for Owner {
    ghost formed = { is_owner };

    #[tactic(auto, unfolding(crate::specs::WellFormedTerms::is_owner))]
    fn is_formed(&self, a: &Assembly) -> bool {
        fits_owner(self) && is_owner_made_well(a, self)
    }
}

/// Whether the owner is a name, or a type of a depth of at most 100.
fn fits_owner(owner: &Owner) -> bool
    ensures { result ≡ nat_le (owner_depth owner.now) 100 }
{
    match owner {
        Owner::Name(_) => true,
        Owner::Spec(of) => fits(of),
    }
}

/// Whether what the type is made of, and the type itself, meets its conditions but that on the depth.
#[cycle(made_well)]
fn is_made_well(a: &Assembly, t: &SigType) -> bool
    ensures { result ≡ is_made_well a.now t.now }
{
    match t {
        SigType::Prim(_) => true,
        SigType::Class(name) | SigType::Value(name) => name.is_formed(a),
        SigType::Inst { name, args, .. } => name.get().is_formed(a)
            && are_made_well(a, args.get().as_slice()),
        SigType::Var(n) | SigType::MVar(n) => is_variable(*n),
        SigType::SzArray(of) | SigType::ByRef(of) | SigType::Pointer(of) | SigType::Pinned(of) => {
            is_made_well(a, of.get())
        }
        SigType::Array {
            of,
            rank,
            sizes,
            lower,
        } => is_shape(*rank, sizes.get(), lower.get()) && is_made_well(a, of.get()),
        SigType::Mod { by, of, .. } => {
            is_owner_made_well(a, by.get()) && is_made_well(a, of.get())
        }
    }
}

#[cycle(made_well)]
fn is_owner_made_well(a: &Assembly, owner: &Owner) -> bool
    ensures { result ≡ is_owner_made_well a.now owner.now }
{
    match owner {
        Owner::Name(name) => name.is_formed(a),
        Owner::Spec(of) => is_made_well(a, of),
    }
}

/// The same of arguments, of which there must be one.
#[cycle(made_well)]
fn are_made_well(a: &Assembly, args: &[SigType]) -> bool
    ensures { result ≡ (nat_lt 0 (length args.now) && list_all (is_made_well a.now) args.now) }
{
    for of in args {
        if !is_made_well(a, of) {
            return false;
        }
    }
    args.len() > 0
}

/// Whether it can be the number of a generic parameter.
fn is_variable(n: u32) -> bool
    ensures { result ≡ is_variable n }
{
    n < 65536
}

/// Whether it is an array's shape.
fn is_shape(rank: u32, sizes: &Numbers, lower: &Signed) -> bool
    ensures { result ≡ is_shape rank sizes.now lower.now }
{
    rank >= 1
        && rank <= 32
        && sizes.len() <= rank as usize
        && lower.len() <= rank as usize
        && are_sizes(sizes)
        && are_lower_bounds(lower)
}

/// Whether each is the size of a dimension.
fn are_sizes(sizes: &Numbers) -> bool
    ensures { result ≡ list_all is_size sizes.now }
{
    sizes.as_slice().iter().all(|size| *size < 0x2000_0000)
}

/// Whether each is the lower bound of a dimension.
fn are_lower_bounds(lower: &Signed) -> bool
    ensures { result ≡ list_all is_lower_bound lower.now }
{
    lower
        .as_slice()
        .iter()
        .all(|bound| *bound >= -0x1000_0000 && *bound <= 0x0FFF_FFFF)
}
