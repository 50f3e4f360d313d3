ghost use Rattle.std.specs.Prelude.{◌≤◌, ◌↔◌, IsTrue, map};
ghost use Rattle.type_terms.specs.Depth.{depth, owner_depth, largest};

use crate::{Owner, SigType};

/// The depth that the type of a signature may have.
pub const MAX_DEPTH: u32 = 100;

/// Whether the depth of `t` is at most 100, where a leaf has depth 1 and any other type one more than
/// its deepest child. Takes no memory, and goes no deeper than 101 levels.
pub fn fits(t: &SigType) -> bool
    ensures { IsTrue result ↔ (depth t.now ≤ 100) }
{
    is_within(t, MAX_DEPTH)
}

/// Whether the depth of `t` is at most `limit`.
#[cycle(depth)]
fn is_within(t: &SigType, limit: u32) -> bool
    ensures { IsTrue result ↔ (depth t.now ≤ limit) }
{
    if limit == 0 {
        return false;
    }
    match t {
        SigType::Prim(_)
        | SigType::Class(_)
        | SigType::Value(_)
        | SigType::Var(_)
        | SigType::MVar(_) => true,
        SigType::Inst { args, .. } => are_within(args.get().as_slice(), limit - 1),
        SigType::SzArray(of)
        | SigType::ByRef(of)
        | SigType::Pointer(of)
        | SigType::Pinned(of)
        | SigType::Array { of, .. } => is_within(of.get(), limit - 1),
        SigType::Mod { by, of, .. } => {
            is_owner_within(by.get(), limit - 1) && is_within(of.get(), limit - 1)
        }
    }
}

/// Whether the owner is a name, or a type of a depth of at most `limit`.
#[cycle(depth)]
fn is_owner_within(owner: &Owner, limit: u32) -> bool
    ensures { IsTrue result ↔ (owner_depth owner.now ≤ limit) }
{
    match owner {
        Owner::Name(_) => true,
        Owner::Spec(of) => is_within(of, limit),
    }
}

/// Whether the depth of each type is at most `limit`.
#[cycle(depth)]
fn are_within(types: &[SigType], limit: u32) -> bool
    ensures { IsTrue result ↔ (largest (map depth types.now) ≤ limit) }
{
    for of in types {
        if !is_within(of, limit) {
            return false;
        }
    }
    true
}
