ghost use Rattle.std.specs.Prelude.{◌≡◌};
ghost use Rattle.sig_codec.specs.Reading.{after_owner, after_type, after_types};

use type_terms::{Owner, SigType};

/// How many of `nodes` are left beside the owner of a modifier. None where its depth is over `limit` or it has more nodes;
/// a name has neither.
#[cycle(measure)]
pub(crate) fn after_owner(owner: &Owner, limit: u32, nodes: u32) -> Option<u32>
    ensures { result ≡ after_owner owner.now limit nodes }
{
    match owner {
        Owner::Name(_) => Some(nodes),
        Owner::Spec(of) => after_type(of, limit, nodes),
    }
}

/// The same beside a type.
#[cycle(measure)]
fn after_type(t: &SigType, limit: u32, nodes: u32) -> Option<u32>
    ensures { result ≡ after_type t.now limit nodes }
{
    if limit == 0 || nodes == 0 {
        return None;
    }
    match t {
        SigType::Prim(_)
        | SigType::Class(_)
        | SigType::Value(_)
        | SigType::Var(_)
        | SigType::MVar(_) => Some(nodes - 1),
        SigType::Inst { args, .. } => after_types(args.get().as_slice(), limit - 1, nodes - 1),
        SigType::SzArray(of)
        | SigType::ByRef(of)
        | SigType::Pointer(of)
        | SigType::Pinned(of)
        | SigType::Array { of, .. } => after_type(of.get(), limit - 1, nodes - 1),
        SigType::Mod { by, of, .. } => {
            let left = after_owner(by.get(), limit - 1, nodes - 1)?;
            after_type(of.get(), limit - 1, left)
        }
    }
}

/// The same beside several types.
#[cycle(measure)]
fn after_types(types: &[SigType], limit: u32, nodes: u32) -> Option<u32>
    ensures { result ≡ after_types types.now limit nodes }
{
    let mut left = nodes;
    for of in types {
        left = after_type(of, limit, left)?;
    }
    Some(left)
}
