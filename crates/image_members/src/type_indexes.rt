//! Types as coded indexes (ECMA-335 II.24.2.6).
ghost use Rattle.std.specs.Prelude.{◌+◌, ◌^◌, ◌≤◌, IfOk};
ghost use Rattle.assembly_tree.specs.Weight.{owner_weight};
ghost use Rattle.image_tokens.specs.Members.{Leaves};
ghost use Rattle.image_tokens.specs.References.{size, AreKnown};
ghost use Rattle.image_members.specs.TypeIndexes.{IsTypeIndex};
ghost use Rattle.image_tokens.specs.Writable.{IsOwnerWritable};

use il_base::NoMemory;
use image_tokens::noting::refer_owner;
use image_tokens::references::References;
use image_tokens::tokens::index_of_token;
use metadata_tables::Coded;
use std::alloc::Global;
use type_terms::Owner;

/// The coded index of a type, which is given a token where it has none.
pub fn type_index<'a>(
    alloc: Global,
    refs: &mut References<'a>,
    owner: &'a Owner,
) -> Result<u32, NoMemory>
    requires known { AreKnown refs.old }
    requires writable { IsOwnerWritable refs.old owner.now }
    requires room { size refs.old + owner_weight owner.now ≤ 2 ^ 26 }
    ensures { IfOk result (Leaves (IsTypeIndex owner.now) refs.old refs.new (owner_weight owner.now)) }
{
    let token = refer_owner(alloc, refs, owner)?;
    Ok(index_of_token(Coded::TypeDefOrRef, token))
}
