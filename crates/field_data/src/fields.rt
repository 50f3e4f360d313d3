ghost use Rattle.std.specs.Prelude.{◌≡◌, ℕ, List, Option, Some};
ghost use Rattle.sig_codec.specs.Signature.{IsField};
ghost use Rattle.type_terms.specs.declared.term.Owner.{Owner};
ghost use Rattle.type_terms.specs.declared.term.SigType.{SigType};
ghost use Rattle.field_data.specs.declared.kinds.DataKind.{DataKind};
ghost use Rattle.field_data.specs.Kinds.{IsOfKind};
ghost use Rattle.field_data.specs.Walking.{field_kind};

use crate::DataKind;
use crate::kinds::kind_at;
use sig_codec::byte_at;
use type_terms::MAX_DEPTH;

/// What decides the size of a field's data, by the field's signature (II.16.3, II.23.2.4); None only where the bytes spell no field.
pub fn data_kind(signature: &[u8]) -> Option<DataKind>
    ensures { (image : List ℕ) (owners : ℕ → Option Owner) (t : SigType) → IsField owners signature.now t → (kind : DataKind) × (result ≡ Some kind) × IsOfKind image owners t kind }
{
    field_kind(signature)
}

/// The same, by the walk along the signature.
#[tactic(auto, unfolding(crate::specs::Walking::field_kind))]
fn field_kind(bytes: &[u8]) -> Option<DataKind>
    ensures { result ≡ field_kind bytes.now }
{
    let (byte, rest) = byte_at(bytes)?;
    if byte == 0x06 {
        kind_at(MAX_DEPTH, rest)
    } else {
        None
    }
}
