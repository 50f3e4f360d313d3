ghost use Rattle.std.specs.Prelude.{◌≡◌, IfOk};
ghost use Rattle.body_codec.specs.Names.{NameMap};
ghost use Rattle.image_ready.specs.Keeping.{Keeps};
ghost use Rattle.method_states.specs.States.{AreStates};
ghost use Rattle.image_names.specs.Named.{CanName};

use il_base::{NoMemory, Units};
use image_namings::signatures_hang_on_tokens;
use image_streams::Image;
use image_used::Used;
use kept_members::{Members, keep_members};
use kept_names::{Kept, KeptNames};
use kept_texts::{keep_locals, keep_texts};
use method_states::BodyState;
use row_parts::three;
use std::alloc::Global;
use type_terms::Types;

/// What the tokens of an image name, where the types that they name are known: methods, fields, locals and user strings (ECMA-335
/// II.22, III.1.9). Each row and each body is looked at once.
///
/// # Errors
///
/// There was no memory for them.
pub fn keep_names(
    alloc: Global,
    image: &Image<'_>,
    used: &Used<'_, '_>,
    states: &[BodyState],
    known: KeptNames,
) -> Result<KeptNames, NoMemory>
    requires used { used.now ≡ image.now }
    requires states { AreStates image.now states.now }
    requires can { (names : NameMap) × CanName image.now names known }
    ensures { IfOk result (λ kept. (names : NameMap) → CanName image.now names known → Keeps image.now names kept) }
{
    signatures_hang_on_tokens();
    let (members, locals, texts) = three(
        keep_members(alloc, image, used, &known),
        keep_locals(alloc, image, used, &known),
        keep_texts(alloc, image, states),
    )?;
    Ok(whole(known, members, locals, texts))
}

/// Types, with all else.
fn whole(known: KeptNames, members: Members, locals: Kept<Types>, texts: Kept<Units>) -> KeptNames
    ensures owners { result.owners ≡ known.owners }
    ensures methods { result.methods ≡ members.methods }
    ensures fields { result.fields ≡ members.fields }
    ensures locals { result.locals ≡ locals }
    ensures texts { result.texts ≡ texts }
{
    KeptNames {
        owners: known.owners,
        methods: members.methods,
        fields: members.fields,
        locals,
        texts,
    }
}
