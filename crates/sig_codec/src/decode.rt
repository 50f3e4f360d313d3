ghost use Rattle.std.specs.Prelude.{◌≡◌, Option, Some, IfOk, IfSome, IfNone};
ghost use Rattle.type_terms.specs.declared.term.SigType.{SigType};
ghost use Rattle.type_terms.specs.declared.reference.MethodSig.{MethodSig};
ghost use Rattle.sig_codec.specs.Reading.{Gives};
ghost use Rattle.sig_codec.specs.Signature.{IsType, IsMethod, IsField, IsProperty, AreLocals, IsInstantiation};
ghost use Rattle.std.specs.Prelude.{List};

use crate::Namer;
use crate::signature::{
    whole_field, whole_instantiation, whole_locals, whole_method, whole_property, whole_type,
};
use crate::stop::Stop;
use il_base::NoMemory;
use std::alloc::Global;
use type_terms::{MethodSig, SigType, Types};

/// The type that all of `bytes` spell (ECMA-335 II.23.2.12, II.23.2.14), with the owners that `map` names. None exactly
/// where they spell no type that is at most 100 deep and has at most 2,097,152 nodes, so that no call goes deeper.
///
/// # Errors
///
/// There was no memory for the type.
pub fn decode_type<N: Namer>(
    alloc: Global,
    bytes: &[u8],
    map: &N,
) -> Result<Option<SigType>, NoMemory>
    ensures found { IfOk result (λ found. IfSome found (λ t. IsType (N.owners map.now) bytes.now t)) }
    ensures only { (t : SigType) → IsType (N.owners map.now) bytes.now t → IfOk result (λ found. found ≡ Some t) }
    ensures none { IfOk result (λ found. IfNone found ((t : SigType) → IsType (N.owners map.now) bytes.now t → ⊥)) }
{
    answer(whole_type(alloc, bytes, map))
}

/// The method that all of `bytes` spell (ECMA-335 II.23.2.1, II.23.2.2). None exactly where they spell none whose types
/// are at most 100 deep and have at most 2,097,152 nodes in all.
///
/// # Errors
///
/// There was no memory for the method.
pub fn decode_method<N: Namer>(
    alloc: Global,
    bytes: &[u8],
    map: &N,
) -> Result<Option<MethodSig>, NoMemory>
    ensures found { IfOk result (λ found. IfSome found (λ s. IsMethod (N.owners map.now) bytes.now s)) }
    ensures only { (s : MethodSig) → IsMethod (N.owners map.now) bytes.now s → IfOk result (λ found. found ≡ Some s) }
    ensures none { IfOk result (λ found. IfNone found ((s : MethodSig) → IsMethod (N.owners map.now) bytes.now s → ⊥)) }
{
    answer(whole_method(alloc, bytes, map))
}

/// The type of the field that all of `bytes` spell (ECMA-335 II.23.2.4). None exactly where they spell none whose type is
/// at most 100 deep and has at most 2,097,152 nodes.
///
/// # Errors
///
/// There was no memory for the type.
pub fn decode_field<N: Namer>(
    alloc: Global,
    bytes: &[u8],
    map: &N,
) -> Result<Option<SigType>, NoMemory>
    ensures found { IfOk result (λ found. IfSome found (λ t. IsField (N.owners map.now) bytes.now t)) }
    ensures only { (t : SigType) → IsField (N.owners map.now) bytes.now t → IfOk result (λ found. found ≡ Some t) }
    ensures none { IfOk result (λ found. IfNone found ((t : SigType) → IsField (N.owners map.now) bytes.now t → ⊥)) }
{
    answer(whole_field(alloc, bytes, map))
}

/// The property that all of `bytes` spell (ECMA-335 II.23.2.5). None exactly where they spell none whose types are at most
/// 100 deep and have at most 2,097,152 nodes in all.
///
/// # Errors
///
/// There was no memory for the property.
pub fn decode_property<N: Namer>(
    alloc: Global,
    bytes: &[u8],
    map: &N,
) -> Result<Option<MethodSig>, NoMemory>
    ensures found { IfOk result (λ found. IfSome found (λ s. IsProperty (N.owners map.now) bytes.now s)) }
    ensures only { (s : MethodSig) → IsProperty (N.owners map.now) bytes.now s → IfOk result (λ found. found ≡ Some s) }
    ensures none { IfOk result (λ found. IfNone found ((s : MethodSig) → IsProperty (N.owners map.now) bytes.now s → ⊥)) }
{
    answer(whole_property(alloc, bytes, map))
}

/// The types of the locals that all of `bytes` spell (ECMA-335 II.23.2.6). None exactly where they spell none that are at
/// most 100 deep and have at most 2,097,152 nodes in all.
///
/// # Errors
///
/// There was no memory for the types.
pub fn decode_locals<N: Namer>(
    alloc: Global,
    bytes: &[u8],
    map: &N,
) -> Result<Option<Types>, NoMemory>
    ensures found { IfOk result (λ found. IfSome found (λ ts. AreLocals (N.owners map.now) bytes.now ts)) }
    ensures only { (ts : List SigType) → AreLocals (N.owners map.now) bytes.now ts → IfOk result (λ found. found ≡ Some ts) }
    ensures none { IfOk result (λ found. IfNone found ((ts : List SigType) → AreLocals (N.owners map.now) bytes.now ts → ⊥)) }
{
    answer(whole_locals(alloc, bytes, map))
}

/// The arguments of a generic method that all of `bytes` spell (ECMA-335 II.23.2.15). None exactly where they spell none
/// that are at most 100 deep and have at most 2,097,152 nodes in all.
///
/// # Errors
///
/// There was no memory for the types.
pub fn decode_instantiation<N: Namer>(
    alloc: Global,
    bytes: &[u8],
    map: &N,
) -> Result<Option<Types>, NoMemory>
    ensures found { IfOk result (λ found. IfSome found (λ ts. IsInstantiation (N.owners map.now) bytes.now ts)) }
    ensures only { (ts : List SigType) → IsInstantiation (N.owners map.now) bytes.now ts → IfOk result (λ found. found ≡ Some ts) }
    ensures none { IfOk result (λ found. IfNone found ((ts : List SigType) → IsInstantiation (N.owners map.now) bytes.now ts → ⊥)) }
{
    answer(whole_instantiation(alloc, bytes, map))
}

/// What a decoder answers for what it read.
fn answer<T>(read: Result<T, Stop>) -> Result<Option<T>, NoMemory>
    ensures { (value : Option T) → Gives (λ x. x) read value → IfOk result (λ found. found ≡ value) }
{
    match read {
        Ok(value) => Ok(Some(value)),
        Err(Stop::Unspelled) => Ok(None),
        Err(Stop::Memory) => Err(NoMemory),
    }
}
