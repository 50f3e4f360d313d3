//! Signatures as blobs (ECMA-335 II.23.2), spelled with the tokens of the names in them, which get tokens
//! first.
ghost use Rattle.std.specs.Prelude.{◌≡◌, ◌+◌, ◌^◌, ◌<◌, ◌≤◌, length, sum_by, IfOk};
ghost use Rattle.assembly_tree.specs.Weight.{type_weight, signature_weight};
ghost use Rattle.sig_codec.specs.Signature.{SpellsMethod, SpellsField, SpellsProperty, SpellsLocals, SpellsInstantiation};
ghost use Rattle.sig_codec.specs.Spellable.{CanBePacked};
ghost use Rattle.image_tokens.specs.Noted.{IsSigned};
ghost use Rattle.image_tokens.specs.References.{size, AreKnown};
ghost use Rattle.image_tokens.specs.Writable.{IsWritable, AreWritable, IsMethodWritable, IsPropertyWritable};

use crate::blobs::refer_blob;
use crate::noting::{note_type, note_types};
use crate::references::References;
use il_base::NoMemory;
use sig_codec::{
    encode_field, encode_instantiation, encode_locals, encode_method, encode_property,
};
use std::alloc::Global;
use type_terms::{MethodSig, SigType, Types};

/// The blob of a method's signature (II.23.2.1, II.23.2.2).
pub fn method_signature<'a>(
    alloc: Global,
    refs: &mut References<'a>,
    sig: &'a MethodSig,
) -> Result<u32, NoMemory>
    requires known { AreKnown refs.old }
    requires writable { IsMethodWritable refs.old sig.now }
    requires room { size refs.old + (signature_weight sig.now + 8) ≤ 2 ^ 26 }
    ensures { IfOk result (IsSigned SpellsMethod refs.old refs.new sig.now (signature_weight sig.now + 8)) }
{
    note_type(alloc, refs, &sig.ret)?;
    note_types(alloc, refs, sig.params.as_slice())?;
    let bytes = encode_method(alloc, sig, &refs.known)?;
    refer_blob(refs, bytes.as_slice())
}

/// The blob of a property's signature (II.23.2.5).
pub fn property_signature<'a>(
    alloc: Global,
    refs: &mut References<'a>,
    sig: &'a MethodSig,
) -> Result<u32, NoMemory>
    requires known { AreKnown refs.old }
    requires writable { IsPropertyWritable refs.old sig.now }
    requires room { size refs.old + (signature_weight sig.now + 8) ≤ 2 ^ 26 }
    ensures { IfOk result (IsSigned SpellsProperty refs.old refs.new sig.now (signature_weight sig.now + 8)) }
{
    note_type(alloc, refs, &sig.ret)?;
    note_types(alloc, refs, sig.params.as_slice())?;
    let bytes = encode_property(alloc, sig, &refs.known)?;
    refer_blob(refs, bytes.as_slice())
}

/// The blob of a field's signature (II.23.2.4).
pub fn field_signature<'a>(
    alloc: Global,
    refs: &mut References<'a>,
    of: &'a SigType,
) -> Result<u32, NoMemory>
    requires known { AreKnown refs.old }
    requires writable { IsWritable refs.old of.now }
    requires room { size refs.old + type_weight of.now ≤ 2 ^ 26 }
    ensures { IfOk result (IsSigned SpellsField refs.old refs.new of.now (type_weight of.now)) }
{
    note_type(alloc, refs, of)?;
    let bytes = encode_field(alloc, of, &refs.known)?;
    refer_blob(refs, bytes.as_slice())
}

/// The blob of the signature of locals (II.23.2.6).
pub fn locals_signature<'a>(
    alloc: Global,
    refs: &mut References<'a>,
    locals: &'a Types,
) -> Result<u32, NoMemory>
    requires known { AreKnown refs.old }
    requires writable { AreWritable refs.old locals.now }
    requires count { CanBePacked (length locals.now) }
    requires room { size refs.old + (sum_by type_weight locals.now + 9) ≤ 2 ^ 26 }
    ensures { IfOk result (IsSigned SpellsLocals refs.old refs.new locals.now (sum_by type_weight locals.now + 9)) }
{
    note_types(alloc, refs, locals.as_slice())?;
    let bytes = encode_locals(alloc, locals, &refs.known)?;
    refer_blob(refs, bytes.as_slice())
}

/// The blob of the arguments of a generic method, of which there is at least one (II.23.2.15).
pub fn arguments_signature<'a>(
    alloc: Global,
    refs: &mut References<'a>,
    args: &'a Types,
) -> Result<u32, NoMemory>
    requires known { AreKnown refs.old }
    requires writable { AreWritable refs.old args.now }
    requires some { 0 < length args.now }
    requires count { CanBePacked (length args.now) }
    requires room { size refs.old + (sum_by type_weight args.now + 9) ≤ 2 ^ 26 }
    ensures { IfOk result (IsSigned SpellsInstantiation refs.old refs.new args.now (sum_by type_weight args.now + 9)) }
{
    note_types(alloc, refs, args.as_slice())?;
    let bytes = encode_instantiation(alloc, args, &refs.known)?;
    refer_blob(refs, bytes.as_slice())
}
