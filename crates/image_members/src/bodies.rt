//! The bodies of methods, one after another (ECMA-335 II.25.4).
ghost use Rattle.std.specs.Prelude.{◌≡◌, ℕ, ◌+◌, ◌^◌, ◌≤◌, ◌∷◌, [], map, Some, length, IfOk, OnOk};
ghost use Rattle.body_codec.specs.Encoding.{CanBeWritten, IsFirstFar, IsWritten};
ghost use Rattle.image_tokens.specs.BodyTokens.{HasBodyTokens};
ghost use Rattle.image_tokens.specs.NamesWeight.{names_weight};
ghost use Rattle.image_members.specs.CodeBytes.{all_tokens, any_token, code_room, body_of, IsBodyAt, AddsBodies, AddsBody, CanPushBody, CanPushBodies};
ghost use Rattle.image_members.specs.Places.{lent};
ghost use Rattle.image_tokens.specs.References.{size, AreKnown};

use crate::placing::put_bytes;
use assembly_tree::{Body, Method};
use body_codec::{BodyFault, BodyWriter};
use il_base::{Bytes, Items, NoMemory};
use image_tokens::body_tokens::note_body;
use image_tokens::references::References;
use std::alloc::Global;

/// Where bodies are written, one after another, before they are added to the code.
#[derive(Drop)]
struct Space {
    writer: BodyWriter,
    bytes: Bytes,
}

/// Adds the bodies of methods to the code, and answers where each stands, as an RVA; 0 for a method that
/// has none.
pub fn push_bodies<'a>(
    alloc: Global,
    refs: &mut References<'a>,
    code: &mut Bytes,
    methods: &[&'a Method],
) -> Result<Items<u32>, NoMemory>
    requires { CanPushBodies (map body_of (lent methods.now)) refs.old code.old }
    ensures { IfOk result (AddsBodies (map body_of (lent methods.now)) refs.old refs.new code.old code.new) }
{
    let mut space = Space {
        writer: BodyWriter::new(alloc),
        bytes: Items::new(alloc),
    };
    let mut rvas = Items::with_capacity(alloc, methods.len())?;
    for method in methods {
        let rva = push_stated(alloc, refs, code, &mut space, &method.body)?;
        rvas.push(rva)?;
    }
    Ok(rvas)
}

/// Adds a body to the code, if there is one.
fn push_stated<'a>(
    alloc: Global,
    refs: &mut References<'a>,
    code: &mut Bytes,
    space: &mut Space,
    body: &'a Option<Body>,
) -> Result<u32, NoMemory>
    requires { CanPushBodies (body.now ∷ []) refs.old code.old }
    ensures { IfOk result (λ rva. AddsBodies (body.now ∷ []) refs.old refs.new code.old code.new (rva ∷ [])) }
{
    match body {
        None => Ok(0),
        Some(body) => push_body(alloc, refs, code, space, body),
    }
}

/// Adds a body to the code.
fn push_body<'a>(
    alloc: Global,
    refs: &mut References<'a>,
    code: &mut Bytes,
    space: &mut Space,
    body: &'a Body,
) -> Result<u32, NoMemory>
    requires known { AreKnown refs.old }
    requires can { CanPushBody refs.old body.now }
    requires room { size refs.old + names_weight body.now ≤ 2 ^ 26 }
    requires long { length code.old + code_room body.now ≤ 2 ^ 26 }
    ensures { IfOk result (AddsBody body.now refs.old refs.new code.old code.new) }
{
    note_body(alloc, refs, body)?;
    write_body(alloc, refs, space, body)?;
    put_bytes(code, 4, space.bytes.as_slice())
}

/// Writes a body, all of whose names have tokens.
fn write_body<'a>(
    alloc: Global,
    refs: &References<'a>,
    space: &mut Space,
    body: &Body,
) -> Result<(), NoMemory>
    requires known { AreKnown refs.now }
    requires tokens { HasBodyTokens refs.now body.now }
    requires form { CanBeWritten any_token body.now }
    requires reaches { (at : ℕ) → IsFirstFar body.now.code at → ⊥ }
    ensures { OnOk result (IsWritten (all_tokens refs.now) body.now space.new.bytes) }
{
    match space
        .writer
        .write(alloc, body, &refs.known, &mut space.bytes)
    {
        Ok(_) => Ok(()),
        Err(fault) => match fault {
            BodyFault::NoMemory => Err(NoMemory),
            // No branch is too far.
            _ => unreachable!(),
        },
    }
}
