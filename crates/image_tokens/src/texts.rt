//! Texts as indexes of their heap (ECMA-335 II.24.2.3).
ghost use Rattle.std.specs.Prelude.{◌≡◌, ℕ, ◌+◌, ◌^◌, ◌<◌, ◌≤◌, Ok, length, IfOk, OnErr};
ghost use Rattle.image_tokens.specs.Texts.{HoldsText, KeepsTexts, HasNoZero, IsPlainId, id_size, HoldsId};

use heaps::StringHeap;
use il_base::{NoMemory, Text};
use type_terms::TypeId;

/// The index of a text, which the heap gets where it lacks it.
pub fn add_text(strings: &mut StringHeap, text: &Text) -> Result<u32, NoMemory>
    requires no_zero { HasNoZero text.now }
    requires room { length strings.old.bytes + length text.now + 8 < 2 ^ 29 }
    ensures holds { IfOk result (HoldsText strings.new text.now) }
    ensures known { (index : ℕ) → HoldsText strings.old text.now index → (result ≡ Ok index) × (strings.new ≡ strings.old) }
    ensures keeps { KeepsTexts strings.old strings.new }
    ensures size { length strings.new.bytes ≤ length strings.old.bytes + length text.now + 1 }
    ensures err { OnErr result (strings.new ≡ strings.old) }
{
    strings.add(text.as_str().as_bytes())
}

/// The indexes of the name and the space of a type.
pub fn add_id(strings: &mut StringHeap, id: &TypeId) -> Result<(u32, u32), NoMemory>
    requires no_zero { IsPlainId id.now }
    requires room { length strings.old.bytes + id_size id.now + 8 < 2 ^ 29 }
    ensures holds { IfOk result (λ at. HoldsId strings.new id.now at.0 at.1) }
    ensures known { (name space : ℕ) → HoldsId strings.old id.now name space → (result ≡ Ok (name, space)) × (strings.new ≡ strings.old) }
    ensures keeps { KeepsTexts strings.old strings.new }
    ensures size { length strings.new.bytes ≤ length strings.old.bytes + id_size id.now }
{
    let name = add_text(strings, &id.name)?;
    let space = add_text(strings, &id.space)?;
    Ok((name, space))
}
