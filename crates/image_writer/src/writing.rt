//! The image of an assembly (ECMA-335 II.22 to II.25).
ghost use Rattle.std.specs.Prelude.{◌≡◌, ◌⊎◌, ◌≤◌, ◌<◌, ◌^◌, min, true, length, Err, IfOk, IfErr};
ghost use Rattle.assembly_tree.specs.Room.{room};
ghost use Rattle.assembly_tree.specs.Weight.{weight_of};
ghost use Rattle.assembly_tree.specs.WellFormed.{is_well_formed};
ghost use Rattle.image_model.specs.Faults.{Reads};
ghost use Rattle.image_model.specs.Tidy.{IsTidy};
ghost use Rattle.image_writer.specs.Refused.{IsRefused};
ghost use Rattle.image_writer.specs.declared.fault.WriteFault.TheVariants.{TooLarge, StringsFull, NoMemory};

use crate::fault::WriteFault;
use crate::finishing::write_loaded;
use assembly_tree::{Assembly, Attributes, Generics, weigh};
use il_base::Bytes;
use image_members::loading::load_texts;
use image_tables::owned_part::Nothing;
use pe_layout::Kind;
use std::alloc::Global;

// How much an assembly may weigh.
const LIMIT: u64 = 1 << 26;

// How many bytes the heap of user strings may have, so that a token has room for each of its indexes (III.1.9).
const ROOM: u64 = 1 << 24;

/// A tidy PE32 image that reads as the assembly, which is well formed; `id` is the identifier of its module (ECMA-335 II.22.30).
///
/// It answers `TooLarge` exactly where the assembly weighs more than 2^26, and `StringsFull` exactly where it
/// doesn't, and the texts that it loads take more than 2^24 bytes of the heap of user strings.
pub fn write(alloc: Global, a: &Assembly, id: [u8; 16], kind: Kind) -> Result<Bytes, WriteFault>
    requires { is_well_formed a.now ≡ true }
    ensures reads { IfOk result (λ image. Reads image a.now) }
    ensures tidy { IfOk result (λ image. IsTidy image kind id) }
    ensures small { IfOk result (λ image. length image ≤ weight_of a.now) }
    ensures refused { IfErr result (IsRefused a.now) }

    // It answers either of them wherever it is the cause; only for the second does it take memory.
    ensures too_large { 2 ^ 26 < weight_of a.now → result ≡ Err (TooLarge (min (weight_of a.now) (2 ^ 63))) }
    ensures strings_full { weight_of a.now ≤ 2 ^ 26 → 2 ^ 24 < room a.now →
        (result ≡ Err (StringsFull (room a.now))) ⊎ (result ≡ Err NoMemory) }
{
    let weighed = weigh(a);
    let weight = weighed.weight;
    if weight > LIMIT {
        return Err(WriteFault::TooLarge { weight });
    }
    let user = load_texts(alloc, a, weighed.loads)?;
    let room = user.bytes().len() as u64;
    if room > ROOM {
        return Err(WriteFault::StringsFull { room });
    }
    let none = Nothing {
        attributes: Attributes::new(alloc),
        generics: Generics::new(alloc),
    };
    let image = write_loaded(alloc, a, &none, user, &id, kind)?;
    Ok(image)
}
