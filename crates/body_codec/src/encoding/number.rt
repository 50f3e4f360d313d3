ghost use Rattle.std.specs.Prelude.{◌≡◌, ◌<◌, ◌≤◌, ◌+◌, ◌++◌, ◌^◌, length, OnOk};
ghost use Rattle.body_codec.specs.Chains.{IsPut};
ghost use Rattle.body_codec.specs.Written.{number_bytes, signed_bytes};

use il_lists::{Bytes, NoMemory};

/// Adds the lowest `size` bytes of `number`, the lowest first.
#[tactic(auto, using(crate::proofs::Numbers::front_bytes), unfolding(crate::specs::Written::number_bytes))]
pub(crate) fn push_number(out: &mut Bytes, size: usize, number: u64) -> Result<(), NoMemory>
    requires { size ≤ 8 }
    ensures { OnOk result (out.new ≡ out.old ++ number_bytes size number) }
{
    out.extend(&number.to_le_bytes()[..size])
}

/// Adds the lowest `size` bytes of `number` in two's complement, the lowest first.
pub(crate) fn push_signed(out: &mut Bytes, size: usize, number: i64) -> Result<(), NoMemory>
    requires { size ≤ 8 }
    ensures { OnOk result (out.new ≡ out.old ++ signed_bytes size number) }
{
    push_number(out, size, number.cast_unsigned())
}

/// Writes the lowest `size` bytes of `number` in two's complement over those at `place`, the lowest first.
#[tactic(auto, using(crate::proofs::Numbers::front_bytes), unfolding(crate::specs::Written::number_bytes))]
pub(crate) fn put_signed(out: &mut Bytes, place: usize, size: usize, number: i64)
    requires small { size ≤ 8 }
    requires inside { place + size ≤ length out.old }
    requires room { length out.old < 2 ^ 32 }
    ensures { IsPut out.old place (signed_bytes size number) out.new }
{
    put_bytes(out, place, &number.cast_unsigned().to_le_bytes()[..size]);
}

/// Writes bytes over those at `place`.
fn put_bytes(out: &mut Bytes, place: usize, bytes: &[u8])
    requires inside { place + length bytes.now ≤ length out.old }
    requires room { length out.old < 2 ^ 32 }
    ensures { IsPut out.old place bytes.now out.new }
{
    for (i, byte) in bytes.iter().enumerate() {
        out.set(place + i, *byte);
    }
}
