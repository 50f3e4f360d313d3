//! Bytes at multiples of 4 or 8, one after another, as they come to stand in an image.
ghost use Rattle.std.specs.Prelude.{◌≡◌, ◌⊎◌, ◌+◌, ◌^◌, ◌<◌, length, IfOk, OnOk};
ghost use Rattle.image_members.specs.Placing.{Puts, FillsUp};

use il_base::{Bytes, NoMemory};
use pe_layout::code_rva;

const ZEROS: [u8; 8] = [0; 8];

/// Adds bytes behind the code, at the next multiple of 4 or 8, and answers their RVA.
pub fn put_bytes(code: &mut Bytes, multiple: usize, bytes: &[u8]) -> Result<u32, NoMemory>
    requires multiple { (multiple ≡ 4) ⊎ (multiple ≡ 8) }
    requires room { length code.old + length bytes.now < 2 ^ 27 }
    ensures { IfOk result (Puts multiple bytes.now code.old code.new) }
{
    fill_up(code, multiple)?;
    let rva = code_rva() + code.len() as u32;
    code.extend(bytes)?;
    Ok(rva)
}

/// Fills the code up with zeros to a multiple.
fn fill_up(code: &mut Bytes, multiple: usize) -> Result<(), NoMemory>
    requires { (multiple ≡ 4) ⊎ (multiple ≡ 8) }
    ensures { OnOk result (FillsUp multiple code.old code.new) }
{
    let missing = (multiple - code.len() % multiple) % multiple;
    code.extend(&ZEROS[..missing])
}
