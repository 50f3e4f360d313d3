ghost use Rattle.std.specs.Prelude.{◌≡◌};
ghost use Rattle.body_codec.specs.declared.fault.BodyFault.TheVariants.{NoMemory};

use thiserror::Error;

/// Why a body wasn't written or read. Offsets count bytes of its code from 0, clauses and instructions count from 0.
#[derive(Debug, Clone, Copy, PartialEq, Eq, Drop, Error)]
pub enum BodyFault {
    /// The short branch at this instruction doesn't reach its target. Of several the first is named.
    #[error("the short branch of instruction {at} is too far")]
    Far { at: u32 },
    /// The header isn't known, the code is empty or can't be read, or the token of the locals isn't known
    /// (ECMA-335 II.25.4.1 to II.25.4.3).
    #[error("the header is wrong")]
    Header,
    /// There is no such opcode (III.1.2).
    #[error("the opcode at {offset} isn't known")]
    Opcode { offset: u32 },
    /// The code ends within an instruction.
    #[error("the instruction at {offset} is cut")]
    Cut { offset: u32 },
    /// A target of this instruction isn't the start of an instruction.
    #[error("a target of the instruction at {offset} is wrong")]
    Target { offset: u32 },
    /// This clause is wrong, or the section where it would stand, or it is one too many (II.25.4.5, II.25.4.6).
    #[error("clause {clause} is wrong")]
    Range { clause: u32 },
    /// The token of this instruction isn't known, or that of the catch whose handler begins here.
    #[error("the token at {offset} isn't known")]
    Token { offset: u32 },
    /// There was no memory.
    #[error("no memory")]
    NoMemory,
}

impl From<il_lists::NoMemory> for BodyFault {
    ghost from_gives = { λ _ e. e ≡ NoMemory };

    fn from(_error: il_lists::NoMemory) -> BodyFault {
        BodyFault::NoMemory
    }
}
