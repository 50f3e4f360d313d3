ghost use Rattle.std.specs.Prelude.{◌≡◌, IfOk};

use il_lists::{Bytes, NoMemory};
use std::alloc::Global;

/// Whether an image is a program or a library.
#[derive(Debug, Clone, Copy, PartialEq, Eq)]
pub enum Kind {
    Exe,
    Dll,
}

/// The numbers of an image that its manifest keeps.
#[derive(Debug, Clone, Copy, PartialEq, Eq)]
pub struct ManifestNumbers {
    /// The address at which the image wants to stand.
    pub image_base: u32,
    /// The unit of the sections' bytes in the file.
    pub file_alignment: u32,
    /// How many bytes of stack are reserved.
    pub stack_reserve: u32,
    /// The subsystem that the image runs in (ECMA-335 II.25.2.3.2).
    pub subsystem: u16,
    /// The flags of the CLI header (ECMA-335 II.25.3.3.1).
    pub cor_flags: u32,
}

/// What an image is made of.
#[derive(Debug, Drop)]
pub struct Parts {
    /// The method bodies, the first of which begins at `code_rva`.
    pub code: Bytes,
    /// The metadata, from its root on.
    pub metadata: Bytes,
    /// The token of the entry point, or 0.
    pub entry: u32,
    pub numbers: ManifestNumbers,
    pub kind: Kind,
}

impl Parts {
    /// Puts copies of code and metadata together with the rest.
    pub fn new(
        alloc: Global,
        code: &[u8],
        metadata: &[u8],
        entry: u32,
        manifest: &ManifestNumbers,
        kind: Kind,
    ) -> Result<Parts, NoMemory>
        ensures { IfOk result (λ parts. parts ≡ record { code = code.now; metadata = metadata.now; entry = entry; numbers = manifest.now; kind = kind }) }
    {
        let code = Bytes::from_slice(alloc, code)?;
        let metadata = Bytes::from_slice(alloc, metadata)?;
        Ok(Parts {
            code,
            metadata,
            entry,
            numbers: *manifest,
            kind,
        })
    }
}
