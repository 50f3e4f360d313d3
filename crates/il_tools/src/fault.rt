use source_assembly::SourceFault;
use thiserror::Error;

/// Why a source gives no image.
#[derive(Debug, Clone, Copy, PartialEq, Eq, Drop, Error)]
pub(crate) enum ContentFault {
    /// It has a fault.
    #[error("the source has a fault")]
    Source(SourceFault),
    /// It denotes an assembly that is too large for an image.
    #[error("the assembly is too large")]
    TooLarge,
}

/// Why there is no image.
#[derive(Debug, Clone, Copy, PartialEq, Eq, Drop, Error)]
pub(crate) enum ImageFault {
    /// The source gives none.
    #[error("the source gives no image")]
    Content(ContentFault),
    /// There was no memory.
    #[error("no memory")]
    NoMemory,
}
