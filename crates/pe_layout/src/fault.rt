use thiserror::Error;

/// Why a file is no image of the profile.
///
/// `rule` is 1 where the headers aren't a PE file's, 2 where the machine or the optional header isn't
/// in the profile, and 3 where there is no CLI header. `at` is the byte of the file at which rule 2
/// is broken, that of the PE signature, and 0 for the others.
#[derive(Debug, Clone, Copy, PartialEq, Eq, Error)]
#[error("I{rule} at byte {at}")]
pub struct PeFault {
    pub rule: u8,
    pub at: u32,
}
