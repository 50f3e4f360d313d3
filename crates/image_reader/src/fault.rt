use image_model::Place;
use thiserror::Error;

/// Why an image gives no assembly.
#[derive(Debug, Clone, Copy, PartialEq, Eq, Drop, Error)]
pub enum ImageFault {
    /// It fails a demand; this is the first.
    #[error("the image fails a demand")]
    Bad {
        /// The number of the demand, 1 to 24.
        rule: u8,
        /// The place that it names.
        at: Place,
    },
    /// There was no memory for what is known of the image, or for the assembly.
    #[error("no memory")]
    NoMemory,
}
