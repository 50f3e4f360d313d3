//! The law of what is read of an image, for the proofs of crates above. The function does nothing when it is called.
ghost use Rattle.held_images.specs.Laws.{ReadsAreHeld};

/// An image that reads as an assembly reads as one whose values are such as a tree in memory holds: each number fits its field,
/// bytes are bytes, and each path has a name (ECMA-335 II.22, II.23.2, II.24.2, II.25.4).
pub fn what_is_read_is_held()
    ensures { ReadsAreHeld }
{}
