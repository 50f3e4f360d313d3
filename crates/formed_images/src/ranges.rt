//! Bytes are in the range of their width.
ghost use Rattle.formed_images.specs.Laws.{AreBytes};

/// The bytes of a slice are below 256, which the law of reading asks of an image. It does nothing when it
/// is called.
pub fn bytes_in_range(_bytes: &[u8])
    ensures { AreBytes _bytes.now }
{}
