use image_streams::Image;
use kept_names::KeptNames;

/// What an assembly is read from.
#[derive(Clone, Copy)]
pub struct Source<'s, 'a> {
    /// The image.
    pub image: &'s Image<'a>,
    /// What is kept of its tokens.
    pub kept: &'s KeptNames,
    /// Of each row of FieldRVA how many bytes its data has; that of row 0 counts for nothing.
    pub sizes: &'s [u32],
}
