use image_streams::Image;
use image_types::Maps;
use told_weights::RowWeights;

/// What the weight of an image is found by.
#[derive(Drop)]
pub struct WeightSource<'s, 'a, W: RowWeights> {
    /// The image.
    pub image: &'s Image<'a>,
    /// What is told of the weights of what its rows name.
    pub weights: &'s W,
    /// Of each row of FieldRVA how many bytes its data has; that of row 0 counts for nothing.
    pub sizes: &'s [u32],
    /// Of each row of InterfaceImpl whether no earlier row of its class names its type; that of row 0 counts for nothing.
    pub fresh: &'s [bool],
    /// How members of types are found.
    pub maps: &'s Maps<'s, 's>,
}
