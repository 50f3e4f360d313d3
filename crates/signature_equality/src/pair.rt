/// What is left of two signatures.
#[derive(Clone, Copy)]
pub(crate) struct Pair<'a> {
    pub a: &'a [u8],
    pub b: &'a [u8],
}
