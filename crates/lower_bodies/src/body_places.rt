//! Where the parts of a body are written, and what is known of the method there (ECMA-335 II.15.4.1).

use crate::code_places::Code;
use crate::variables::Variables;
use source_syntax::place::Place;

/// A place within a method: that of its types, its labels and the first tokens of its instructions, and its arguments and locals
/// where an instruction takes one.
#[derive(Clone, Copy)]
pub struct BodyPlace<'a> {
    pub place: Place<'a>,
    pub code: Code<'a>,
    pub variables: Option<&'a Variables>,
}
