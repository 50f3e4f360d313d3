use il_base::Text;
use pe_layout::Kind;

/// What is to be done.
#[derive(Debug, Drop)]
pub enum Command {
    /// A source is assembled.
    Ilasm {
        /// The name of the source.
        file: Text,
        /// Whether a program or a library is made.
        kind: Kind,
        /// Whether branches are short wherever they can be.
        optimize: bool,
        /// The name of the image.
        output: Text,
    },
}
