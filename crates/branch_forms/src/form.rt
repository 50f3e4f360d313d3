ghost use Rattle.std.specs.Prelude.{◌≡◌};
ghost use Rattle.branch_forms.specs.Forms.{width};

/// An instruction by its length and, for a branch that has a short form, its target: the number of an instruction,
/// counted from 0.
#[derive(Clone, Copy)]
pub enum Form {
    /// That many bytes, whatever is chosen.
    Fixed(u8),
    /// A branch whose target stands in one byte.
    Short(u32),
    /// A branch whose target stands in four bytes.
    Long(u32),
}

impl Form {
    /// The bytes of the instruction.
    pub(crate) fn width(self) -> u64
        ensures { result ≡ width self }
    {
        match self {
            Form::Fixed(bytes) => bytes as u64,
            Form::Short(_) => 2,
            Form::Long(_) => 5,
        }
    }
}
