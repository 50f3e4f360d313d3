ghost use Rattle.std.specs.Prelude.{◌≡◌};
ghost use Rattle.signature_verdicts.specs.Judging.{number_of};

/// What a blob is read as (ECMA-335 II.23.2).
#[derive(Clone, Copy)]
pub enum Kind {
    Type,
    Field,
    Method,
    Property,
    Locals,
    Instantiation,
}

/// What is asked of a signature by itself.
#[derive(Clone, Copy)]
pub struct Verdict {
    /// It is spelled whole.
    pub is_spelled: bool,
    /// It is, and its numbers are in bounds.
    pub is_bounded: bool,
    /// It is, and a sentinel stands in it.
    pub has_sentinel: bool,
}

impl Kind {
    /// A number for each kind, below 8.
    pub(crate) fn number(self) -> u64
        ensures { result ≡ number_of self }
    {
        match self {
            Kind::Type => 0,
            Kind::Field => 1,
            Kind::Method => 2,
            Kind::Property => 3,
            Kind::Locals => 4,
            Kind::Instantiation => 5,
        }
    }
}
