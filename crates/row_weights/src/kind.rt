ghost use Rattle.std.specs.Prelude.{◌≡◌};
ghost use Rattle.row_weights.specs.Signatures.{number_of};

/// What a blob is read as (ECMA-335 II.23.2).
#[derive(Clone, Copy)]
pub enum Kind {
    Type,
    Field,
    Method,
    Property,
    Locals,
    Instantiation,
}

impl Kind {
    /// A number for each kind, below 8.
    pub(crate) fn number(self) -> u64
        ensures { result ≡ number_of self }
    {
        match self {
            Kind::Type => 0,
            Kind::Field => 1,
            Kind::Method => 2,
            Kind::Property => 3,
            Kind::Locals => 4,
            Kind::Instantiation => 5,
        }
    }
}
