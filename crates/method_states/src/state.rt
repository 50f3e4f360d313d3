ghost use Rattle.std.specs.Prelude.{◌≡◌};

/// What is said of the body of a method by its bytes (ECMA-335 II.25.4).
#[derive(Debug, Clone, Copy, PartialEq, Eq, Drop)]
pub enum BodyState {
    /// It has none.
    Nothing,
    /// Its header, its instructions and its clauses are in order, and no method above has this body.
    Good,
    /// They are in order, and a method above has this body too.
    Again,
    /// The type of its code isn't in the profile, or its header is wrong: I17.
    Header,
    /// An instruction is wrong: I18.
    Instructions,
    /// A clause is wrong: I19.
    Clauses,
}

impl BodyState {
    ghost use Rattle.method_states.specs.States.{again};

    /// What is said of a method below with the same body.
    pub(crate) fn again(self) -> BodyState
        ensures { result ≡ again self }
    {
        match self {
            BodyState::Good => BodyState::Again,
            other => other,
        }
    }
}
