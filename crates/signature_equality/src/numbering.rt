ghost use Rattle.std.specs.Prelude.{◌≡◌};

/// A number for what a token names: one number for tokens that name the same (ECMA-335 II.22).
pub trait Numbering {
    ghost use Rattle.std.specs.Prelude.{ℕ, Bool};

    /// Whether two tokens have one number.
    ghost canon: { Self → ℕ → ℕ → Bool };

    /// Whether the tokens have one number.
    fn is_same(&self, a: u32, b: u32) -> bool
        ensures { result ≡ canon self.now a b };
}
