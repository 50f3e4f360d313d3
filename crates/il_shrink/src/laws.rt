ghost use Rattle.il_shrink.specs.Laws.{ValidChoicesJoin, OneIsShrunk, ShortOnesStay};

/// What is short in either of two valid choices for code is a valid choice. It does nothing when it is called.
pub fn valid_choices_join()
    ensures { ValidChoicesJoin }
{}

/// A body has at most one shrunk one. It does nothing when it is called.
pub fn one_is_shrunk()
    ensures { OneIsShrunk }
{}

/// A branch that is short in a body whose short branches reach stays short. It does nothing when it is called.
pub fn short_ones_stay()
    ensures { ShortOnesStay }
{}
