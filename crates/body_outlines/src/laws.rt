//! Laws of outlines, for the proofs of crates above. None of these functions does anything when it is called.
ghost use Rattle.body_outlines.specs.Laws.{OutlinesAreBodies, OutlinesNameTokens, ReadBodiesAreFormed};

/// A body whose tokens all have names, of its locals, its operands and its catches, is spelled (ECMA-335 II.25.4).
pub fn outlines_are_bodies()
    ensures { OutlinesAreBodies }
{}

/// The tokens of an outline are those that the body names (ECMA-335 II.25.4).
pub fn outlines_name_tokens()
    ensures { OutlinesNameTokens }
{}

/// A body that is read, with at most 65,535 locals, has the form of one, and its short branches reach (ECMA-335 II.25.4,
/// III.1.7).
pub fn what_is_read_is_formed()
    ensures { ReadBodiesAreFormed }
{}
