ghost use Rattle.class_members.specs.Laws.{FilledIsOffered, HeldIsFound};

/// A slot is filled where the class or an ancestor offers what fills it (ECMA-335 II.12.2). It does nothing when it is called.
pub fn filled_is_offered()
    ensures { FilledIsOffered }
{}

/// Whether it is among the facts that a type offers something is found by the type's id and one list. It does nothing when it
/// is called.
pub fn held_is_found()
    ensures { HeldIsFound }
{}
