//! Laws, each as the contract of a function that does nothing when it is called.
ghost use Rattle.print_leaves.specs.Laws.{DrawnIsText};

/// Drawing a piece of a listing adds the text of its tokens.
#[tactic(auto, using(crate::proofs::Drawn::drawn_is_text))]
pub fn drawn_is_text()
    ensures { DrawnIsText }
{}
