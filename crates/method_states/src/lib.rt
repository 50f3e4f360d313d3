//! What is said of the body of each method by its bytes (I17, I18, I19), and the rows of reference tables that bodies name
//! (ECMA-335 II.22.26, II.25.4). Each body is looked at once, also where methods share it.
#![tactic(auto)]

mod body_look;
mod pass;
mod row_marks;
mod state;
mod tokens;

pub use pass::{MethodStates, look_at_bodies};
pub use row_marks::RowMarks;
pub use state::BodyState;
