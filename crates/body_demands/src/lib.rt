//! The demands on the bodies of methods by their bytes (ECMA-335 II.25.4): headers (I17), instructions (I18) and clauses (I19).
#![tactic(auto)]

mod clauses;
mod first;
mod headers;
mod instructions;

pub use clauses::Clauses;
pub use first::first_unmet;
pub use headers::Headers;
pub use instructions::Instructions;
