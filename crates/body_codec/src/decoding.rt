//! From bytes to a body.

mod handlers;
mod header;
mod layout;
mod marks;
mod opcode;
mod operands;
mod outline;
mod sections;
mod targets;
mod tokens;
mod top;

pub use header::{Header, code_in, read_header};
pub use marks::{Mark, Marks};
pub use outline::{Outline, read_outline};
pub use sections::{ClauseRow, Clauses, Found, Region};
pub use tokens::named_tokens;
pub use top::decode;
