//! How a run of the program ends. All that it says and writes is made in memory first, as an `Ending`; then it is
//! performed, and performing takes no memory.
#![tactic(auto)]

mod ending;
mod input;
mod output;
mod performing;
mod reading;
mod said;
mod written;

pub use ending::{Ending, Made};
pub use input::{Input, Stop};
pub use performing::perform;
pub use reading::read_inputs;
pub use said::{makes, prints, says, too_long_said, unread_said, usage_said};
pub use written::Written;
