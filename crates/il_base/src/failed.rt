use thiserror::Error;

/// A call of a shelf or of a console failed. Its count of failures rose in that call, or the shelf tells its files and
/// has none of that name.
#[derive(Debug, Clone, Copy, PartialEq, Eq, Drop, Error)]
#[error("the call failed")]
pub struct Failed;
