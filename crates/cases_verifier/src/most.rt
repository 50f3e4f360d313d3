//! How much the check of a method may take.

/// How much the check of a method may take.
#[derive(Debug, Clone, Copy, Drop)]
pub struct Most {
    /// The most joins and parents that it asks for.
    pub joins: u128,
    /// The most types that it adds to the world's pool.
    pub types: usize,
}

impl Most {
    /// As much as it likes.
    pub const ANY: Most = Most {
        joins: u128::MAX,
        types: usize::MAX,
    };

    /// As much as the text behind `<=` says: `JOINS`, or `JOINS,TYPES`.
    pub fn of_text(text: &str) -> Option<Most> {
        match text.split_once(',') {
            Some((joins, types)) => match (joins.parse::<u128>(), types.parse::<usize>()) {
                (Ok(joins), Ok(types)) => Some(Most { joins, types }),
                _ => None,
            },
            None => match text.parse::<u128>() {
                Ok(joins) => Some(Most { joins, ..Most::ANY }),
                Err(_) => None,
            },
        }
    }
}
