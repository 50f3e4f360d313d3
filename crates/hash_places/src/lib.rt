//! A map from hashes to places, in one array that is probed slot by slot. Whoever finds items by their hash keeps the place of
//! the newest item with a hash in it, and links older items with the same hash by itself.
#![tactic(auto)]

mod places;
mod slots;

pub use places::HashPlaces;
