//! What every part of the toolkit stands on: lists and texts, places in a source, a count of steps, packed numbers, and
//! the outside as the program sees it, a shelf of files and a console.
#![tactic(auto)]

mod console;
mod counts;
mod disk_shelf;
mod failed;
mod laws;
mod mem_console;
mod mem_shelf;
mod open_files;
mod packed;
mod plan;
mod pos;
mod shelf;
mod std_console;
mod steps;
mod stored;
mod stored_files;

pub use console::Console;
pub use disk_shelf::DiskShelf;
pub use failed::Failed;
pub use il_lists::{Boxed, Bytes, Copies, Items, NoMemory, Numbers, Signed, Text, Units, Words};
pub use laws::{
    each_number_has_a_shortest_spelling, each_signed_number_has_a_shortest_spelling,
    no_packed_begins_another, no_packed_signed_begins_another, one_packed_stands_at_a_place,
    packed_is_short, packed_stands_where_put,
};
pub use mem_console::MemConsole;
pub use mem_shelf::MemShelf;
pub use packed::{push_packed, push_packed_signed, read_packed, read_packed_signed};
pub use pos::Pos;
pub use shelf::Shelf;
pub use std_console::StdConsole;
pub use steps::Steps;
