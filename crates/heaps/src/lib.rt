//! The four heaps of an image's metadata (ECMA-335 II.24.2.3 to II.24.2.5): filled by content, each
//! content at one index, and looked up over raw bytes by index.
#![tactic(auto)]

mod blob_heap;
mod chains;
mod entries;
mod guid_heap;
mod laws;
mod look_ups;
mod string_heap;
mod user_heap;

pub use blob_heap::BlobHeap;
pub use guid_heap::GuidHeap;
pub use laws::{blob_is_computed, contents_stay, one_content_at_an_index, written_is_read};
pub use look_ups::{blob_at, guid_at, string_at, user_at};
pub use string_heap::StringHeap;
pub use user_heap::UserHeap;
