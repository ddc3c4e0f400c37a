//! Frames, in which a store keeps what changed: nine kinds, each frame with one spelling in bytes, written and read.
#![tactic(auto)]

mod bodies;
mod entities;
mod fields;
mod frames;
mod items;
mod keys;
mod laws;
mod lists;
mod prepared;
mod reading;
mod sizes;
mod stops;
mod writing;

pub use frames::{Frame, RangeRow};
pub use laws::{
    a_refusal_is_within_the_bytes, each_spelling_is_read, no_spelling_begins_another,
    only_spellings_are_read,
};
pub use lists::FrameList;
pub use prepared::{Prepared, prepare};
pub use reading::{CodecRefused, MOST_BODY, read_frame};
pub use sizes::row_size;
