//! What threads may know of one another's calls: an office numbers the calls of its callers by one word, seats draw
//! numbers for the keys of their spans, and passes keep what a caller has seen.
#![tactic(auto)]

mod laws;
mod members;
mod offices;
mod passes;
mod seats;
mod slips;
mod steps;
mod tallies;
mod views;

pub use laws::seven_parts;
pub use offices::Office;
pub use passes::CallerPass;
pub use seats::RangeSeat;
pub use slips::{Note, Slip};
pub use steps::Keyed;
pub use tallies::{NoTally, Tally};
pub use views::Stroke;
