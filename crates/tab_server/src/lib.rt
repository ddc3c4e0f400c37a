//! One range server: the ranges that it holds in memory, and the frames of its two disks that spell them.
#![tactic(auto)]

mod comparing;
mod content;
mod laws;
mod marks;
mod ranges;
mod recovering;
mod refusals;
mod replays;
mod rewriting;
mod server;
mod steps;

pub use laws::accepted_changes_fit;
pub use marks::Mark;
pub use ranges::{Marked, Ranges};
pub use refusals::ActRefused;
pub use server::Server;
pub use steps::RangeChange;
