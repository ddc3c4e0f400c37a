//! A range of keys with its rows: what a command comes to over it, and the changes that it takes in memory.
#![tactic(auto)]

mod backing;
mod commands;
mod held_ranges;

pub use backing::Backing;
pub use commands::{Answer, Command, NextTick, Opening, Told, What};
pub use held_ranges::HeldRange;
pub use tab_history::{Ask, Denied, Reply};
