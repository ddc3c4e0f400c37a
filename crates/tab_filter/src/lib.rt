//! The filter language of queries: its trees, their truth on a row, and the window of keys outside of which no row
//! can match.
#![tactic(auto)]

mod filter_text;
mod laws;
mod lexer;
mod literals;
mod parse_stop;
mod parser;
mod targets;
mod trees;
mod truth;
mod window;

pub use filter_text::{FilterRefused, parse};
pub use laws::refusals_are_placed;
pub use trees::{Comparison, Filter, Operator};
pub use window::{Window, matches_within_window, window_reaches_its_keys, window_starts_low};
