//! The names of tables and the map of ranges, each in a store of its own.
#![tactic(auto)]

mod checkpoint;
mod content;
mod listing;
mod map_checkpoint;
mod map_content;
mod map_listing;
mod map_rows;
mod map_steps;
mod names;
mod names_opening;
mod plans;
mod range_map;
mod refusals;
mod rows;
mod steps;
mod tables;

pub use content::NamesContent;
pub use map_content::MapContent;
pub use map_steps::MapStep;
pub use names::Names;
pub use plans::Plan;
pub use range_map::RangeMap;
pub use refusals::NamesRefused;
pub use rows::TableRow;
pub use steps::NamesStep;
