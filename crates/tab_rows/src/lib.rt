//! The rows of a table service in the order of their keys: look-ups, changes that take no memory once it was
//! reserved, and cursors that lend the rows one after another and count them.
#![tactic(auto)]

mod changes;
mod cursors;
mod laws;
mod row;
mod rows;
mod steps;

pub use changes::Change;
pub use cursors::Cursor;
pub use laws::{reads_of_a_span_are_reads_of_all, spans_part_and_join};
pub use row::Row;
pub use rows::Rows;
pub use steps::Steps;
