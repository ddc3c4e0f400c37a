//! From a message to what it asks of the store, or to its first refusal.

pub mod batches;
pub mod conditions;
pub mod decide;
pub mod formats;
pub mod names;
pub mod rows;
pub mod signing;
pub mod table_queries;
pub mod tables;
pub mod targets;
pub mod writes;
