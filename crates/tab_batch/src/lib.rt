//! Multipart bodies of entity group transactions (RFC 2046, section 5.1; the Table service REST reference, "Performing Entity
//! Group Transactions"): the requests that a batch has, and the text of its reply.
#![tactic(auto)]

mod batches;
mod bodies;
mod boundaries;
mod byte_ranges;
mod laws;
mod lines;
mod marks;
mod refusals;
mod replies;
mod requests;
mod sections;

pub use batches::read_batch;
pub use boundaries::boundary_of;
pub use laws::{a_batch_has_one_answer, a_batch_has_some_answer, replies_are_read_again};
pub use refusals::{BatchRefused, Memory};
pub use replies::write_batch;

/// The most bytes that a boundary may have (RFC 2046, section 5.1.1).
pub const LONGEST_BOUNDARY: usize = 70;
