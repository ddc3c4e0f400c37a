//! Keys of a table service: key texts, table names, keys in the order of their UTF-16 code units, the bounds that
//! cut the space of keys, and spans between two bounds.
#![tactic(auto)]

mod bounds;
mod key_texts;
mod keys;
mod spans;
mod table_names;
mod text_order;

pub use bounds::Bound;
pub use key_texts::{KeyRefused, KeyText};
pub use keys::Key;
pub use spans::Span;
use std::alloc::{AllocError, AllocFailed};
pub use table_names::{NameRefused, TableName};
pub use text_order::utf16_cmp;

/// A refusal by want of memory.
#[derive(Clone, Copy, Debug, PartialEq, Eq)]
pub struct Memory;

impl From<AllocError> for Memory {
    fn from(_error: AllocError) -> Memory {
        Memory
    }
}

impl<T: Drop> From<AllocFailed<T>> for Memory {
    fn from(_error: AllocFailed<T>) -> Memory {
        Memory
    }
}
