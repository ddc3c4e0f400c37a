//! The entity data model: the seven kinds of a property's value, and entities within their limits.
#![tactic(auto)]

mod entities;
mod moments;
mod texts;
mod values;

pub use entities::{EdmRefused, Entity, MOST_PROPERTIES, MOST_SIZE};
pub use moments::{etag_text, moment_text, push_etag, push_moment, read_etag, read_moment};
use std::alloc::{AllocError, AllocFailed};
pub use texts::{BytesValue, TextValue, char_count, unit_count};
pub use values::{
    MOST_BINARY_BYTES, MOST_NAME_CHARACTERS, MOST_TEXT_UNITS, Property, Value, is_identifier,
};

/// A refusal by want of memory.
#[derive(Clone, Copy, Debug, PartialEq, Eq)]
pub struct Memory;

impl From<AllocError> for Memory {
    fn from(_error: AllocError) -> Memory {
        Memory
    }
}

impl<T: Drop> From<AllocFailed<T>> for Memory {
    fn from(_error: AllocFailed<T>) -> Memory {
        Memory
    }
}

/// The ticks of a second.
pub const TICKS_IN_A_SECOND: u64 = 10_000_000;

/// The last tick, 9999-12-31T23:59:59.9999999Z. A tick is 100 ns since 1601-01-01T00:00:00Z.
pub const GREATEST: u64 = 2_650_467_743_999_999_999;
