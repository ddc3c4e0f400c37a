//! Why no more lines of a file of cases are run.

use std::alloc::{AllocError, AllocFailed};

/// Why no more lines of a file are run.
#[derive(Clone, Copy)]
pub enum Stop {
    /// The answer that is due at the line is not the one that came.
    Differs,
    /// The line cannot be read as a case, or not run, for this reason.
    Unread(&'static str),
}

/// That no memory was found.
pub const NO_MEMORY: Stop = Stop::Unread("no memory was found");

/// That no call has this word here.
pub const UNKNOWN: Stop = Stop::Unread("no call has this word here");

impl From<AllocError> for Stop {
    fn from(_error: AllocError) -> Stop {
        NO_MEMORY
    }
}

impl<T: Drop> From<AllocFailed<T>> for Stop {
    fn from(_error: AllocFailed<T>) -> Stop {
        NO_MEMORY
    }
}

impl From<tab_keys::Memory> for Stop {
    fn from(_memory: tab_keys::Memory) -> Stop {
        NO_MEMORY
    }
}
