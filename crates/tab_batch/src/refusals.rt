//! Why a batch is refused.
ghost use Rattle.std.specs.Prelude.{◌≡◌};

use std::alloc::{AllocError, AllocFailed};

/// No memory was found.
#[derive(Clone, Copy, Debug, PartialEq, Eq)]
pub struct Memory;

/// Why the requests of a batch were not read.
#[derive(Clone, Copy, Debug, PartialEq, Eq)]
pub enum BatchRefused {
    /// The line at this offset breaks a rule of multipart bodies, or a closing line is missing, and this is the length.
    BadMultipart { at: usize },
    /// That part, counted from 0, is no request.
    BadPart { index: usize },
    /// No memory was found.
    Memory,
}

impl From<AllocError> for Memory {
    fn from(_error: AllocError) -> Memory {
        Memory
    }
}

impl<T: Drop> From<AllocFailed<T>> for Memory {
    fn from(_failed: AllocFailed<T>) -> Memory {
        Memory
    }
}

impl From<tab_outside::Memory> for Memory {
    fn from(_memory: tab_outside::Memory) -> Memory {
        Memory
    }
}

impl From<Memory> for BatchRefused {
    ghost use Rattle.tab_batch.specs.declared.refusals.BatchRefused.{BatchRefused};

    ghost from_gives = { λ _ refused. refused ≡ BatchRefused.Memory };

    fn from(_memory: Memory) -> BatchRefused {
        BatchRefused::Memory
    }
}
