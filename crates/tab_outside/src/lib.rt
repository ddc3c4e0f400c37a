//! What the service takes from outside: sources and sinks of bytes, a clock and disks, each with a count of
//! its faults, and their forms in memory.
#![tactic(auto)]

mod bytes;
mod calls;
mod clocks;
mod disks;
mod logs;
mod mem_disk;
mod sinks;
mod sources;
mod transfers;

pub use clocks::{Clock, SetClock};
pub use disks::Disk;
pub use mem_disk::MemDisk;
pub use sinks::{MemSink, Sink};
pub use sources::{MemSource, Source};
use std::alloc::{AllocError, AllocFailed};
pub use transfers::{FillRefused, fill, read_byte, write_all};

/// A call of something outside that failed. Its cause is told by the count of faults alone.
#[derive(Clone, Copy, Debug, PartialEq, Eq)]
pub struct Failed;

/// A refusal by want of memory.
#[derive(Clone, Copy, Debug, PartialEq, Eq)]
pub struct Memory;

impl From<AllocError> for Memory {
    fn from(_error: AllocError) -> Memory {
        Memory
    }
}

impl<T: Drop> From<AllocFailed<T>> for Memory {
    fn from(_error: AllocFailed<T>) -> Memory {
        Memory
    }
}
