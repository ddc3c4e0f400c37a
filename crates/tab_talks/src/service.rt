//! The call of the service, over the forms in memory.

use std::alloc::Global;
use tab_drive::run;
use tab_outside::{MemDisk, MemSink, MemSource, SetClock};

/// What a run came to.
#[derive(Drop)]
pub struct Came {
    pub sink: MemSink,
    pub status: u8,
}

/// Runs a command over a schedule. Nothing is said of what comes, since the talks say it.
pub fn run_over(alloc: Global, words: &[String], schedule: Vec<u8>) -> Came {
    let mut source = MemSource::new(schedule, Vec::new(alloc));
    let mut sink = MemSink::new(alloc, Vec::new(alloc));
    let mut yard: Vec<MemDisk> = Vec::new(alloc);
    let mut clock = SetClock::new(0);
    let ended = run(alloc, words, &mut source, &mut sink, &mut yard, &mut clock);
    Came {
        sink,
        status: ended.status,
    }
}
