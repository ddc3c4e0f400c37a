//! What runs the tests' schedules, and what they are made of.

ghost use Rattle.std.specs.Prelude.{None};
ghost use Rattle.tab_outside.specs.Sides.{nothing_beside};

use std::alloc::{AllocError, Global};
use tab_drive::{Ended, run};
use tab_outside::{Failed, MemDisk, SetClock, Sink, Source};

/// A source that gives one byte a call, and does not tell what is left.
#[derive(Drop)]
pub struct ByteSource {
    pub bytes: Vec<u8>,
    pub offset: usize,
}

impl Source for ByteSource {
    ghost left = { λ _. None };

    ghost faults = { λ _. 0 };

    ghost beside = { λ _. nothing_beside };

    fn read(&mut self, buf: &mut [u8]) -> Result<usize, Failed> {
        let Some(byte) = self.bytes.get(self.offset) else {
            return Ok(0);
        };
        let Some(first) = buf.first_mut() else {
            return Ok(0);
        };
        *first = *byte;
        self.offset += 1;
        Ok(1)
    }
}

/// A sink that takes one byte a call, and does not tell what it took.
#[derive(Drop)]
pub struct ByteSink {
    pub bytes: Vec<u8>,
    pub faults: u64,
}

impl ByteSink {
    pub fn new(alloc: Global) -> ByteSink {
        ByteSink {
            bytes: Vec::new(alloc),
            faults: 0,
        }
    }
}

impl Sink for ByteSink {
    ghost taken = { λ _. None };

    ghost faults = { λ sink. sink.faults };

    ghost beside = { λ _. nothing_beside };

    fn write(&mut self, piece: &[u8]) -> Result<usize, Failed> {
        let Some(byte) = piece.first() else {
            return Ok(0);
        };
        match self.bytes.push(*byte) {
            Ok(()) => Ok(1),
            Err(_) => {
                self.faults = self.faults.saturating_add(1);
                Err(Failed)
            }
        }
    }
}

/// The words of a command for the open account `shop`.
fn words(alloc: Global) -> Result<Vec<String>, AllocError> {
    let mut words = Vec::new(alloc);
    for word in ["drive", "shop", "-"] {
        words.push(String::from_str(alloc, word)?)?;
    }
    Ok(words)
}

/// Runs a schedule. Nothing is said of what comes, since the tests say it.
pub fn run_over<S: Source, K: Sink>(
    alloc: Global,
    source: &mut S,
    sink: &mut K,
) -> Result<Ended, AllocError> {
    let words = words(alloc)?;
    let mut yard: Vec<MemDisk> = Vec::new(alloc);
    let mut clock = SetClock::new(0);
    Ok(run(alloc, words.as_slice(), source, sink, &mut yard, &mut clock))
}
