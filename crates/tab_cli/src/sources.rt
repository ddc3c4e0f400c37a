//! Standard input as a source.
ghost use Rattle.std.specs.Prelude.{◌≡◌, ◌≤◌, None, IfOk};
ghost use Rattle.tab_outside.specs.Sides.{nothing_beside};

use std::alloc::Global;
use std::io::{BufReader, Read, Stdin};
use tab_outside::{Failed, Memory, Source};

/// How much is read ahead at most.
const BUFFER_SIZE: usize = 65_536;

/// Standard input. A read waits only where nothing that has arrived is left, so that whoever writes the input
/// may wait for an answer in between.
#[derive(Drop)]
pub struct StdSource {
    stdin: BufReader<Stdin>,
    faults: u64,
}

impl StdSource {
    /// Reads from here with a buffer of BUFFER_SIZE bytes.
    pub fn new(alloc: Global, stdin: Stdin) -> Result<StdSource, Memory>
        ensures { IfOk result (λ source. ⟦<StdSource as Source>⟧.faults source ≡ 0) }
    {
        match BufReader::with_capacity(alloc, BUFFER_SIZE, stdin) {
            Ok(stdin) => Ok(StdSource { stdin, faults: 0 }),
            Err(_) => Err(Memory),
        }
    }
}

impl Source for StdSource {
    ghost left = { λ _. None };

    ghost faults = { λ source. source.faults };

    ghost beside = { λ _. nothing_beside };

    fn read(&mut self, buf: &mut [u8]) -> Result<usize, Failed> {
        match self.stdin.read(buf) {
            Ok(count) => Ok(count),
            Err(_) => {
                self.faults = self.faults.saturating_add(1);
                Err(Failed)
            }
        }
    }
}
