//! Standard output as a sink.
ghost use Rattle.std.specs.Prelude.{◌≡◌, None};
ghost use Rattle.tab_outside.specs.Sides.{nothing_beside};

use std::io::Stdout;
use tab_outside::{Failed, Sink};

/// Standard output. What a write takes goes out at once.
#[derive(Drop)]
pub struct StdSink {
    stdout: Stdout,
    faults: u64,
}

impl StdSink {
    /// Writes to here, with no fault so far.
    pub fn new(stdout: Stdout) -> StdSink
        ensures { ⟦<StdSink as Sink>⟧.faults result ≡ 0 }
    {
        StdSink { stdout, faults: 0 }
    }
}

impl Sink for StdSink {
    ghost taken = { λ _. None };

    ghost faults = { λ sink. sink.faults };

    ghost beside = { λ _. nothing_beside };

    fn write(&mut self, piece: &[u8]) -> Result<usize, Failed> {
        match self.stdout.write_some(piece) {
            Ok(count) if count > 0 || piece.is_empty() => Ok(count),
            _ => {
                self.faults = self.faults.saturating_add(1);
                Err(Failed)
            }
        }
    }
}
