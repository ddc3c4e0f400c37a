//! Where bytes are written to, and its form in memory.
ghost use Rattle.std.specs.Prelude.{◌≡◌, ℕ, ◌<◌, ◌≤◌, List, [], length, Option, Some, IfOk, IsErr};
ghost use Rattle.std.specs.Io.KnownBytes.{WriteAppends};
ghost use Rattle.tab_outside.specs.Calls.{no_calls, IsListed, CountsCall};
ghost use Rattle.tab_outside.specs.Faults.{HasCause, Rose};
ghost use Rattle.tab_outside.specs.Sides.{Side, nothing_beside};

use crate::Failed;
use crate::calls::ListedCalls;
use std::alloc::Global;
use std::marker::Model;

/// Where bytes are written to, in order.
pub trait Sink {
    /// The bytes that were taken, where the sink tells them.
    ghost taken: { Self → Option (List ℕ) };

    /// How many of its writes have failed.
    ghost faults: { Self → ℕ };

    /// What lies beside the writing: what a value that is also a source tells as one.
    ghost beside: { Self → Side };

    /// Takes bytes from the front of the piece and answers how many. An answer of 0 to a piece that is not
    /// empty is a fault, which the caller reports as a failed write.
    fn write(&mut self, piece: &[u8]) -> Result<usize, Failed>
        ensures bound { IfOk result (λ n. n ≤ length piece.now) }
        ensures bytes { WriteAppends (taken self.old) (taken self.new) result piece.now }
        ensures none { IfOk result (λ n. n ≡ 0 → 0 < length piece.now → Rose (faults self.old) (faults self.new)) }
        ensures cause { HasCause (faults self.old) (faults self.new) result }
        ensures beside { beside self.new ≡ beside self.old };
}

/// A sink that keeps what it takes in memory. The listed writes fail, and so does a write that finds no memory.
#[derive(Debug, Drop)]
pub struct MemSink {
    bytes: Vec<u8>,
    calls: ListedCalls,
}

impl Model for MemSink {
    ghost use Rattle.tab_outside.specs.Calls.{InMemory};

    ghost Value = { InMemory };

    ghost view = { λ a. record { bytes = a.bytes.items; calls = a.calls } };
}

impl MemSink {
    /// A sink that has taken nothing. The writes whose numbers are in `fails`, counted from 1, fail.
    pub fn new(alloc: Global, fails: Vec<u64>) -> MemSink
        ensures taken { ⟦<MemSink as Sink>⟧.taken result ≡ Some [] }
        ensures faults { ⟦<MemSink as Sink>⟧.faults result ≡ 0 }
        ensures calls { result.calls ≡ no_calls fails.items }
    {
        MemSink {
            bytes: Vec::new(alloc),
            calls: ListedCalls::new(fails),
        }
    }

    /// What was written.
    pub fn bytes(&self) -> &[u8]
        ensures taken { ⟦<MemSink as Sink>⟧.taken self.now ≡ Some result.now }
    {
        self.bytes.as_slice()
    }
}

impl Sink for MemSink {
    ghost taken = { λ sink. Some sink.bytes };

    ghost faults = { λ sink. sink.calls.faults };

    ghost beside = { λ _. nothing_beside };

    fn write(&mut self, piece: &[u8]) -> Result<usize, Failed>
        ensures count { IfOk result (λ n. n ≡ length piece.now) }
        ensures bytes { WriteAppends (Some self.old.bytes) (Some self.new.bytes) result piece.now }
        ensures listed { IsListed self.old.calls → IsErr result }
        ensures counted { CountsCall self.old.calls self.new.calls result }
    {
        self.calls.begin()?;
        match self.bytes.extend_from_slice(piece) {
            Ok(()) => Ok(piece.len()),
            Err(_) => Err(self.calls.fault()),
        }
    }
}
