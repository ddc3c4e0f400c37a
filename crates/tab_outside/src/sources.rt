//! Where bytes are read from, and its form in memory.
ghost use Rattle.std.specs.Prelude.{◌≡◌, ℕ, ◌<◌, ◌≤◌, ◌↔◌, min, List, length, Option, Some, IfOk, OnErr, IsErr};
ghost use Rattle.std.specs.Io.KnownBytes.{ReadConsumes};
ghost use Rattle.tab_outside.specs.Calls.{no_calls, IsListed, CountsCall};
ghost use Rattle.tab_outside.specs.Faults.{HasCause};
ghost use Rattle.tab_outside.specs.Sides.{Side, nothing_beside};

use crate::Failed;
use crate::bytes::copy_front;
use crate::calls::ListedCalls;
use std::marker::Model;

/// Where bytes are read from, in order.
pub trait Source {
    /// The bytes that are left to read, where the source tells them.
    ghost left: { Self → Option (List ℕ) };

    /// How many of its reads have failed.
    ghost faults: { Self → ℕ };

    /// What lies beside the reading: what a value that is also a sink tells as one.
    ghost beside: { Self → Side };

    /// Reads the next bytes into the front of the buffer and answers how many. An answer of 0, where the
    /// buffer has room, is the end of input.
    fn read(&mut self, buf: &mut [u8]) -> Result<usize, Failed>
        ensures bound { IfOk result (λ n. n ≤ length buf.old) }
        ensures bytes { ReadConsumes (left self.old) (left self.new) result buf.new }
        ensures cause { HasCause (faults self.old) (faults self.new) result }
        ensures beside { beside self.new ≡ beside self.old };
}

/// A source over bytes in memory, of which the listed reads fail.
#[derive(Debug, Drop)]
pub struct MemSource {
    bytes: Vec<u8>,
    at: usize,
    calls: ListedCalls,
}

impl Model for MemSource {
    ghost use Rattle.std.specs.Prelude.{◌≤◌, drop, vec_len};
    ghost use Rattle.tab_outside.specs.Calls.{InMemory};

    ghost Value = { InMemory };

    ghost view = { λ a. record { bytes = drop a.at a.bytes.items; calls = a.calls } };

    ghost invariant = { λ a. a.at ≤ vec_len a.bytes };
}

impl MemSource {
    /// Reads the bytes in order. The reads whose numbers are in `fails`, counted from 1, fail.
    pub fn new(bytes: Vec<u8>, fails: Vec<u64>) -> MemSource
        ensures left { ⟦<MemSource as Source>⟧.left result ≡ Some bytes.items }
        ensures faults { ⟦<MemSource as Source>⟧.faults result ≡ 0 }
        ensures calls { result.calls ≡ no_calls fails.items }
    {
        MemSource {
            bytes,
            at: 0,
            calls: ListedCalls::new(fails),
        }
    }
}

impl Source for MemSource {
    ghost left = { λ source. Some source.bytes };

    ghost faults = { λ source. source.calls.faults };

    ghost beside = { λ _. nothing_beside };

    fn read(&mut self, buf: &mut [u8]) -> Result<usize, Failed>
        ensures count { IfOk result (λ n. n ≡ min (length self.old.bytes) (length buf.old)) }
        ensures bytes { ReadConsumes (Some self.old.bytes) (Some self.new.bytes) result buf.new }
        ensures listed { IsErr result ↔ IsListed self.old.calls }
        ensures lent { OnErr result (buf.new ≡ buf.old) }
        ensures counted { CountsCall self.old.calls self.new.calls result }
    {
        self.calls.begin()?;
        let count = copy_front(&self.bytes[self.at..], buf);
        self.at += count;
        Ok(count)
    }
}
