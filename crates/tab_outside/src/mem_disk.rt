//! A disk in memory, which can fail, stop and be restarted into each picture that a crash may leave.
ghost use Rattle.std.specs.Prelude.{◌≡◌, ◌+◌, ◌^◌, ◌%◌, ◌==◌, ◌<◌, ◌≤◌, ◌↔◌, ◌⊎◌, min, true, [], ◌∷◌, ◌++◌, length, take, drop, cond, vec_len, IfOk, OnOk, OnErr, IsErr};
ghost use Rattle.tab_outside.specs.Armed.{unarmed, fails_next, stops_next, after_call, with_fail, with_stop};
ghost use Rattle.tab_outside.specs.Calls.{no_calls, IsListed, CountsCall};
ghost use Rattle.tab_outside.specs.Disks.{Elapses, LeavesOnly, Rests, Wrote, overwritten, write_end};
ghost use Rattle.tab_outside.specs.LogLaws.{counts_now, only_now, reads_image, never_stopless};
ghost use Rattle.tab_outside.specs.Logs.{LogLeaves, wrote, bytes_of, picture_of, log_watch, Settles};

use crate::bytes::{copy_at, grow_to, overwrite};
use crate::calls::ArmedCalls;
use crate::logs::{Call, PICK_ALL, PICKS, settle};
use crate::{Disk, Failed};
use std::alloc::Global;
use std::marker::Model;

/// The furthest that a write may end.
const FURTHEST_END: u64 = 1 << 62;

/// A disk in memory. It keeps the list of its writes, syncs and restarts, with their pieces. Listed and armed
/// calls fail, and so do a write that ends past 2^62 and one that finds no memory.
#[derive(Debug, Drop)]
pub struct MemDisk {
    alloc: Global,
    bytes: Vec<u8>,
    // The bytes of the last sync or restart, with zeros behind them, as long as `bytes` at the least: so that a
    // restart needs no memory.
    synced: Vec<u8>,
    // How many bytes there were then.
    kept: usize,
    log: Vec<Call>,
    // How many calls of the log stand before the writes that no sync followed. Behind such a write the log has
    // room for one call more.
    before: usize,
    calls: ArmedCalls,
}

impl Model for MemDisk {
    ghost use Rattle.std.specs.Prelude.{◌<◌, map, vec_len, vec_capacity};
    ghost use Rattle.tab_outside.specs.Logs.{InLog, KeepsLog, logged};

    ghost Value = { InLog };

    ghost view = { λ a. record { log = map logged a.log.items; calls = a.calls.calls; armed = a.calls.armed } };

    ghost invariant = { λ a. KeepsLog (map logged a.log.items) a.bytes.items a.synced.items a.kept a.before
        × (a.before < vec_len a.log → vec_len a.log < vec_capacity a.log) };
}

impl MemDisk {
    /// An empty disk. Of the calls of `len`, `read_at`, `write_at` and `sync`, counted together from 1, those
    /// whose numbers are in `fails` fail.
    pub fn new(alloc: Global, fails: Vec<u64>) -> MemDisk
        ensures honest { ⟦<MemDisk as Disk>⟧.honest }
        ensures faults { ⟦<MemDisk as Disk>⟧.faults result ≡ 0 }
        ensures log { result.log ≡ [] }
        ensures calls { result.calls ≡ no_calls fails.items }
        ensures armed { result.armed ≡ unarmed }
    {
        MemDisk {
            alloc,
            bytes: Vec::new(alloc),
            synced: Vec::new(alloc),
            kept: 0,
            log: Vec::new(alloc),
            before: 0,
            calls: ArmedCalls::new(fails),
        }
    }

    /// Writes the piece and adds the call to the log, unless it ends too far or finds no memory.
    fn record(&mut self, at: u64, piece: &[u8]) -> Result<(), Failed>
        ensures logged { OnOk result (self.new.log ≡ self.old.log ++ wrote (record { at = at; piece = piece.now }) ∷ []) }
        ensures refused { OnErr result (self.new.log ≡ self.old.log) }
        ensures far { OnOk result (at + length piece.now ≤ 2 ^ 62) }
        ensures calls { self.new.calls ≡ self.old.calls }
        ensures armed { self.new.armed ≡ self.old.armed }
    {
        if at.saturating_add(piece.len() as u64) > FURTHEST_END {
            return Err(Failed);
        }
        let Ok(()) = self.log.reserve(2) else {
            return Err(Failed);
        };
        let Ok(kept_piece) = Vec::from_slice(self.alloc, piece) else {
            return Err(Failed);
        };
        let Ok(()) = grow_to(&mut self.synced, end_of(at as usize, piece)) else {
            return Err(Failed);
        };
        let Ok(()) = overwrite(&mut self.bytes, at as usize, piece) else {
            return Err(Failed);
        };
        self.log.push_reserved(Call::Write {
            at,
            piece: kept_piece,
        });
        Ok(())
    }

    /// Settles the writes since the last sync as a restart of this kind does.
    fn settle(&mut self, pick: u64)
        ensures log { Settles pick self.old.log self.new.log }
        ensures calls { self.new.calls ≡ self.old.calls }
        ensures armed { self.new.armed ≡ self.old.armed }
    {
        if self.before == self.log.len() {
            return;
        }
        settle(pick, &self.log[self.before..], &mut self.synced);
        self.kept = kept_after(pick, self.kept, self.bytes.len());
        restore(pick, &mut self.bytes, &self.synced[..self.kept]);
        self.log.push_reserved(Call::Settle { pick });
        self.before = self.log.len();
    }
}

/// How many bytes a restart of this kind leaves, of those of the last sync and those that a read gives.
fn kept_after(pick: u64, synced: usize, read: usize) -> usize
    ensures { result ≡ cond (pick % 4 == 0) synced read }
{
    if pick % PICKS == 0 { synced } else { read }
}

/// Puts the bytes in the stead of all, unless they are those that every write since the last sync left.
fn restore(pick: u64, bytes: &mut Vec<u8>, picture: &[u8])
    requires fits { length picture.now ≤ vec_len bytes.old }
    requires all { pick % 4 ≡ 1 → bytes.old.items ≡ picture.now }
    ensures { bytes.new.items ≡ picture.now }
{
    if pick % PICKS != PICK_ALL {
        bytes.truncate(picture.len());
        bytes.copy_from_slice(picture);
    }
}

/// How long a disk is at the least after a write of the piece.
fn end_of(at: usize, piece: &[u8]) -> usize
    requires { at + length piece.now ≤ 2 ^ 62 }
    ensures { result ≡ write_end at (length piece.now) }
{
    if piece.is_empty() {
        0
    } else {
        at + piece.len()
    }
}

impl Disk for MemDisk {
    ghost faults = { λ disk. disk.calls.faults };

    ghost tells = { Unit {0} };

    ghost honest = { Unit {0} };

    ghost sure = { ⊥ };

    ghost watch = { log_watch };

    ghost has_stops = { λ _. true };

    ghost armed = { λ disk. disk.armed };

    fn len(&mut self) -> Result<u64, Failed>
        ensures length { IfOk result (λ n. n ≡ length (bytes_of self.old.log)) }
        ensures kept { self.new.log ≡ self.old.log }
        ensures fails { IsErr result ↔ (IsListed self.old.calls ⊎ (fails_next self.old.armed ≡ true)) }
        ensures counted { CountsCall self.old.calls self.new.calls result }
        ensures armed { self.new.armed ≡ after_call self.old.armed }
    {
        self.calls.begin()?;
        Ok(self.bytes.len() as u64)
    }

    fn read_at(&mut self, at: u64, buf: &mut [u8]) -> Result<usize, Failed>
        ensures count { IfOk result (λ n. n ≡ min (length (drop at (bytes_of self.old.log))) (length buf.old)) }
        ensures read { IfOk result (λ n. take n buf.new ≡ take n (drop at (bytes_of self.old.log))) }
        ensures rest { IfOk result (λ n. drop n buf.new ≡ drop n buf.old) }
        ensures lent { OnErr result (buf.new ≡ buf.old) }
        ensures kept { self.new.log ≡ self.old.log }
        ensures fails { IsErr result ↔ (IsListed self.old.calls ⊎ (fails_next self.old.armed ≡ true)) }
        ensures counted { CountsCall self.old.calls self.new.calls result }
        ensures armed { self.new.armed ≡ after_call self.old.armed }
    {
        self.calls.begin()?;
        Ok(copy_at(&self.bytes, at as usize, buf))
    }

    fn write_at(&mut self, at: u64, piece: &[u8]) -> Result<(), Failed>
        ensures written { OnOk result (self.new.log ≡ self.old.log ++ wrote (record { at = at; piece = piece.now }) ∷ []) }
        ensures refused { OnErr result (self.new.log ≡ self.old.log
            ⊎ (stops_next self.old.armed ≡ true) × (self.new.log ≡ self.old.log ++ wrote (record { at = at; piece = piece.now }) ∷ [])) }
        ensures far { 2 ^ 62 < at + length piece.now → IsErr result }
        ensures bytes { OnOk result (bytes_of self.new.log ≡ overwritten (bytes_of self.old.log) at piece.now) }
        ensures doubt { Wrote log_watch at (length piece.now) self.old self.new }
        ensures fails { IsListed self.old.calls ⊎ (fails_next self.old.armed ≡ true) → IsErr result }
        ensures counted { CountsCall self.old.calls self.new.calls result }
        ensures armed { self.new.armed ≡ after_call self.old.armed }
    {
        let stops = self.calls.stops_next();
        if let Err(failed) = self.calls.begin() {
            if stops {
                // What was stopped in stands, where memory is found for it.
                let _recorded = self.record(at, piece);
            }
            return Err(failed);
        }
        match self.record(at, piece) {
            Ok(()) => Ok(()),
            Err(Failed) => Err(self.calls.fault()),
        }
    }

    fn sync(&mut self) -> Result<(), Failed>
        ensures settled { OnOk result (Settles 1 self.old.log self.new.log) }
        ensures refused { OnErr result (self.new.log ≡ self.old.log) }
        ensures durable { OnOk result (LeavesOnly log_watch self.new (bytes_of self.new.log)) }
        ensures rests { Rests log_watch self.old self.new }
        ensures fails { IsErr result ↔ (IsListed self.old.calls ⊎ (fails_next self.old.armed ≡ true)) }
        ensures counted { CountsCall self.old.calls self.new.calls result }
        ensures armed { self.new.armed ≡ after_call self.old.armed }
    {
        self.calls.begin()?;
        self.settle(PICK_ALL);
        Ok(())
    }

    fn arm_fail(&mut self, after: u64) -> bool
        ensures has { result ≡ true }
        ensures armed { self.new ≡ record self.old { armed = with_fail self.old.armed after } }
    {
        self.calls.arm_fail(after);
        true
    }

    fn arm_stop(&mut self, after: u64) -> bool
        ensures has { result ≡ true }
        ensures armed { self.new ≡ record self.old { armed = with_stop self.old.armed after } }
    {
        self.calls.arm_stop(after);
        true
    }

    fn stopped(&self) -> bool
        ensures met { result ≡ self.now.armed.stopped }
    {
        self.calls.stopped()
    }

    fn restart(&mut self, pick: u64) -> bool
        ensures has { result ≡ true }
        // The picture: 0 leaves the bytes of the last sync, 1 those with every write since, 2 and 3 those with each
        // range written since filled with a5 and with 01.
        ensures picture { bytes_of self.new.log ≡ picture_of pick self.old.log }
        ensures settled { Settles pick self.old.log self.new.log }
        ensures image { LogLeaves self.old.log (bytes_of self.new.log) }
        ensures durable { LeavesOnly log_watch self.new (bytes_of self.new.log) }
        ensures time { Elapses log_watch self.old self.new }
        ensures cleared { self.new.armed ≡ unarmed }
        ensures calls { self.new.calls ≡ self.old.calls }
    {
        self.settle(pick);
        self.calls.disarm();
        true
    }

    fn has_stops(&self) -> bool
        ensures { result ≡ true }
    {
        true
    }

    ghost counts_now = { λ _ disk. counts_now disk.log };

    ghost only_now = { λ _ disk. only_now disk.log };

    ghost reads_image = { λ _ disk. reads_image disk.log };

    ghost honest_tells = { λ honest. honest };

    ghost never_fails = { λ none _. absurd none };

    ghost tells_nothing = { λ none _. absurd none };

    ghost never_armed = { λ _ none. never_stopless none };
}
