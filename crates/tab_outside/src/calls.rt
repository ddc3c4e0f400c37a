//! The calls of something in memory, of which listed ones fail, and those of a disk, which can be armed too.
ghost use Rattle.std.specs.Prelude.{◌≡◌, ◌≤◌, ◌↔◌, ◌⊎◌, true, IsErr};
ghost use Rattle.tab_outside.specs.Armed.{unarmed, is_next, counted_down, fails_next, stops_next, after_call, with_fail, with_stop};
ghost use Rattle.tab_outside.specs.Calls.{no_calls, IsListed, CountsCall};
ghost use Rattle.tab_outside.specs.Faults.{Rose};

use crate::Failed;
use std::marker::Model;

/// Counts calls from 1, and makes those whose numbers are listed fail.
#[derive(Debug, Drop)]
pub struct ListedCalls {
    made: u64,
    fails: Vec<u64>,
    faults: u64,
}

impl Model for ListedCalls {
    ghost use Rattle.tab_outside.specs.Calls.{Calls};

    ghost Value = { Calls };

    ghost view = { λ a. record { made = a.made; fails = a.fails.items; faults = a.faults } };
}

impl ListedCalls {
    /// No call was made yet.
    pub fn new(fails: Vec<u64>) -> ListedCalls
        ensures { result ≡ no_calls fails.items }
    {
        ListedCalls {
            made: 0,
            fails,
            faults: 0,
        }
    }

    /// Counts one call, and a fault where the call is listed.
    pub fn begin(&mut self) -> Result<(), Failed>
        ensures counted { CountsCall self.old self.new result }
        ensures listed { IsErr result ↔ IsListed self.old }
    {
        self.made = self.made.saturating_add(1);
        if self.fails.contains(&self.made) {
            return Err(self.fault());
        }
        Ok(())
    }

    /// Counts one fault.
    pub fn fault(&mut self) -> Failed
        ensures rose { Rose self.old.faults self.new.faults }
        ensures later { self.old.faults ≤ self.new.faults }
        ensures same { self.new ≡ record self.old { faults = self.new.faults } }
    {
        self.faults = self.faults.saturating_add(1);
        Failed
    }
}

/// What a disk in memory has before each call: the listed calls, and a failure and a stop that wait.
#[derive(Debug, Drop)]
pub struct ArmedCalls {
    calls: ListedCalls,
    fail: Option<u64>,
    stop: Option<u64>,
    stopped: bool,
}

impl Model for ArmedCalls {
    ghost use Rattle.tab_outside.specs.Armed.{ArmableCalls};

    ghost Value = { ArmableCalls };

    ghost view = { λ a. record { calls = a.calls; armed = record { fail = a.fail; stop = a.stop; stopped = a.stopped } } };
}

impl ArmedCalls {
    /// No call was made yet and nothing is armed.
    pub fn new(fails: Vec<u64>) -> ArmedCalls
        ensures calls { result.calls ≡ no_calls fails.items }
        ensures armed { result.armed ≡ unarmed }
    {
        ArmedCalls {
            calls: ListedCalls::new(fails),
            fail: None,
            stop: None,
            stopped: false,
        }
    }

    /// Counts one call, and a fault where it is listed, meets what is armed or comes after a stop.
    pub fn begin(&mut self) -> Result<(), Failed>
        ensures counted { CountsCall self.old.calls self.new.calls result }
        ensures armed { self.new.armed ≡ after_call self.old.armed }
        ensures fails { IsErr result ↔ (IsListed self.old.calls ⊎ (fails_next self.old.armed ≡ true)) }
    {
        let fails = self.stopped || is_next(self.stop) || is_next(self.fail);
        self.stopped = self.stopped || is_next(self.stop);
        self.stop = counted_down(self.stop);
        self.fail = counted_down(self.fail);
        self.calls.begin()?;
        if fails {
            return Err(self.calls.fault());
        }
        Ok(())
    }

    /// Whether the next call is the one that is stopped in.
    pub fn stops_next(&self) -> bool
        ensures { result ≡ stops_next self.now.armed }
    {
        !self.stopped && is_next(self.stop)
    }

    /// Counts one fault.
    pub fn fault(&mut self) -> Failed
        ensures rose { Rose self.old.calls.faults self.new.calls.faults }
        ensures later { self.old.calls.faults ≤ self.new.calls.faults }
        ensures same { self.new ≡ record self.old { calls = record self.old.calls { faults = self.new.calls.faults } } }
    {
        self.calls.fault()
    }

    /// Makes one of the next calls fail once, in place of an earlier one.
    pub fn arm_fail(&mut self, after: u64)
        ensures { self.new ≡ record self.old { armed = with_fail self.old.armed after } }
    {
        self.fail = Some(after.max(1));
    }

    /// Makes one of the next calls and all behind it fail, unless an earlier one is armed.
    pub fn arm_stop(&mut self, after: u64)
        ensures { self.new ≡ record self.old { armed = with_stop self.old.armed after } }
    {
        let after = after.max(1);
        self.stop = Some(match self.stop {
            None => after,
            Some(other) => other.min(after),
        });
    }

    /// Whether a call has met an armed stop.
    pub fn stopped(&self) -> bool
        ensures { result ≡ self.now.armed.stopped }
    {
        self.stopped
    }

    /// Clears what was armed.
    pub fn disarm(&mut self)
        ensures { self.new ≡ record self.old { armed = unarmed } }
    {
        self.fail = None;
        self.stop = None;
        self.stopped = false;
    }
}

/// The next call is the one.
fn is_next(count: Option<u64>) -> bool
    ensures { result ≡ is_next count }
{
    count == Some(1)
}

/// The count after one more call.
fn counted_down(count: Option<u64>) -> Option<u64>
    ensures { result ≡ counted_down count }
{
    match count {
        None | Some(1) => None,
        Some(count) => Some(count.saturating_sub(1)),
    }
}
