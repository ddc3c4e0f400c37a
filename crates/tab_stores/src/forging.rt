//! A disk that gives other bytes than it holds once one of its calls has failed.

ghost use Rattle.std.specs.Prelude.{◌≡◌, length, true};
ghost use Rattle.tab_outside.specs.LogLaws.{never_stopless};
ghost use Rattle.tab_outside.specs.Logs.{log_watch};

use tab_outside::{Disk, Failed, MemDisk};

/// The bits that are turned of the byte at an offset.
#[derive(Clone, Copy)]
pub struct Forging {
    pub at: u64,
    pub bits: u8,
}

/// A disk in memory with a forging, which each read shows once a call has failed.
#[derive(Drop)]
pub struct Forger {
    disk: MemDisk,
    forging: Forging,
    has_failed: bool,
}

impl Forger {
    pub fn new(disk: MemDisk, forging: Forging) -> Forger {
        Forger {
            disk,
            forging,
            has_failed: false,
        }
    }

    /// Notes whether a call has failed.
    fn note<T: Drop>(&mut self, answer: Result<T, Failed>) -> Result<T, Failed>
        ensures same { result ≡ answer }
        ensures disk { self.new.disk ≡ self.old.disk }
    {
        if answer.is_err() {
            self.has_failed = true;
        }
        answer
    }
}

impl Disk for Forger {
    ghost faults = { λ forger. forger.disk.calls.faults };

    ghost tells = { ⊥ };

    ghost honest = { ⊥ };

    ghost sure = { ⊥ };

    ghost watch = { record {
      seen = λ forger. log_watch.seen forger.disk;
      may_leave = λ forger. log_watch.may_leave forger.disk;
      moment = λ forger. log_watch.moment forger.disk;
      left_since = λ forger. log_watch.left_since forger.disk;
    } };

    ghost has_stops = { λ _. true };

    ghost armed = { λ forger. forger.disk.armed };

    fn len(&mut self) -> Result<u64, Failed> {
        let answer = self.disk.len();
        self.note(answer)
    }

    fn read_at(&mut self, at: u64, buf: &mut [u8]) -> Result<usize, Failed> {
        let answer = self.disk.read_at(at, buf);
        if self.has_failed {
            forge(self.forging, at, buf);
        }
        self.note(answer)
    }

    fn write_at(&mut self, at: u64, piece: &[u8]) -> Result<(), Failed> {
        let answer = self.disk.write_at(at, piece);
        self.note(answer)
    }

    fn sync(&mut self) -> Result<(), Failed> {
        let answer = self.disk.sync();
        self.note(answer)
    }

    fn arm_fail(&mut self, after: u64) -> bool {
        self.disk.arm_fail(after)
    }

    fn arm_stop(&mut self, after: u64) -> bool {
        self.disk.arm_stop(after)
    }

    fn stopped(&self) -> bool {
        self.disk.stopped()
    }

    fn restart(&mut self, pick: u64) -> bool {
        self.disk.restart(pick)
    }

    fn has_stops(&self) -> bool {
        self.disk.has_stops()
    }

    ghost counts_now = { λ none. absurd none };

    ghost only_now = { λ none. absurd none };

    ghost reads_image = { λ none. absurd none };

    ghost never_fails = { λ none _. absurd none };

    ghost honest_tells = { λ none. none };

    ghost tells_nothing = { λ none _. absurd none };

    ghost never_armed = { λ _ none. never_stopless none };
}

/// Turns the bits in what was read from the offset `from` on.
fn forge(forging: Forging, from: u64, read: &mut [u8])
    ensures { length read.new ≡ length read.old }
{
    if let Some(place) = forging.at.checked_sub(from) {
        if let Some(byte) = read.get_mut(place as usize) {
            *byte ^= forging.bits;
        }
    }
}
