//! Rows of bytes that outlive the program: what a read gives, and what a crash may leave.
ghost use Rattle.std.specs.Prelude.{◌≡◌, ℕ, ◌+◌, ◌^◌, ◌≤◌, min, Bool, false, length, take, drop, IfOk, OnOk, IsTrue, IsFalse};
ghost use Rattle.tab_outside.specs.Armed.{Armed, unarmed, with_fail, with_stop, MeetsArmed};
ghost use Rattle.tab_outside.specs.Disks.{Watch, Rests, Wrote, Elapses, LeavesOnly, CountsNow, OnlyNow, ReadsImage, overwritten};
ghost use Rattle.tab_outside.specs.Faults.{HasCause};

use crate::Failed;

/// A row of bytes that outlives the program.
pub trait Disk {
    /// How many of its calls have failed.
    ghost faults: { Self → ℕ };

    /// That it tells its content: a read gives what it holds. No value stands here for a disk that tells nothing.
    ghost tells: { Type 0 };

    /// That it is an honest disk, which tells its content, keeps what was synced, and doubts nothing but what was
    /// written since.
    ghost honest: { Type 0 };

    /// That it never fails. No value stands here for a disk that may.
    ghost sure: { Type 0 };

    /// What a read gives and what a crash may leave, now and since earlier moments.
    ghost watch: { Watch Self };

    /// Whether calls can be made to fail and to stop, and a crash can be simulated.
    ghost has_stops: { Self → Bool };

    /// The failure and the stop that wait for a call, and whether the disk has stopped.
    ghost armed: { Self → Armed };

    /// The number of bytes.
    fn len(&mut self) -> Result<u64, Failed>
        ensures length { tells → IfOk result (λ n. n ≡ length (watch.seen self.old)) }
        ensures rests { honest → Rests watch self.old self.new }
        ensures cause { HasCause (faults self.old) (faults self.new) result }
        ensures armed { MeetsArmed (armed self.old) (armed self.new) result }
        ensures stops { has_stops self.new ≡ has_stops self.old };

    /// Reads the bytes from the offset `at` on into the front of the buffer and answers how many: fewer than
    /// the buffer holds exactly at the end of the disk. What a read that fails leaves in the buffer is free.
    fn read_at(&mut self, at: u64, buf: &mut [u8]) -> Result<usize, Failed>
        ensures bound { IfOk result (λ n. n ≤ length buf.old) }
        ensures count { tells → IfOk result (λ n. n ≡ min (length (drop at (watch.seen self.old))) (length buf.old)) }
        ensures bytes { tells → IfOk result (λ n. take n buf.new ≡ take n (drop at (watch.seen self.old))) }
        ensures rests { honest → Rests watch self.old self.new }
        ensures cause { HasCause (faults self.old) (faults self.new) result }
        ensures armed { MeetsArmed (armed self.old) (armed self.new) result }
        ensures stops { has_stops self.new ≡ has_stops self.old };

    /// Writes the whole piece at the offset `at`. A disk that ends before is filled up with zeros to there; an
    /// empty piece changes nothing. Until the next sync a crash may leave any bytes in the range, also where
    /// the write failed.
    fn write_at(&mut self, at: u64, piece: &[u8]) -> Result<(), Failed>
        ensures written { honest → OnOk result (watch.seen self.new ≡ overwritten (watch.seen self.old) at piece.now) }
        ensures doubt { honest → Wrote watch at (length piece.now) self.old self.new }
        ensures far { (sure → ⊥) → OnOk result (at + length piece.now ≤ 2 ^ 62) }
        ensures cause { HasCause (faults self.old) (faults self.new) result }
        ensures armed { MeetsArmed (armed self.old) (armed self.new) result }
        ensures stops { has_stops self.new ≡ has_stops self.old };

    /// Makes what was written outlive a crash.
    fn sync(&mut self) -> Result<(), Failed>
        ensures durable { honest → OnOk result (LeavesOnly watch self.new (watch.seen self.new)) }
        ensures rests { honest → Rests watch self.old self.new }
        ensures cause { HasCause (faults self.old) (faults self.new) result }
        ensures armed { MeetsArmed (armed self.old) (armed self.new) result }
        ensures stops { has_stops self.new ≡ has_stops self.old };

    /// Makes the call number `after` from now, of the four above, fail once. A 0 counts as 1. It takes the
    /// place of an earlier one whose call has not come. It answers false where the disk has no such thing.
    fn arm_fail(&mut self, after: u64) -> bool
        ensures has { result ≡ has_stops self.old }
        ensures armed { IsTrue result → armed self.new ≡ with_fail (armed self.old) after }
        ensures unchanged { IsFalse result → self.new ≡ self.old }
        ensures rests { honest → Rests watch self.old self.new }
        ensures faults { faults self.new ≡ faults self.old }
        ensures stops { has_stops self.new ≡ has_stops self.old };

    /// Makes the call number `after` from now, of the four above, and all that follow it fail. A 0 counts
    /// as 1. Of several the one whose call comes first counts. It answers false where the disk has no such thing.
    fn arm_stop(&mut self, after: u64) -> bool
        ensures has { result ≡ has_stops self.old }
        ensures armed { IsTrue result → armed self.new ≡ with_stop (armed self.old) after }
        ensures unchanged { IsFalse result → self.new ≡ self.old }
        ensures rests { honest → Rests watch self.old self.new }
        ensures faults { faults self.new ≡ faults self.old }
        ensures stops { has_stops self.new ≡ has_stops self.old };

    /// Whether a call has met an armed stop.
    fn stopped(&self) -> bool
        ensures met { result ≡ (armed self.now).stopped }
        ensures none { IsFalse (has_stops self.now) → IsFalse result };

    /// Simulates a crash: puts the disk into one of the states that a crash now may leave, chosen by `pick`, and
    /// clears what was armed. It answers false where the disk has no such thing.
    fn restart(&mut self, pick: u64) -> bool
        ensures has { result ≡ has_stops self.old }
        ensures image { honest → IsTrue result → watch.may_leave self.old (watch.seen self.new) }
        ensures durable { honest → IsTrue result → LeavesOnly watch self.new (watch.seen self.new) }
        ensures time { honest → Elapses watch self.old self.new }
        ensures cleared { IsTrue result → armed self.new ≡ unarmed }
        ensures unchanged { IsFalse result → self.new ≡ self.old }
        ensures faults { faults self.new ≡ faults self.old }
        ensures stops { has_stops self.new ≡ has_stops self.old };

    /// Whether the disk has failures and stops, and can be restarted.
    fn has_stops(&self) -> bool
        ensures { result ≡ has_stops self.now };

    /// A crash now counts as one since any earlier moment.
    ghost counts_now: { honest → CountsNow watch };

    /// A crash since now is one now.
    ghost only_now: { honest → OnlyNow watch };

    /// A read gives one of the images that a crash may leave.
    ghost reads_image: { honest → ReadsImage watch };

    /// A sure disk counts no fault.
    ghost never_fails: { sure → (disk : Self) → faults disk ≡ 0 };

    /// An honest disk tells its content.
    ghost honest_tells: { honest → tells };

    /// A sure disk tells nothing of its content.
    ghost tells_nothing: { sure → tells → ⊥ };

    /// A disk without stops has none armed.
    ghost never_armed: { (disk : Self) → has_stops disk ≡ false → armed disk ≡ unarmed };
}
