//! What a held range draws its strokes on: a seat, or nothing.
ghost use Rattle.std.specs.Prelude.{◌≡◌, ℕ, ◌+◌, ◌<◌, ◌≤◌, Some, IfOk, IfErr, IsTrue, ⊤};
ghost use Rattle.tab_keys.specs.Order.{bound_lt};
ghost use Rattle.tab_keys.specs.Spans.{Interval, has};

use crate::seats::RangeSeat;
use crate::steps::Keyed;
use crate::views::Stroke;
use tab_keys::{Bound, Memory};

/// What draws strokes of the commands of one range, and is cut and fused as ranges are.
pub trait Tally<C: Keyed>: Sized {
    ghost use Rattle.std.specs.Prelude.{ℕ};
    ghost use Rattle.tab_keys.specs.Spans.{Interval};
    ghost use Rattle.tab_seats.specs.declared.views.Stroke.{Stroke};

    /// It can draw so many strokes.
    ghost ready: { Self → ℕ → Type 0 };

    /// It draws for the keys of this span.
    ghost covers: { Self → Interval → Type 0 };

    /// The tally before a draw, the stroke with its number, the tally after.
    ghost drew: { Self → Stroke C → Self → Type 0 };

    /// Both are of one kin, as of one office.
    ghost kin: { Self → Self → Type 0 };

    /// Numbers one call, made at this moment in ticks. It takes no memory.
    fn draw(&mut self, command: &C, now: u64) -> u64
        requires ready { Self.ready self.old 1 }
        requires covers { (s : Interval) × Self.covers self.old s × IsTrue (has s (C.key command.now)) }
        ensures drew { Self.drew self.old (record { number = result; command = command.now; now = now }) self.new }
        ensures ready { (n : ℕ) → Self.ready self.old (n + 1) → Self.ready self.new n }
        ensures covers { (s : Interval) → Self.covers self.old s → Self.covers self.new s }
        ensures kin { Self.kin self.old self.new };

    /// The tally of the keys below the bound and that of those from it on. Without memory the tally comes back.
    fn cut(self, at: &Bound) -> Result<(Self, Self), (Self, Memory)>
        requires { (s : Interval) × Self.covers self s × IsTrue (bound_lt s.lo at.now) × IsTrue (bound_lt at.now s.hi) }
        ensures kin { IfOk result (λ r. Self.kin self r.0 × Self.kin self r.1) }
        ensures covers { IfOk result (λ r. (s : Interval) → Self.covers self s → Self.covers r.0 (record { lo = s.lo; hi = at.now }) × Self.covers r.1 (record { lo = at.now; hi = s.hi })) }
        ensures err { IfErr result (λ r. r.0 ≡ self) };

    /// One tally of two whose spans are neighbours, this one the left. It takes no memory.
    fn fuse(self, other: Self) -> Self
        requires kin { Self.kin self other }
        requires neighbours { (s : Interval) × (t : Interval) × Self.covers self s × Self.covers other t × (s.hi ≡ t.lo) }
        ensures kin { Self.kin self result }
        ensures covers { (s : Interval) (t : Interval) → Self.covers self s → Self.covers other t → s.hi ≡ t.lo → Self.covers result (record { lo = s.lo; hi = t.hi }) };
}

impl<C: Keyed> Tally<C> for RangeSeat<C> {
    ghost use Rattle.std.specs.Prelude.{◌≡◌, ◌≤◌, Some};
    ghost use Rattle.tab_seats.specs.Offices.{Drew};

    ghost ready = { λ seat n. n ≤ seat.view.permits };

    ghost covers = { λ seat s. seat.view.span ≡ Some s };

    ghost drew = { λ seat stroke after. Drew seat stroke after };

    ghost kin = { λ seat other. seat.office ≡ other.office };

    fn draw(&mut self, command: &C, now: u64) -> u64 {
        self.draw(command, now)
    }

    fn cut(self, at: &Bound) -> Result<(Self, Self), (Self, Memory)> {
        self.cut(at)
    }

    fn fuse(self, other: Self) -> Self {
        self.fuse(other)
    }
}

/// No tally: its numbers are all 0, and it keeps nothing.
#[derive(Drop)]
pub struct NoTally;

impl<C: Keyed> Tally<C> for NoTally {
    ghost use Rattle.std.specs.Prelude.{⊤};

    ghost ready = { λ tally n. ⊤ };

    ghost covers = { λ tally s. ⊤ };

    ghost drew = { λ tally stroke after. ⊤ };

    ghost kin = { λ tally other. ⊤ };

    fn draw(&mut self, _command: &C, _now: u64) -> u64
        ensures { result ≡ 0 }
    {
        0
    }

    fn cut(self, _at: &Bound) -> Result<(Self, Self), (Self, Memory)> {
        Ok((NoTally, NoTally))
    }

    fn fuse(self, _other: Self) -> Self {
        self
    }
}
