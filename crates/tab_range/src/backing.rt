//! What a held range draws its strokes on.
ghost use Rattle.std.specs.Prelude.{◌≡◌, ℕ, ◌+◌, List, IsTrue};
ghost use Rattle.tab_keys.specs.Spans.{Interval, has};
ghost use Rattle.tab_rows.specs.Rows.{RowView};
ghost use Rattle.tab_range.specs.Commands.{command_key};
ghost use Rattle.tab_range.specs.Outcomes.{command_outcome};

use crate::Told;
use tab_seats::{NoTally, Tally};

/// A tally of what commands were told, which says what rows and which next tick a range may have that draws on it.
pub trait Backing: Tally<Told> + Drop {
    ghost use Rattle.std.specs.Prelude.{ℕ, List};
    ghost use Rattle.tab_keys.specs.Spans.{Interval};
    ghost use Rattle.tab_rows.specs.Rows.{RowView};

    /// A range of these keys may have these rows and this next tick.
    ghost allows: { Self → Interval → List RowView → ℕ → Type 0 };

    /// Numbers one command, which was answered at this moment in ticks. Of a range that it allowed, it allows what the
    /// command leaves, where the command was told just the tick that it gets there. It takes no memory.
    fn stroke(&mut self, told: &Told, now: u64) -> u64
        requires ready { Self.ready self.old 1 }
        requires covers { (s : Interval) × Self.covers self.old s × IsTrue (has s (command_key told.now.command)) }
        ensures drew { Self.drew self.old (record { number = result; command = told.now; now = now }) self.new }
        ensures ready { (n : ℕ) → Self.ready self.old (n + 1) → Self.ready self.new n }
        ensures covers { (s : Interval) → Self.covers self.old s → Self.covers self.new s }
        ensures kin { Self.kin self.old self.new }
        ensures allows { (s : Interval) (rows : List RowView) (next_tick : ℕ) → allows self.old s rows next_tick → IsTrue (has s (command_key told.now.command))
            → told.now.tick ≡ (command_outcome rows next_tick s.hi told.now.command now).tick
            → allows self.new s (command_outcome rows next_tick s.hi told.now.command now).rows (command_outcome rows next_tick s.hi told.now.command now).next_tick };
}

impl Backing for NoTally {
    ghost use Rattle.std.specs.Prelude.{⊤};

    ghost allows = { λ tally s rows next_tick. ⊤ };

    fn stroke(&mut self, _told: &Told, _now: u64) -> u64
        ensures { result ≡ 0 }
    {
        0
    }
}
